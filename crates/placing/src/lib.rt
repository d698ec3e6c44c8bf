// Layer 2, placing: the plan of a fresh frame, and a call on a running one. What must be believed
// of it is specs/, what is proved proofs/Theorems.antt. The entries:
#![tactic(auto)]

pub mod plan; // plan.rt: plan, over a borrowed list of preset records; and with them by value
pub mod call; // call.rt: call, over a borrowed list of preset records; with them by value; and by counts that are kept
// What the parts share:
pub mod cells; // cells.rt: what a cell of the table is
pub mod moment; // moment.rt: the clock and the order of ties of a running frame
mod capacities; // capacities.rt: how many slots have at least so many free bridges
mod sums; // sums.rt: needs by their sums, and by how much they exceed the capacities
// The causes of a frame, and the limits within which the parts look at one:
pub mod check; // check.rt: the first cause that a running frame meets
pub mod limits; // limits.rt: the limits, and the motors that the supply feeds
mod lawful; // lawful.rt: a station within all its limits
mod grid; // grid.rt: the cells of a frame within the limits
// What a plan's presets get:
mod grants; // grants.rt: the grants
// What a call costs:
pub mod counts; // counts.rt: what a call's causes are decided by, counted once for a table and a clock
mod search; // search.rt: which optional cells a call evicts
// Where presets and jobs go:
mod rule; // rule.rt: largest remaining time first, slot by slot
