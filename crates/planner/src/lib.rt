// The planner for firmware in C or Rust: a static library of eight functions over numbers and
// slices alone (`bin/build planner`; its header is include/planner.h). What each function promises
// is in specs/Exports.antt, the layout of what is lent in specs/Layout.antt.
#![tactic(auto)]

pub mod exports; // exports.rt: the exported functions
pub mod version; // version.rt: the version of the layout, exported too
// Parts, private to the library:
mod sizes; // sizes.rt: how long what is lent has to be
mod values; // values.rt: one number of a list that is lent
mod lent; // lent.rt: a frame that is lent, by value
mod answers; // answers.rt: the numbers of an answer
mod numbers; // numbers.rt: a head, a clock and an order of ties out of a frame's numbers, and back
mod presets; // presets.rt: the preset records out of bytes, and back
mod grants; // grants.rt: the grants of a plan into bytes
