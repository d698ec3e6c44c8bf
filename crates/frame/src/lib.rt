// Layer 3, the running frame: one event, a whole text, a text of events, and the listing. What must
// be believed of it is specs/; the three demands are proved in proofs/Demands.antt. The entries:
#![tactic(auto)]

pub mod event; // event.rt: set_clock and event, over a borrowed list of preset records; and with them by value
pub mod text; // text.rt: run_text, over a borrowed list of preset records; and with them by value
pub mod events; // events.rt: run_events, the lines of a text without a head, over a borrowed list of preset records; and with them by value
pub mod listing; // listing.rt: write_listing, write_answer, write_grant, write_slot
pub mod types; // types.rt: the answers
