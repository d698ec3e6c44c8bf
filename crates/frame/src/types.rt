// The answers of the running frame. What each stands for is in specs/Types.antt.

// The answer to one event: the new clock, the new order of ties (whether it is hold), or the number
// of optional cells that a call evicts. An event that is refused has none, but a cause.
#[derive(Clone, Copy, Debug, PartialEq, Eq, Hash)]
pub enum Answer {
    Now(usize),
    Tie(bool),
    Taken(usize),
}
