// What a running frame keeps beside its head and its table.

// The clock, and the order of ties in force: whether it is hold.
#[derive(Clone, Copy, Debug, PartialEq, Eq, Hash)]
pub struct Moment {
    pub clock: usize,
    pub hold: bool,
}
