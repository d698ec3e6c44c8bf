// Frames: every one of at most three bridges and six cells.
ghost use Rattle.std.specs.Prelude.{◌<◌, ◌≤◌};

use crate::cells::Cells;

// A frame with its busy cells.
#[derive(Clone, Copy, Debug, PartialEq, Eq, Hash)]
pub struct Frame {
    pub bridges: usize,
    pub slots: usize,
    pub busy: Cells,
    ghost is_small: { (0 < bridges) × (bridges ≤ 3) × (slots ≤ 6) },
}

impl Frame {
    // The frame of an index with a set of busy cells, where there is one that has all of these.
    pub fn at(index: usize, busy: Cells) -> Option<Frame> {
        let (bridges, slots) = match index {
            0..=5 => (1, index + 1),
            6..=8 => (2, index - 5),
            9..=10 => (3, index - 8),
            _ => return None,
        };
        let frame = Frame {
            bridges,
            slots,
            busy,
        };
        busy.is_within(frame.cells()).then_some(frame)
    }

    // Its cells.
    pub fn cells(&self) -> Cells {
        Cells::below(self.slots * self.bridges)
    }

    // The cells of each slot that are not busy.
    pub fn sets(&self) -> [Cells; 6] {
        let mut sets = [Cells::NONE; 6];
        let mut slot = Cells::below(self.bridges);
        for set in sets.iter_mut().take(self.slots) {
            *set = slot - self.busy;
            slot = slot.moved(self.bridges);
        }
        sets
    }
}
