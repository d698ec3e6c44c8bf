// Sets of cells. Cells are numbered from 0, slot by slot and in each slot bridge by bridge, and a
// small frame has at most six.
use std::ops::{BitAnd, BitOr, Sub};

// A set of cells, a bit for each. Of two sets the greater is the one with the latest cell that is
// not in both.
#[derive(Clone, Copy, Debug, PartialEq, Eq, PartialOrd, Ord, Hash)]
pub struct Cells(u8);

impl Cells {
    pub const NONE: Cells = Cells(0);

    pub const ALL: Cells = Cells(0b11_1111);

    // The set of a number below 64, another one for each.
    pub fn numbered(n: u8) -> Cells {
        Cells(n) & Cells::ALL
    }

    // The set that has just one cell, none past the sixth.
    pub fn one(cell: usize) -> Cells {
        match cell {
            0..=5 => Cells(1 << cell),
            _ => Cells::NONE,
        }
    }

    // The first n cells.
    pub fn below(n: usize) -> Cells {
        match n {
            0..=5 => Cells(!(u8::MAX << n)),
            _ => Cells::ALL,
        }
    }

    // Each cell moved to a later one; those that would be past the sixth are dropped.
    pub fn moved(self, by: usize) -> Cells {
        match by {
            0..=5 => Cells(self.0 << by) & Cells::ALL,
            _ => Cells::NONE,
        }
    }

    pub fn has(self, cell: usize) -> bool {
        self & Cells::one(cell) != Cells::NONE
    }

    pub fn is_within(self, other: Cells) -> bool {
        self - other == Cells::NONE
    }

    pub fn is_empty(self) -> bool {
        self == Cells::NONE
    }

    // How many cells it has.
    pub fn size(self) -> usize {
        self.0.count_ones() as usize
    }

    // Its first cell.
    pub fn first(self) -> Option<usize> {
        (0..6).find(|cell| self.has(*cell))
    }

    // Takes its first cell out.
    pub fn take_first(&mut self) -> Option<usize> {
        let first = self.first()?;
        *self = *self - Cells::one(first);
        Some(first)
    }
}

impl BitAnd for Cells {
    type Output = Cells;

    fn bitand(self, other: Cells) -> Cells {
        Cells(self.0 & other.0)
    }
}

impl BitOr for Cells {
    type Output = Cells;

    fn bitor(self, other: Cells) -> Cells {
        Cells(self.0 | other.0)
    }
}

// The cells that only the first has.
impl Sub for Cells {
    type Output = Cells;

    fn sub(self, other: Cells) -> Cells {
        Cells(self.0 & !other.0)
    }
}
