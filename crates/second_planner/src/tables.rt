// Tables of a head: those without call cells that are well-formed but perhaps for its supply, and
// whether a table obeys it.
use crate::cells::Cells;
use crate::frames::Frame;
use crate::heads::{Head, Line};

// A cell of a table: its kind of document 01, with the name of the preset or job that has it.
#[derive(Clone, Copy, Debug, PartialEq, Eq, Hash)]
pub enum Cell {
    Empty,
    Mandatory(u8),
    Optional(u8),
    Call(u8),
}

// The table of a small frame. Busy cells are empty in it: they are in no slot's set.
#[derive(Clone, Copy, Debug, PartialEq, Eq, Hash)]
pub struct Table(pub [Cell; 6]);

impl Table {
    pub const EMPTY: Table = Table([Cell::Empty; 6]);

    // The cells of which a test holds.
    pub fn cells<F: Fn(Cell) -> bool>(&self, test: F) -> Cells
        requires { F.IsAlwaysCallable test }
    {
        let mut set = Cells::NONE;
        for (i, cell) in self.0.iter().enumerate() {
            if test(*cell) {
                set = set | Cells::one(i);
            }
        }
        set
    }

    // The empty cells.
    pub fn empty(&self) -> Cells {
        self.cells(|cell| cell == Cell::Empty)
    }

    // The optional cells.
    pub fn optional(&self) -> Cells {
        self.cells(|cell| matches!(cell, Cell::Optional(_)))
    }

    // The optional cells of a preset.
    pub fn optional_of(&self, name: u8) -> Cells {
        self.cells(|cell| cell == Cell::Optional(name))
    }

    // The optional cells of presets with priority p or a better one.
    pub fn optional_to(&self, head: &Head, p: u8) -> Cells {
        self.cells(|cell| matches!(cell, Cell::Optional(name) if head.priority(name) <= p))
    }

    // Whether a call cell has a name.
    pub fn has_call(&self, name: u8) -> bool {
        self.0.contains(&Cell::Call(name))
    }

    // Writes a cell, if there is one.
    pub fn put(&mut self, at: Option<usize>, cell: Cell) {
        if let Some(to) = at.and_then(|i| self.0.get_mut(i)) {
            *to = cell;
        }
    }

    // The table with a set of cells made empty.
    pub fn without(&self, set: Cells) -> Table {
        let mut after = *self;
        for (i, cell) in after.0.iter_mut().enumerate() {
            if set.has(i) {
                *cell = Cell::Empty;
            }
        }
        after
    }

    // Whether in no slot presets and calls hold more cells than the supply feeds. Document 02,
    // 2026-03: "Valid placements from then on obey the cap, and a sound table does too", so the
    // slots up to the clock count like the others. A busy cell draws nothing.
    pub fn is_fed(&self, sets: &[Cells], supply: Option<usize>) -> bool {
        let empty = self.empty();
        supply.is_none_or(|k| sets.iter().all(|slot| (*slot - empty).size() <= k))
    }
}

// A preset while a table is filled cell by cell: the slots that it has still to get, and its cells.
#[derive(Clone, Copy, Debug, PartialEq, Eq, Hash)]
struct Filling {
    line: Line,
    left: u8,
    own: Cells,
}

impl Filling {
    // What a line has before the first cell.
    fn new(line: Line) -> Filling {
        Filling {
            line,
            left: line.slots(),
            own: Cells::NONE,
        }
    }

    // Gives it a cell of a slot, if it may have that: the line has slots left to get and no other
    // cell of the slot.
    fn take(&mut self, cell: usize, slot: Cells) -> Option<Cell> {
        if !(self.own & slot).is_empty() {
            return None;
        }
        let taken = self.line.cell(self.left);
        self.left = self.left.checked_sub(1)?;
        self.own = self.own | Cells::one(cell);
        Some(taken)
    }

    // Whether it has its mandatory slots.
    fn is_done(&self) -> bool {
        self.left <= self.line.optional
    }
}

// The table of a code below 4,096, four choices a cell: a preset's line, or 3 for nothing. No table
// where a preset has a busy cell, two cells of a slot, or fewer than its mandatory or more than all
// its slots.
pub fn table_of(frame: &Frame, head: &Head, code: usize) -> Option<Table> {
    let sets = frame.sets();
    let mut presets = head.lines.map(Filling::new);
    let mut table = Table::EMPTY;
    for (i, cell) in table.0.iter_mut().enumerate() {
        let choice = code >> 2 * i & 3;
        if let Some(preset) = presets.get_mut(choice) {
            let slot = sets.iter().find(|slot| slot.has(i))?;
            *cell = preset.take(i, *slot)?;
        }
    }
    presets.iter().all(Filling::is_done).then_some(table)
}
