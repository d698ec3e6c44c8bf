// The library's table. Past the frame's cells it is full of a mark that must stay.
use crate::records::number_of;
use placing::cells::Cell;
use second_planner::frames::Frame;
use second_planner::tables::{self, Table};

// The mark, a cell of no kind.
pub const MARK: Cell = 54321;

// A cell of the library's table by a small one's: document 01, kind × 256 + number.
fn cell_of(cell: tables::Cell) -> Cell {
    match cell {
        tables::Cell::Empty => 0,
        tables::Cell::Mandatory(name) => 512 + u16::from(number_of(name)),
        tables::Cell::Optional(name) => 768 + u16::from(number_of(name)),
        tables::Cell::Call(name) => 1024 + u16::from(number_of(name)),
    }
}

// The library's table of a small one.
pub fn table_of(frame: &Frame, small: &Table) -> [Cell; 512] {
    let mut table = [MARK; 512];
    for (i, cell) in small.0.iter().enumerate().take(frame.slots * frame.bridges) {
        table[i] = if frame.busy.has(i) {
            256
        } else {
            cell_of(*cell)
        };
    }
    table
}
