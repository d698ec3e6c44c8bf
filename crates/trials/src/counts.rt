// Both planners go through the small frames, a column for each supply.
use crate::family::try_code;
use crate::tally::{Column, write_columns};
use std::io;

// Compares both planners on every small frame of the family, each code with each supply and under
// `(tie place)` and then under `(tie hold)`, and writes the counts. The supplies are none, 1 and 2,
// and one above the bridges of every frame here.
pub fn compare_all(rt: &impl Print) -> io::Result<()> {
    let mut columns = [None, Some(1), Some(2), Some(8)].map(Column::new);
    for code in 0..133056 {
        for column in columns.iter_mut() {
            try_code(rt, column, code, false)?;
            try_code(rt, column, code, true)?;
        }
    }
    write_columns(rt, &columns)
}
