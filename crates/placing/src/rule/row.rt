// One slot's row of the table: what each job writes there, who takes which free bridge, and the row
// itself.
ghost use Rattle.std.specs.Prelude.{◌≡◌, false, ℕ, ◌+◌, ◌-◌, ◌<◌, ◌≤◌, length, set};
ghost use Rattle.laws.specs.Sums.{bit};
ghost use Rattle.laws.specs.Lists.{at};
ghost use Rattle.laws.specs.Cells.{slot_cell};
ghost use Rattle.station.specs.Limits.{most_bridges};
ghost use Rattle.station.specs.Head.{has_bit};
ghost use Rattle.placing.specs.method.Limits.{most_placed};
ghost use Rattle.placing.specs.method.Rule.{due_cells, RowWritten, emptied, EmptyRow};

use crate::cells::Cell;
use crate::limits::MOST_PLACED;
use crate::rule::Work;

// What job i writes next, `early[i]` as long as it has cells of that kind due, then `late[i]`; it
// then has one less due.
fn next_cell(due: &mut [u8; MOST_PLACED], work: &Work, i: usize) -> Cell
    requires { (i < most_placed) × (length due.old ≡ most_placed) }
    ensures { (result ≡ due_cells due.old work.now.early work.now.late i)
        × (due.new ≡ set due.old i (at due.old i - 1)) }
{
    let rest = due[i];
    if rest == 0 {
        return work.late[i];
    }
    due[i] = rest - 1;
    work.early[i]
}

// Empties those bridges of the row which are left in the mask; the others keep their cells. (Std
// has no iterator over the ones of a mask: one of one's own would be longer than the two walks
// here.) Where the supply feeds every bridge, the jobs have taken every free one of most slots, so
// that it goes from one bridge of the mask to the next.
fn empty_row(row: &mut [Cell], mask: u8)
    requires { length row.old ≤ most_bridges }
    ensures { RowWritten row.old row.new (length row.old) (emptied (has_bit mask) (at row.old)) }
{
    let mut rest = mask;
    while rest != 0 {
        let b = rest.trailing_zeros() as usize;
        if b < row.len() {
            row[b] = 0;
        }
        rest &= rest - 1;
    }
}

// Writes the row of a slot: the free bridges in ascending order take what the chosen jobs write, in
// their order, or 0; the others keep their cells. A chosen job that finds no free bridge writes
// nothing. Where the free bridges are empty already, none is emptied: `empties` is then false.
pub(crate) fn write_row(
    row: &mut [Cell],
    mask: u8,
    chosen: u64,
    due: &mut [u8; MOST_PLACED],
    work: &Work,
    empties: bool,
)
    requires { (length row.old ≤ most_bridges) × (length due.old ≡ most_placed) }
    ensures { (length row.new ≡ length row.old) × (length due.new ≡ most_placed)
        × ((i : ℕ) → at due.new i ≡ at due.old i - bit (has_bit chosen i))
        × ((empties ≡ false → EmptyRow row.old (length row.old) (has_bit mask))
        → RowWritten row.old row.new (length row.old)
        (slot_cell most_placed (has_bit chosen) (has_bit mask) (due_cells due.old work.now.early work.now.late) (at row.old))) }
{
    let mut free = mask;
    let mut jobs = chosen;
    while jobs != 0 {
        let i = jobs.trailing_zeros() as usize;
        let value = next_cell(due, work, i);
        let b = free.trailing_zeros() as usize;
        if b < row.len() {
            row[b] = value;
            free &= free - 1;
        }
        jobs &= jobs - 1;
    }
    if empties {
        empty_row(row, free);
    }
}
