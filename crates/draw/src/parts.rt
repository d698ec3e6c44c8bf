// The parts of a frame's picture: its cells, slots and bridges, the clock and the legend.
use crate::cells::cell_at_origin;
use crate::layout::{clock_edge, column, drawn_bridges, drawn_slots, row};
use crate::output::{around, moved, put};
use placing::cells::{BUSY, CALL, Cell, MANDATORY, OPTIONAL};
use std::io;

// What a picture shows: the frame's cells, slot by slot, as they are and as they were before, and
// the clock.
#[derive(Clone, Copy, Debug, PartialEq, Eq, Hash)]
pub struct View<'a> {
    pub slots: usize,
    pub bridges: usize,
    pub was: &'a [Cell],
    pub is: &'a [Cell],
    pub clock: usize,
}

// The cell of a table at a slot and a bridge; an empty one past its end.
fn cell_of(table: &[Cell], bridges: usize, slot: usize, bridge: usize) -> Cell {
    let place = slot.saturating_mul(bridges).saturating_add(bridge);
    table.get(place).copied().unwrap_or(0)
}

// Writes the cell of a slot and a bridge, as it is and as it was before.
fn placed_cell(rt: &impl Print, view: View, slot: usize, bridge: usize) -> io::Result<()> {
    let was = cell_of(view.was, view.bridges, slot, bridge);
    let is = cell_of(view.is, view.bridges, slot, bridge);
    moved(rt, column(slot), row(bridge))?;
    cell_at_origin(rt, was, is)?;
    put(rt, b"</g>\n")
}

// Writes the slots' numbers, each above its cells, and all cells.
pub fn slots_and_cells(rt: &impl Print, view: View) -> io::Result<()> {
    for slot in 0..drawn_slots(view.slots) {
        around(rt, b"<text x=\"", column(slot) + 22, b"\" y=\"62\">")?;
        around(rt, b"", slot + 1, b"</text>\n")?;
        for bridge in 0..drawn_bridges(view.bridges) {
            placed_cell(rt, view, slot, bridge)?;
        }
    }
    Ok(())
}

// Writes the bridges' numbers, each left of its cells.
pub fn bridge_labels(rt: &impl Print, bridges: usize) -> io::Result<()> {
    for bridge in 0..drawn_bridges(bridges) {
        around(rt, b"<text x=\"68\" y=\"", row(bridge) + 20, b"\">bridge ")?;
        around(rt, b"", bridge + 1, b"</text>\n")?;
    }
    Ok(())
}

// Writes the mark of the clock at the right edge of the slot that is about to begin: that slot is
// lost to a call, as those before it are.
pub fn clock_mark(rt: &impl Print, view: View) -> io::Result<()> {
    moved(rt, clock_edge(view.clock, view.slots), 0)?;
    around(
        rt,
        b"<path d=\"M-6 34h12l-6 10z\"/><path d=\"M0 40V",
        row(view.bridges) + 5,
        b"\" stroke=\"#000\" stroke-width=\"3\"/>",
    )?;
    around(
        rt,
        b"<text x=\"9\" y=\"44\">clock ",
        view.clock,
        b"</text></g>\n",
    )
}

// Writes one entry of the legend: a small cell and a word.
fn legend_entry(
    rt: &impl Print,
    x: usize,
    y: usize,
    was: Cell,
    cell: Cell,
    word: &[u8],
) -> io::Result<()> {
    moved(rt, x, y)?;
    put(rt, b"<g transform=\"scale(.75)\" text-anchor=\"middle\">")?;
    cell_at_origin(rt, was, cell)?;
    put(rt, b"</g><text x=\"40\" y=\"16\">")?;
    put(rt, word)?;
    put(rt, b"</text></g>\n")
}

// Writes the legend below the frame, in the words of the manual. Nothing is lost before an event.
pub fn legend(rt: &impl Print, bridges: usize, with_lost: bool) -> io::Result<()> {
    let y = row(bridges) + 16;
    legend_entry(rt, 12, y, 0, MANDATORY, b"required")?;
    legend_entry(rt, 136, y, 0, OPTIONAL, b"refinement")?;
    legend_entry(rt, 274, y, 0, CALL, b"call")?;
    legend_entry(rt, 12, y + 30, 0, BUSY, b"busy")?;
    legend_entry(rt, 136, y + 30, 0, 0, b"empty")?;
    if with_lost {
        legend_entry(rt, 274, y + 30, OPTIONAL, 0, b"lost")?;
    }
    Ok(())
}
