// One cell, 44 pixels wide and 32 high: its kind's colour, its kind's hatching, which shows where
// there are no colours, and its letter and number.
ghost use Rattle.std.specs.Prelude.{◌≡◌, not, ◌&&◌, ◌<◌};
ghost use Rattle.placing.specs.Table.{is_optional};

use crate::output::{around, number, put};
use placing::cells::{Cell, Kind, is_optional, number_in};
use std::io;

// Whether a cell is lost: it was optional and is so no more.
fn is_lost(was: Cell, cell: Cell) -> bool
    ensures { result ≡ (is_optional was && not (is_optional cell)) }
{
    is_optional(was) && !is_optional(cell)
}

// The colour of a kind: red, green and blue, a byte each. What is of no kind is drawn as a call's.
fn colour(kind: Kind) -> u64
    ensures { result < 16777216 }
{
    match kind {
        Kind::Empty => 0xffffff,
        Kind::Busy => 0xb8b8b8,
        Kind::Mandatory => 0xc6e0f9,
        Kind::Optional => 0xfff6c4,
        Kind::Call | Kind::Other => 0xffdcb8,
    }
}

// Writes a rectangle's fill, and its end.
fn fill(rt: &impl Print, kind: Kind) -> io::Result<()> {
    put(rt, b"\" fill=\"#")?;
    print!(rt; "{:06x}", colour(kind))?;
    put(rt, b"\"/>")
}

// Writes the hatching of a kind: of mandatory cells a thick border inside, of optional ones slanted
// lines, of a call's level lines; of busy and empty ones none.
fn hatching(rt: &impl Print, kind: Kind) -> io::Result<()> {
    match kind {
        Kind::Empty | Kind::Busy => Ok(()),
        Kind::Mandatory => put(
            rt,
            b"<path d=\"M3 3h38v26h-38z\" fill=\"none\" stroke=\"#1d4f91\" stroke-width=\"3\"/>",
        ),
        Kind::Optional => put(
            rt,
            b"<path d=\"M0 8l8-8M0 16l16-16M0 24l24-24M0 32l32-32M8 32l32-32M16 32l28-28M24 32l20-20M32 32l12-12M40 32l4-4\" stroke=\"#8f6b00\"/>",
        ),
        Kind::Call | Kind::Other => put(
            rt,
            b"<path d=\"M0 4h44M0 8h44M0 12h44M0 16h44M0 20h44M0 24h44M0 28h44\" stroke=\"#b04a00\"/>",
        ),
    }
}

// Writes a cell's number, unless it is 0, which no preset and no job has.
fn number_of(rt: &impl Print, cell: Cell) -> io::Result<()> {
    let n = number_in(cell);
    if n != 0 {
        number(rt, n)?;
    }
    Ok(())
}

// Writes what stands in a cell: `-` where it is busy, else the kind's letter and the number;
// nothing where it is empty.
fn label(rt: &impl Print, cell: Cell) -> io::Result<()> {
    match Kind::of(cell) {
        Kind::Empty => {}
        Kind::Busy => put(rt, b"<tspan font-weight=\"bold\">-</tspan>")?,
        Kind::Mandatory => put(rt, b"m")?,
        Kind::Optional => put(rt, b"o")?,
        Kind::Call | Kind::Other => put(rt, b"c")?,
    }
    number_of(rt, cell)
}

// Writes a cell's label, on a plate of the kind's colour with this upper edge; the label stands on
// the line `base`.
fn labelled(rt: &impl Print, cell: Cell, plate: usize, base: usize) -> io::Result<()> {
    let kind = Kind::of(cell);
    if kind == Kind::Empty {
        return Ok(());
    }
    around(
        rt,
        b"<rect x=\"6\" y=\"",
        plate,
        b"\" width=\"32\" height=\"16",
    )?;
    fill(rt, kind)?;
    around(rt, b"<text x=\"22\" y=\"", base, b"\">")?;
    label(rt, cell)?;
    put(rt, b"</text>")
}

// Writes the mark of a lost cell: a broken border, and in a corner what stood there, struck out.
fn lost_mark(rt: &impl Print, was: Cell) -> io::Result<()> {
    put(
        rt,
        b"<path d=\"M2 2h40v28h-40z\" fill=\"none\" stroke=\"#000\" stroke-width=\"3\" stroke-dasharray=\"6 3\"/>",
    )?;
    put(
        rt,
        b"<path d=\"M15 0h29v13h-29z\" fill=\"#fff\" stroke=\"#000\"/>",
    )?;
    put(rt, b"<text x=\"29.5\" y=\"10\" font-size=\"10\">")?;
    label(rt, was)?;
    put(rt, b"</text><path d=\"M17 6.5h25\" stroke=\"#000\"/>")
}

// Writes a cell with its upper left corner at the origin, marked where it is lost, by what it was
// before.
pub fn cell_at_origin(rt: &impl Print, was: Cell, cell: Cell) -> io::Result<()> {
    let kind = Kind::of(cell);
    put(rt, b"<rect width=\"44\" height=\"32")?;
    fill(rt, kind)?;
    hatching(rt, kind)?;
    if is_lost(was, cell) {
        labelled(rt, cell, 13, 25)?;
        lost_mark(rt, was)?;
    } else {
        labelled(rt, cell, 8, 20)?;
    }
    put(
        rt,
        b"<path d=\"M0 0h44v32h-44z\" fill=\"none\" stroke=\"#222\"/>",
    )
}
