// The pictures: the plan alone, the frame before and after an event, and a refused text.
use crate::layout::{height, width};
use crate::lines::Event;
use crate::output::{around, put, shown_line};
use crate::parts::{View, bridge_labels, clock_mark, legend, slots_and_cells};
use frame::types::Answer;
use station::types::{Fault, Refusal};
use std::io;

// Writes the rest of an `svg` element's start: its size.
fn sized(rt: &impl Print, w: usize, h: usize) -> io::Result<()> {
    around(rt, b" width=\"", w, b"\"")?;
    around(rt, b" height=\"", h, b"\" viewBox=\"0 0 ")?;
    around(rt, b"", w, b" ")?;
    around(rt, b"", h, b"\"")
}

// Writes the start of the whole picture.
fn begin(rt: &impl Print, w: usize, h: usize) -> io::Result<()> {
    put(rt, b"<svg xmlns=\"http://www.w3.org/2000/svg\"")?;
    sized(rt, w, h)?;
    put(rt, b">\n")
}

// Writes the start of the picture of one frame, `y` below the top.
fn begin_frame(rt: &impl Print, name: &[u8], y: usize, w: usize, h: usize) -> io::Result<()> {
    put(rt, b"<svg xmlns=\"http://www.w3.org/2000/svg\" id=\"")?;
    put(rt, name)?;
    around(rt, b"\" y=\"", y, b"\"")?;
    sized(rt, w, h)?;
    put(
        rt,
        b" font-family=\"Helvetica, Arial, sans-serif\" font-size=\"12\">\n",
    )?;
    put(
        rt,
        b"<rect width=\"100%\" height=\"100%\" fill=\"#fff\"/>\n",
    )?;
    put(
        rt,
        b"<text x=\"12\" y=\"22\" font-size=\"14\"><tspan font-weight=\"bold\">",
    )?;
    put(rt, name)?;
    put(rt, b"</tspan>")
}

// Writes what an event comes to, behind its line. An accepted clock or order of ties is that line.
fn outcome(rt: &impl Print, answer: Result<Answer, Refusal>, n: usize) -> io::Result<()> {
    match answer {
        Ok(Answer::Now(_) | Answer::Tie(_)) => Ok(()),
        Ok(Answer::Taken(lost)) => around(rt, b": ", lost, b" lost"),
        Err(cause) => {
            let fault = cause.at(n);
            put(rt, b": <tspan font-family=\"monospace\" font-size=\"12\">")?;
            print!(rt; "{fault}")?;
            put(rt, b"</tspan>")
        }
    }
}

// Writes the event in a caption.
fn event_caption(rt: &impl Print, event: &[u8]) -> io::Result<()> {
    put(rt, b" <tspan font-family=\"monospace\" font-size=\"12\">")?;
    shown_line(rt, event)?;
    put(rt, b"</tspan>")
}

// Writes the rest of a frame's picture, after its caption.
fn frame(rt: &impl Print, view: View, with_lost: bool) -> io::Result<()> {
    put(
        rt,
        b"</text>\n<text x=\"68\" y=\"62\" text-anchor=\"end\">slot</text>\n",
    )?;
    put(rt, b"<g text-anchor=\"end\">\n")?;
    bridge_labels(rt, view.bridges)?;
    put(rt, b"</g>\n<g text-anchor=\"middle\">\n")?;
    slots_and_cells(rt, view)?;
    put(rt, b"</g>\n")?;
    clock_mark(rt, view)?;
    legend(rt, view.bridges, with_lost)?;
    put(rt, b"</svg>\n")
}

// Writes the picture of a plan.
pub fn plan_frame(rt: &impl Print, view: View) -> io::Result<()> {
    let w = width(view.slots, b"");
    let h = height(view.bridges);
    begin(rt, w, h)?;
    begin_frame(rt, b"plan", 0, w, h)?;
    frame(rt, view, false)?;
    put(rt, b"</svg>\n")
}

// Writes the picture of a frame before an event and after it.
pub fn both_frames(
    rt: &impl Print,
    before: View,
    event: Event,
    answer: Result<Answer, Refusal>,
    after: View,
) -> io::Result<()> {
    let w = width(before.slots, event.line);
    let h = height(before.bridges);
    begin(rt, w, 2 * h)?;
    begin_frame(rt, b"before", 0, w, h)?;
    event_caption(rt, event.line)?;
    frame(rt, before, false)?;
    begin_frame(rt, b"after", h, w, h)?;
    event_caption(rt, event.line)?;
    outcome(rt, answer, event.number)?;
    frame(rt, after, true)?;
    put(rt, b"</svg>\n")
}

// Writes the picture of a refused text: its one refused line.
pub fn refused_text(rt: &impl Print, fault: Fault) -> io::Result<()> {
    begin(rt, 380, 64)?;
    put(
        rt,
        b"<rect width=\"100%\" height=\"100%\" fill=\"#fff\"/>\n",
    )?;
    put(
        rt,
        b"<text x=\"12\" y=\"38\" font-family=\"monospace\" font-size=\"16\">",
    )?;
    print!(rt; "{fault}")?;
    put(rt, b"</text>\n</svg>\n")
}
