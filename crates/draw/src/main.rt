// The program `draw`: reads a station text from standard input and writes a picture of its frame,
// in SVG, to standard output: the frame before the last event and after it, one below the other; of
// a text without events the plan alone; of a refused text its one refused line. Each frame is an
// `svg` element of its own, with all that it needs, so that it is whole where it is cut out.
#![tactic(auto)]

mod lines; // lines.rt: the last line of a text, and the bytes of a line that are shown
mod output; // output.rt: bytes and numbers to standard output
mod layout; // layout.rt: how large a picture is, and where its parts are
mod cells; // cells.rt: one cell
mod parts; // parts.rt: the cells, slots, bridges, clock and legend of a frame
mod pictures; // pictures.rt: the pictures

use frame::event::event_by_value;
use frame::text::run_text_by_value;
use lines::{Event, last_event};
use parts::View;
use pictures::{both_frames, plan_frame, refused_text};
use placing::cells::Cell;
use placing::check::FIRST_CLOCK;
use placing::moment::Moment;
use reading::read_full;
use station::heads::read_head_by_value;
use station::types::{NO_HEAD, NO_PRESETS, Station};
use std::io;

// Draws a frame as the lines before the last event left it, with the clock and the order of ties,
// and as this event leaves it; the plan where there is none.
fn draw_frame(
    rt: &impl Print,
    station: Station,
    table: &[Cell; 512],
    moment: Moment,
    event: Option<Event>,
) -> io::Result<()> {
    let before = View {
        slots: station.head.slots,
        bridges: station.head.bridges,
        was: table,
        is: table,
        clock: moment.clock,
    };
    let Some(event) = event else {
        return plan_frame(rt, before);
    };
    let mut left = *table;
    let mut then = moment;
    let answer = event_by_value(&station, &mut left, &mut then, event.line);
    let after = View {
        is: &left,
        clock: then.clock,
        ..before
    };
    both_frames(rt, before, event, answer, after)
}

// Runs the text before its last event, and draws the frame.
fn draw_text(rt: &impl Print, text: &[u8], event: Option<Event>) -> io::Result<()> {
    let mut head = NO_HEAD;
    let mut presets = NO_PRESETS;
    let mut table = [0u16; 512];
    let mut moment = Moment {
        clock: FIRST_CLOCK,
        hold: false,
    };
    // the least output that is taken; the listing in it is not used
    let mut listing = [0u8; 8192];
    match run_text_by_value(
        text,
        &mut head,
        &mut presets,
        &mut table,
        &mut moment,
        &mut listing,
    ) {
        Ok(_) => draw_frame(rt, Station { head, presets }, &table, moment, event),
        Err(fault) => refused_text(rt, fault),
    }
}

// Draws a text. What its head is refused for, and its plan, is said in the picture.
fn draw(rt: &impl Print, text: &[u8]) -> io::Result<()> {
    let mut head = NO_HEAD;
    let mut presets = NO_PRESETS;
    match read_head_by_value(text, &mut head, &mut presets) {
        Ok(read) => {
            let (before, event) = last_event(text, read.bytes);
            draw_text(rt, before, event)
        }
        Err(fault) => refused_text(rt, fault),
    }
}

fn main(rt: HostRuntime) -> io::Result<()> {
    // one byte more than a text may have, so that a longer one is seen to be too long
    let mut input = [0u8; 32769];
    let n = read_full(&mut rt.stdin(), &mut input)?;
    let text = &input[0..n];
    draw(&rt, text)
}
