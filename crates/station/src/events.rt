// Event lines: a clock, a call, a tie, or what is wrong with the line itself.
ghost use Rattle.std.specs.Prelude.{◌≡◌};
ghost use Rattle.station.specs.Form.{form};
ghost use Rattle.station.specs.Event.{call_event, line_event, event_in};

use crate::brackets::{Jobs, jobs_at};
use crate::forms::{Line, read_line};
use crate::limits::{MOST_JOBS, MOST_SLOTS};
use crate::numbers::word_at;
use crate::types::{Call, Refusal};

// What an event line asks: to set the clock, to place the jobs of a call, or to change the order of
// ties.
#[derive(Clone, Copy, Debug, PartialEq, Eq, Hash)]
pub enum Event {
    Clock(u32),
    Call(Call),
    Tie(bool),
}

// A call whose jobs were read: out of limits with a ninth job, or a job that is.
fn call_event(list: Jobs) -> Result<Event, Refusal>
    ensures { result ≡ call_event list }
{
    if MOST_JOBS < list.count || !list.fit {
        return Err(Refusal::OutOfLimits);
    }
    let jobs = list.jobs;
    let count = list.count;
    Ok(Event::Call(Call { jobs, count }))
}

// The event of a line that has a form: a head's line is out of its place.
fn line_event(said: Line) -> Result<Event, Refusal>
    ensures { result ≡ line_event said }
{
    match said {
        Line::Clock(t) => Ok(Event::Clock(t)),
        Line::Call(list) => call_event(list),
        Line::Tie(hold) => Ok(Event::Tie(hold)),
        _ => Err(Refusal::OutOfPlace),
    }
}

// The event of a line, byte 10 included: a clock, a call with its jobs, a tie; or the refusal that
// it meets by itself, whatever the table and the clock are. No form is `NoForm`, a head's line
// `OutOfPlace`, a call of too many jobs, or with a number or length outside its limits,
// `OutOfLimits`. Most events are calls, which their first word tells.
pub fn read_event(line: &[u8]) -> Result<Event, Refusal>
    ensures { result ≡ event_in (form line.now) }
{
    if let Some(at) = word_at(line, 0, b"(call ") {
        let list = jobs_at(line, at).ok_or(Refusal::NoForm)?;
        return call_event(list);
    }
    let said = read_line(line, MOST_SLOTS).ok_or(Refusal::NoForm)?;
    line_event(said)
}
