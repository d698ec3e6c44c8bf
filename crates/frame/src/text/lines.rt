// The lines of a text, or those after its head: each is one event, and has one line of answer.
ghost use Rattle.station.specs.Types.{station_in};
ghost use Rattle.placing.specs.State.{state_at};
ghost use Rattle.frame.specs.method.TextLines.{LinesStart, RanLines};

use crate::event::asked::event_by_counts;
use crate::listing::bytes::answer_line;
use placing::cells::Cell;
use placing::counts::Counts;
use placing::moment::Moment;
use station::lines::Lines;
use station::output::Writer;
use station::types::{Extent, Station};

// Runs the lines of a text, so much of it having gone before: each is an event on what the last one
// left, and its answer is written at once. The frame meets none of its own causes at the start and
// so at no line: they are not tried again. What a call's causes are decided by is counted once, and
// each event brings it up to what it leaves.
pub(crate) fn run_lines(
    text: &[u8],
    gone: Extent,
    station: &Station,
    table: &mut [Cell],
    moment: &mut Moment,
    out: &mut Writer,
)
    requires { LinesStart station.now.head station.now.presets text.now gone.bytes gone.lines (state_at table.old moment.old) }
    ensures { RanLines (station_in station.now) text.now gone.bytes gone.lines (state_at table.old moment.old) out.old table.new moment.new out.new }
{
    let mut n = gone.lines;
    let mut counts = Counts::of(station, table, moment.clock);
    for line in Lines::new(&text[gone.bytes..]) {
        let answer = event_by_counts(station, table, moment, &mut counts, line);
        n += 1;
        answer_line(out, n, answer);
    }
}
