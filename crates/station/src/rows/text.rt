// Writing a head's busy times as rows, at the start of the borrowed output. The writers are total,
// as the methods of output.rt's are.
ghost use Rattle.std.specs.Prelude.{false};
ghost use Rattle.station.specs.Limits.{most_slots, most_presets};
ghost use Rattle.station.specs.Writing.{stretches};
ghost use Rattle.station.specs.Row.{row, print_row, bridge_rows, bare, rows_text};
ghost use Rattle.station.specs.RowEntries.{WroteRows};
ghost use Rattle.station.specs.Wrote.{Writes};

use crate::limits::MOST_SLOTS;
use crate::output::Writer;
use crate::types::{Refusal, Station};
use crate::write::{next_busy, next_free, write_cause};

// Writes one row, bare: `b,f,t` and CR LF.
fn bare_row(out: &mut Writer, bridge: usize, first: usize, last: usize)
    ensures { Writes out.old
        (print_row false false false (row bridge first last)) out.new }
{
    out.number(bridge);
    out.put(b',');
    out.number(first);
    out.put(b',');
    out.number(last);
    out.word(b"\r\n");
}

// Writes a row for each run of busy slots of a bridge. std has no iterator over the runs of a mask.
fn bridge_rows(out: &mut Writer, bridge: usize, mask: u64)
    ensures { Writes out.old
        (bare (bridge_rows bridge (stretches most_slots 1 mask))) out.new }
{
    let mut from = next_busy(mask, 0);
    while from < MOST_SLOTS {
        let to = next_free(mask, from);
        bare_row(out, bridge, from + 1, to);
        from = next_busy(mask, to);
    }
}

// Writes the rows of the bridges, in ascending order.
fn all_rows(out: &mut Writer, busy: &[u64])
    ensures { Writes out.old (rows_text busy.now) out.new }
{
    for (b, mask) in busy.iter().enumerate() {
        bridge_rows(out, b + 1, *mask);
    }
}

// Writes the rows of a head at the start of the output and answers their length; the bytes past
// them stay. Refused with 8 for an output below 8,192 bytes, whatever the frame, and with 2 for a
// head record that no text yields; the output then stays as it was. It stays beside `write_rows`:
// who has 32 records meets no 8 of the list.
pub fn write_rows_by_value(station: &Station, out: &mut [u8]) -> Result<usize, Refusal>
    ensures { WroteRows most_presets station.now.head station.now.presets out.old result out.new }
{
    write_cause(station, out)?;
    let mut writer = Writer::new(out, 0);
    all_rows(&mut writer, &station.head.busy);
    Ok(writer.place())
}
