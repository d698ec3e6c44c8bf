// The frame that a caller lends as sixteen numbers: its head, its clock and its order of ties out
// of them by value, and back. One is reserved: it is not read, and 0 is all that is written there.
// Past the end of the numbers zeros are read and nothing is written, so that each function takes
// every slice.
ghost use Rattle.std.specs.Prelude.{◌≡◌, [], ◌∷◌};
ghost use Rattle.std.proofs.lemmas.List.Edits.{sets};
ghost use Rattle.laws.specs.Sums.{bit};
ghost use Rattle.frame.specs.TextDone.{end_in};
ghost use Rattle.planner.specs.Layout.{head_tie, tie_in_force, says_hold, head_of_numbers, clock_of_numbers, hold_of_numbers, head_over, tie_over, clock_over, masks_over};
ghost use Rattle.planner.specs.Exports.{frame_left};

use crate::values::{set_value, value_at};
use placing::moment::Moment;
use station::limits::MOST_BRIDGES;
use station::types::{Fault, Head};

// The places of the clock, of the masks of the busy slots, of the supply, of the head's order of
// ties and of the one in force.
const CLOCK: usize = 3;

const BUSY: usize = 4;

const SUPPLY: usize = 12;

const HEAD_TIE: usize = 13;

const TIE_IN_FORCE: usize = 14;

// What a number says of the order of ties: 0 is place, any other number hold.
fn says_hold(number: u64) -> bool
    ensures { result ≡ says_hold number }
{
    0 < number
}

// The masks of the busy slots of a frame.
fn masks_of(frame: &[u64]) -> [u64; MOST_BRIDGES]
    ensures { result ≡ (head_of_numbers frame.now).busy }
{
    let mut busy = [0; MOST_BRIDGES];
    for b in 0..MOST_BRIDGES {
        busy[b] = value_at(frame, BUSY + b, 0);
    }
    busy
}

// The head of a frame.
pub(crate) fn head_of(frame: &[u64]) -> Head
    ensures { result ≡ head_of_numbers frame.now }
{
    Head {
        slots: value_at(frame, 0, 0) as usize,
        bridges: value_at(frame, 1, 0) as usize,
        supply: value_at(frame, SUPPLY, 0) as usize,
        hold: says_hold(value_at(frame, HEAD_TIE, 0)),
        busy: masks_of(frame),
        count: value_at(frame, 2, 0) as usize,
    }
}

// The clock of a frame, and its order of ties in force.
pub(crate) fn moment_of(frame: &[u64]) -> Moment
    ensures clock { result.clock ≡ clock_of_numbers frame.now }
    ensures hold { result.hold ≡ hold_of_numbers frame.now }
{
    Moment {
        clock: value_at(frame, CLOCK, 0) as usize,
        hold: says_hold(value_at(frame, TIE_IN_FORCE, 0)),
    }
}

// Writes an order of ties to a place; a number that says it already stays, so that what changes
// nothing writes nothing.
fn set_tie(frame: &mut [u64], place: usize, hold: bool)
    ensures { frame.new ≡ tie_over place hold frame.old }
{
    if says_hold(value_at(frame, place, 0)) == hold {
        return;
    }
    set_value(frame, place, u64::from(hold));
}

// Writes the order of ties in force of a frame, and nothing else.
pub(crate) fn save_tie(frame: &mut [u64], hold: bool)
    ensures { frame.new ≡ tie_over tie_in_force hold frame.old }
{
    set_tie(frame, TIE_IN_FORCE, hold);
}

// Writes the clock of a frame, and nothing else.
pub(crate) fn save_clock(frame: &mut [u64], clock: usize)
    ensures { frame.new ≡ clock_over clock frame.old }
{
    set_value(frame, CLOCK, clock as u64);
}

// Writes the masks of the busy slots to their places, and nothing else.
pub(crate) fn save_masks(frame: &mut [u64], busy: [u64; MOST_BRIDGES])
    ensures { frame.new ≡ masks_over busy frame.old }
{
    for b in 0..MOST_BRIDGES {
        set_value(frame, BUSY + b, busy[b]);
    }
}

// Writes a head, all but its order of ties, and a clock over the first thirteen numbers.
fn save_head(frame: &mut [u64], head: Head, clock: usize)
    ensures { frame.new ≡ head_over head clock frame.old }
{
    let busy = head.busy;
    set_value(frame, 0, head.slots as u64);
    set_value(frame, 1, head.bridges as u64);
    set_value(frame, 2, head.count as u64);
    set_value(frame, CLOCK, clock as u64);
    save_masks(frame, busy);
    set_value(frame, SUPPLY, head.supply as u64);
}

// Writes the two orders of ties, and 0 to the reserved place beside them.
fn save_orders(frame: &mut [u64], kept: bool, hold: bool)
    ensures { frame.new ≡ sets frame.old head_tie (bit kept ∷ bit hold ∷ 0 ∷ []) }
{
    set_value(frame, HEAD_TIE, u64::from(kept));
    set_value(frame, TIE_IN_FORCE, u64::from(hold));
    set_value(frame, 15, 0);
}

// Writes the head and the clock that a text leaves, and where it ran the order of ties in force and
// 0 to the reserved place. A refusal leaves those as they are, so that one which leaves the head
// and the clock too changes nothing.
pub(crate) fn save_run(frame: &mut [u64], ended: Result<usize, Fault>, head: Head, moment: Moment)
    ensures { frame.new ≡ frame_left (end_in ended) head moment.clock moment.hold frame.old }
{
    save_head(frame, head, moment.clock);
    match ended {
        Ok(_) => save_orders(frame, head.hold, moment.hold),
        Err(_) => set_tie(frame, HEAD_TIE, head.hold),
    }
}
