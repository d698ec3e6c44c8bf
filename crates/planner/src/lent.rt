// A frame that is lent as numbers and bytes, by value.
ghost use Rattle.std.specs.Prelude.{IfSome, IfNone};
ghost use Rattle.planner.specs.Exports.{LentStation, ShortOf};

use crate::numbers::head_of;
use crate::presets::load_presets;
use crate::sizes::{FRAME_NUMBERS, PRESETS_BYTES};
use station::types::Station;

// The head and the records of a frame and of presets; None where one of them is too short.
pub(crate) fn lent_station(frame: &[u64], presets: &[u8]) -> Option<Station>
    ensures found { IfSome result (λ s. LentStation frame.now presets.now s) }
    ensures short { IfNone result (ShortOf frame.now presets.now) }
{
    if frame.len() < FRAME_NUMBERS || presets.len() < PRESETS_BYTES {
        return None;
    }
    Some(Station {
        head: head_of(frame),
        presets: load_presets(presets),
    })
}
