// The preset records that a caller lends as bytes, four bytes a record: out of them by value, and
// back. Past the end of the bytes zeros are read and nothing is written, so that each function
// takes every slice.
ghost use Rattle.std.specs.Prelude.{◌≡◌, [], ◌∷◌, ◌*◌, ◌<◌};
ghost use Rattle.std.proofs.lemmas.List.Edits.{sets};
ghost use Rattle.station.specs.Limits.{most_presets};
ghost use Rattle.planner.specs.Layout.{record_at, records_in, bytes_of, bytes_over};

use crate::values::{set_value, value_at};
use station::limits::MOST_PRESETS;
use station::types::{NO_PRESETS, Preset};

// The record at a place.
fn preset_at(presets: &[u8], i: usize) -> Preset
    requires { i < most_presets }
    ensures { result ≡ record_at presets.now i }
{
    let at = 4 * i;
    Preset {
        number: value_at(presets, at, 0),
        priority: value_at(presets, at + 1, 0),
        mandatory: value_at(presets, at + 2, 0),
        optional: value_at(presets, at + 3, 0),
    }
}

// The 32 records of the first 128 bytes.
pub(crate) fn load_presets(presets: &[u8]) -> [Preset; MOST_PRESETS]
    ensures { result ≡ records_in presets.now }
{
    let mut copied = NO_PRESETS;
    for i in 0..MOST_PRESETS {
        copied[i] = preset_at(presets, i);
    }
    copied
}

// Writes one record to its place.
fn set_preset(presets: &mut [u8], i: usize, given: Preset)
    requires { i < most_presets }
    ensures { presets.new ≡ sets presets.old (4 * i) (bytes_of (given ∷ [])) }
{
    let at = 4 * i;
    set_value(presets, at, given.number);
    set_value(presets, at + 1, given.priority);
    set_value(presets, at + 2, given.mandatory);
    set_value(presets, at + 3, given.optional);
}

// Writes 32 records over the first 128 bytes.
pub(crate) fn save_presets(presets: &mut [u8], copied: [Preset; MOST_PRESETS])
    ensures { presets.new ≡ bytes_over copied presets.old }
{
    for i in 0..MOST_PRESETS {
        set_preset(presets, i, copied[i]);
    }
}
