// The preset records of a borrowed list by value, and back: for a caller with a list of any length.
// The entries read and write the first 32 where they stand, and refuse a shorter list.
ghost use Rattle.std.specs.Prelude.{◌≡◌, length};
ghost use Rattle.station.specs.Records.{loaded, saved};

use crate::limits::MOST_PRESETS;
use crate::types::{NO_PRESETS, Preset};

// How many records the list has.
pub fn record_count(presets: &[Preset]) -> usize
    ensures { result ≡ length presets.now }
{
    presets.len()
}

// The first 32 records by value; zeros where there are fewer.
pub fn load(presets: &[Preset]) -> [Preset; MOST_PRESETS]
    ensures { result ≡ loaded presets.now }
{
    let mut copied = NO_PRESETS;
    let n = presets.len().min(MOST_PRESETS);
    copied[..n].copy_from_slice(&presets[..n]);
    copied
}

// The first n records of the copied go back to the front of the list, as far as both have them;
// every other record stays.
pub fn save(presets: &mut [Preset], copied: [Preset; MOST_PRESETS], n: usize)
    ensures { presets.new ≡ saved presets.old copied n }
{
    let count = n.min(MOST_PRESETS).min(presets.len());
    presets[..count].copy_from_slice(&copied[..count]);
}
