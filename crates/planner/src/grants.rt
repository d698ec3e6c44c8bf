// The grants of a plan, written to bytes that a caller lends.
ghost use Rattle.std.specs.Prelude.{◌≡◌};
ghost use Rattle.std.proofs.lemmas.List.Edits.{sets};

use crate::values::set_value;
use station::limits::MOST_PRESETS;

// Writes 32 grants over the first 32 bytes, as far as there are so many.
pub(crate) fn save_grants(grants: &mut [u8], granted: [u8; MOST_PRESETS])
    ensures { grants.new ≡ sets grants.old 0 granted }
{
    for i in 0..MOST_PRESETS {
        set_value(grants, i, granted[i]);
    }
}
