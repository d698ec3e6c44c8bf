// Lists of numbers that a caller lends: past their end a default is read and nothing is written, so
// that each function takes every slice.
ghost use Rattle.std.specs.Prelude.{◌≡◌, get_or, set};

// The value at a place; past the end the one that is given.
pub(crate) fn value_at<T: Copy>(values: &[T], i: usize, past: T) -> T
    ensures { result ≡ get_or values.now i past }
{
    values.get(i).copied().unwrap_or(past)
}

// Replaces the value at a place; past the end nothing changes.
pub(crate) fn set_value<T: Copy>(values: &mut [T], i: usize, given: T)
    ensures { values.new ≡ set values.old i given }
{
    if i < values.len() {
        values[i] = given;
    }
}
