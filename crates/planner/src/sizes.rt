// How long what a caller lends has to be, counted in its elements, where document 01 says it in
// others.
use station::limits::LEAST_RECORDS;

// The numbers of a frame.
pub const FRAME_NUMBERS: usize = 16;

// The bytes of the preset records, four a record.
pub const PRESETS_BYTES: usize = 4 * LEAST_RECORDS;
