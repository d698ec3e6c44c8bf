// The limits of documents 01 and 02. Each has the name that specs/Limits.antt gives it, and no
// other line of the code says it.

// The slots of a frame; a mask has a bit for each.
pub const MOST_SLOTS: usize = 64;

// The bridges of a frame; a head has a mask for each.
pub const MOST_BRIDGES: usize = 8;

// The motors that a supply feeds.
pub const MOST_MOTORS: usize = 8;

// The presets of a head.
pub const MOST_PRESETS: usize = 32;

// The priority of a preset, 0 being the best.
pub const WORST_PRIORITY: u32 = 9;

// The required and the refinement slots of a preset.
pub const MOST_MANDATORY: u32 = 64;

pub const MOST_OPTIONAL: u32 = 64;

// The jobs of a call.
pub const MOST_JOBS: usize = 8;

// The jobs of a frame.
pub const MOST_FRAME_JOBS: usize = 64;

// The length of a job.
pub const MOST_LENGTH: u16 = 64;

// The number of a preset or job.
pub const MOST_NUMBER: u32 = 255;

// The bytes of a text.
pub const MOST_BYTES: usize = 32768;

// How long what is lent has to be: the cells of a table, the records of a preset list, the bytes of
// an output.
pub const LEAST_CELLS: usize = 512;

pub const LEAST_RECORDS: usize = 32;

pub const LEAST_OUTPUT: usize = 8192;
