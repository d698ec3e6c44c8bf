// What a cell of the table is in code: kind × 256 + number. The kinds are 0 empty, 1 busy, both
// with number 0, 2 mandatory, 3 optional, 4 call.
ghost use Rattle.std.specs.Prelude.{◌<◌, ◌≡◌};
ghost use Rattle.placing.specs.Types.{kind_in};
ghost use Rattle.placing.specs.Table.{kind_of, number_in, is_optional, is_call, is_held};
ghost use Rattle.placing.specs.method.Counts.{evictable_cell};

// A cell of the table: its kind times 256, and the number of the preset or job that has it. It
// stays a number and is no enum: the C interface lends tables as numbers.
pub type Cell = u16;

// The busy cell, the first cell of each kind that has numbers, and the first value past the last
// kind.
pub const BUSY: Cell = 256;

pub const MANDATORY: Cell = 512;

pub const OPTIONAL: Cell = 768;

pub const CALL: Cell = 1024;

pub const VALUES: Cell = 1280;

// The numbers of the kinds that are not empty, as `kind_of` answers them.
pub const BUSY_KIND: u16 = 1;

pub const MANDATORY_KIND: u16 = 2;

pub const OPTIONAL_KIND: u16 = 3;

pub const CALL_KIND: u16 = 4;

// What a cell holds, in the order of the kinds' numbers. A value past the last kind is of none of
// them: no well-formed table has one.
#[derive(Clone, Copy, Debug, PartialEq, Eq, Hash)]
pub enum Kind {
    Empty,
    Busy,
    Mandatory,
    Optional,
    Call,
    Other,
}

impl Kind {
    // The kind of a cell.
    pub fn of(v: Cell) -> Kind
        ensures { result ≡ kind_in (kind_of v) }
    {
        match kind_of(v) {
            0 => Kind::Empty,
            BUSY_KIND => Kind::Busy,
            MANDATORY_KIND => Kind::Mandatory,
            OPTIONAL_KIND => Kind::Optional,
            CALL_KIND => Kind::Call,
            _ => Kind::Other,
        }
    }
}

// The number of a cell's kind. It stays beside `Kind::of`, since it says the number of a value past
// the last kind too.
pub fn kind_of(v: Cell) -> u16
    ensures { result ≡ kind_of v }
{
    v / 256
}

// The number of a cell, as an index.
pub fn number_in(v: Cell) -> usize
    ensures { (result ≡ number_in v) × (result < 256) }
{
    usize::from(v % 256)
}

// Whether a cell is an optional one.
pub fn is_optional(v: Cell) -> bool
    ensures { result ≡ is_optional v }
{
    Kind::of(v) == Kind::Optional
}

// Whether a call may evict a cell.
pub(crate) fn is_evictable(v: Cell) -> bool
    ensures { result ≡ evictable_cell v }
{
    is_optional(v)
}

// Whether a preset or a call holds a cell.
pub(crate) fn is_held(v: Cell) -> bool
    ensures { result ≡ is_held v }
{
    (MANDATORY..VALUES).contains(&v)
}

// Whether a cell is a call's.
pub fn is_call(v: Cell) -> bool
    ensures { result ≡ is_call v }
{
    Kind::of(v) == Kind::Call
}
