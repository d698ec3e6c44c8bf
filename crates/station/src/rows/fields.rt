// One row of comma-separated text: three fields, each a number, bare or in quotes.
ghost use Rattle.std.specs.Prelude.{◌≡◌};
ghost use Rattle.station.specs.method.RowFields.{field_at, field_then, fields_at};

use crate::numbers::{Numeral, number_at, number_then, starts_at, word_at};

// The numbers of a row as they are read, and the place after it.
#[derive(Clone, Copy, Debug, PartialEq, Eq, Hash)]
pub(crate) struct Fields {
    pub bridge: u32,
    pub first: u32,
    pub last: u32,
    pub next: usize,
}

// The field at `at`: a number, bare or in quotes, and the place after it.
fn field_at(text: &[u8], at: usize) -> Option<Numeral>
    ensures { result ≡ field_at text.now at }
{
    if starts_at(text, at, b"\"") {
        return number_then(text, at + 1, b"\"");
    }
    number_at(text, at)
}

// The field at `at` with a comma after it, and the place after the comma.
#[tactic(auto, unfolding(crate::specs::Text::bytes))]
fn field_then(text: &[u8], at: usize) -> Option<Numeral>
    ensures { result ≡ field_then text.now at }
{
    let field = field_at(text, at)?;
    let next = word_at(text, field.next, b",")?;
    Some(Numeral {
        value: field.value,
        next,
    })
}

// The row at `at`, its CR LF included, and the place after it, if the line has a row's form.
pub(crate) fn row_at(text: &[u8], at: usize) -> Option<Fields>
    ensures { result ≡ fields_at text.now at }
{
    let bridge = field_then(text, at)?;
    let first = field_then(text, bridge.next)?;
    let last = field_at(text, first.next)?;
    let next = word_at(text, last.next, b"\r\n")?;
    Some(Fields {
        bridge: bridge.value,
        first: first.value,
        last: last.value,
        next,
    })
}
