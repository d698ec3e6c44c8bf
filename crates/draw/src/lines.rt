// The last line of a text, and the bytes of a line that a picture shows.
ghost use Rattle.std.specs.Prelude.{◌≤◌, ◌≡◌, ◌++◌, length};
ghost use Rattle.draw.specs.Lines.{event_line};

// The end of a line.
const END: u8 = b'\n';

// How many bytes of a line are shown at the most. No line of a good event has more.
const SHOWN: usize = 80;

// An event of a text: its line, and the line's number, counted from 1.
#[derive(Clone, Copy, Debug, PartialEq, Eq, Hash)]
pub struct Event<'a> {
    pub line: &'a [u8],
    pub number: usize,
}

// Where the last line of a text begins, with its end or without, and its number.
fn last_line(text: &[u8]) -> (usize, usize)
    ensures { result.0 ≤ length text.now }
{
    // the last byte ends the last line and begins none
    let inner = &text[..text.len().saturating_sub(1)];
    let start = inner.iter().rposition(|&b| b == END).map_or(0, |i| i + 1);
    let ends = inner.iter().filter(|&&b| b == END).count();
    (start, ends + 1)
}

// A text whose head has so many bytes, before its last event, and that event; the whole text where
// it has none.
pub fn last_event(text: &[u8], head_bytes: usize) -> (&[u8], Option<Event<'_>>)
    ensures { text.now ≡ result.0.now ++ event_line result.1 }
{
    if text.len() <= head_bytes {
        return (text, None);
    }
    let (start, number) = last_line(text);
    let (before, line) = text.split_at(start);
    (before, Some(Event { line, number }))
}

// How many bytes a line has before its end.
pub fn content(line: &[u8]) -> usize
    ensures { result ≤ length line.now }
{
    match line.split_last() {
        Some((&END, before)) => before.len(),
        _ => line.len(),
    }
}

// How many bytes of a line are shown: those before its end, and not more than 80.
pub fn shown(line: &[u8]) -> usize
    ensures { (result ≤ length line.now) × (result ≤ 80) }
{
    content(line).min(SHOWN)
}

// A byte as it is shown in a picture: a question mark for whatever is no printed character of
// ASCII, and for the three that have a meaning in SVG.
pub fn plain(byte: u8) -> u8
    ensures { (32 ≤ result) × (result ≤ 126) }
{
    match byte {
        b'&' | b'<' | b'>' => b'?',
        b' '..=b'~' => byte,
        _ => b'?',
    }
}
