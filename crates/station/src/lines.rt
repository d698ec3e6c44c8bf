// The lines of a text: "The reader hands each line over as that part of the lent text."
ghost use Rattle.std.specs.Prelude.{◌≡◌, length, drop};
ghost use Rattle.std.specs.Iterator.{YieldsFirstRef, item_count};
ghost use Rattle.station.specs.Text.{lines};
ghost use Rattle.station.specs.Line.{line_of, lines_left};

// How long the first line of a text is. It is looked for by four bytes at a time while there are as
// many: `position` alone, one byte at a time, takes half as much time again.
fn line_length(text: &[u8]) -> usize
    ensures { result ≡ length (line_of text.now) }
{
    let mut i = 0;
    while 4 <= text.len() - i {
        if text[i] == 10 {
            return i + 1;
        }
        if text[i + 1] == 10 {
            return i + 2;
        }
        if text[i + 2] == 10 {
            return i + 3;
        }
        if text[i + 3] == 10 {
            return i + 4;
        }
        i += 4;
    }
    for n in i..text.len() {
        if text[n] == 10 {
            return n + 1;
        }
    }
    text.len()
}

// The line of a text from the place `at` on: to its byte 10, included, or to the text's end. It is
// empty where `at` is at or past the end.
pub fn line_at(text: &[u8], at: usize) -> &[u8]
    ensures { result.now ≡ line_of (drop at text.now) }
{
    if text.len() <= at {
        return &text[..0];
    }
    let rest = &text[at..];
    let n = line_length(rest);
    &rest[..n]
}

// The lines of a text, one after the other: what is left of the text.
#[derive(Drop)]
pub struct Lines<'a>(&'a [u8]);

impl<'a> Lines<'a> {
    pub fn new(text: &'a [u8]) -> Lines<'a>
        ensures { lines_left result ≡ lines text.now }
    {
        Lines(text)
    }
}

impl<'a> Iterator for Lines<'a> {
    type Item = &'a [u8];

    ghost next_gives = { YieldsFirstRef lines_left };

    ghost remaining = { item_count lines_left };

    fn next(&mut self) -> Option<&'a [u8]> {
        let left = self.0;
        if left.is_empty() {
            return None;
        }
        let line = line_at(left, 0);
        self.0 = &left[line.len()..];
        Some(line)
    }
}
