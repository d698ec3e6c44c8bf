// Writing bytes into a borrowed output: a byte, a text, a number.
//
// A `Writer` is an output and the place of the next byte. Its methods are total: bytes past the end
// of the output are left out, and the place then stays at the end. So no writer that another crate
// calls asks for room; an entry that promises a whole text shows that it has it.
//
// The functions below it store: they take the output and a place, and answer the next place. As
// methods, which keep the place behind a reference, they were tried, and slower: a listing takes a
// tenth longer.
//
// Nearly always the output goes on past what is written. So the writers of a text and of numbers
// test once whether it does, and then store with no further test; near the end of the output they
// go byte by byte. The place is on the one side of that test alone: the other, the length less what
// is written, a compiler finds once for a whole loop.
ghost use Rattle.std.specs.Prelude.{◌+◌, ◌-◌, ◌/◌, ◌%◌, ◌≡◌, ◌≤◌, ◌<◌, [], ◌∷◌, length};
ghost use Rattle.station.specs.Text.{bytes, ◌then◌};
ghost use Rattle.station.specs.Decimal.{digits};
ghost use Rattle.station.specs.Wrote.{Wrote, Writes};

// An output, and the place in it of the next byte.
#[derive(Drop)]
pub struct Writer<'a> {
    out: &'a mut [u8],
    at: usize,
}

impl<'a> Writer<'a> {
    // A writer into an output, from a place on.
    pub fn new(out: &'a mut [u8], at: usize) -> Writer<'a>
        ensures same { result.out.ghost_name ≡ out.entry.ghost_name }
        ensures bytes { result.out.now ≡ out.old }
        ensures place { result.at ≡ at }
    {
        Writer { out, at }
    }

    // The place of the next byte.
    pub fn place(&self) -> usize
        ensures { result ≡ self.now.at }
    {
        self.at
    }

    // Writes one byte.
    pub fn put(&mut self, byte: u8)
        ensures { Writes self.old (byte ∷ []) self.new }
    {
        let out = &mut *self.out;
        self.at = put(out, self.at, byte);
    }

    // Writes the bytes of a text.
    pub fn word(&mut self, text: &[u8])
        ensures { Writes self.old text.now self.new }
    {
        let out = &mut *self.out;
        self.at = word(out, self.at, text);
    }

    // Writes a number in decimals.
    pub fn number(&mut self, n: usize)
        ensures { Writes self.old (digits n) self.new }
    {
        let out = &mut *self.out;
        self.at = number(out, self.at, n);
    }

    // Writes two numbers with a blank between them.
    pub fn two_numbers(&mut self, m: usize, n: usize)
        ensures { Writes self.old (digits m then bytes " " then digits n) self.new }
    {
        let out = &mut *self.out;
        self.at = two_numbers(out, self.at, m, n);
    }

    // Writes two numbers with a blank between them and the end of their line.
    pub fn numbers_end(&mut self, m: usize, n: usize)
        ensures { Writes self.old (digits m then bytes " " then digits n then bytes ")\n") self.new }
    {
        let out = &mut *self.out;
        self.at = numbers_end(out, self.at, m, n);
    }

    // Writes a blank, a letter and a number.
    pub fn lettered(&mut self, letter: u8, n: u8)
        ensures { Writes self.old (bytes " " then (letter ∷ []) then digits n) self.new }
    {
        let out = &mut *self.out;
        self.at = lettered(out, self.at, letter, n);
    }
}

// Writes one byte at a place. Answers the next place, or the same one where the output has ended
// and nothing is written. The test stands in place of `get_mut`: std does not say what output that
// leaves, so a proof does not close.
fn put(out: &mut [u8], at: usize, byte: u8) -> usize
    ensures { Wrote out.old at (byte ∷ []) out.new result }
{
    if at < out.len() {
        out[at] = byte;
        at + 1
    } else {
        at
    }
}

// Writes the bytes of a text at a place, each where the output still has a byte for it. Answers the
// next place.
fn word_by_bytes(out: &mut [u8], at: usize, text: &[u8]) -> usize
    ensures { Wrote out.old at text.now out.new result }
{
    let mut position = at;
    for byte in text {
        position = put(out, position, *byte);
    }
    position
}

// Writes the bytes of a text at a place. Answers the next place. Small enough for a compiler to put
// in its caller's place, where a text that is known becomes one or two stores; by `copy_from_slice`
// a line of three such texts takes half as long again.
fn word(out: &mut [u8], at: usize, text: &[u8]) -> usize
    ensures { Wrote out.old at text.now out.new result }
{
    if out.len().saturating_sub(text.len()) <= at {
        return word_by_bytes(out, at, text);
    }
    for (i, byte) in text.iter().enumerate() {
        out[at + i] = *byte;
    }
    at + text.len()
}

// Writes the two digits of a number below 100, a leading zero too, where the output has room for
// them. Answers the next place.
fn two_digits(out: &mut [u8], at: usize, n: usize) -> usize
    requires { (n < 100) × (at + 2 ≤ length out.old) }
    ensures { Wrote out.old at ((48 + n / 10) ∷ (48 + n % 10) ∷ [])
        out.new result }
{
    out[at] = b'0' + (n / 10) as u8;
    out[at + 1] = b'0' + (n % 10) as u8;
    at + 2
}

// Writes a number of any length in decimals: the digits before the last one, and the last. Answers
// the next place.
fn long_number(out: &mut [u8], at: usize, n: usize) -> usize
    ensures { Wrote out.old at (digits n) out.new result }
{
    if n < 10 {
        return put(out, at, b'0' + n as u8);
    }
    let last = long_number(out, at, n / 10);
    put(out, last, b'0' + (n % 10) as u8)
}

// Writes a number where the output has room for four digits: up to four are stored two at a time,
// without a call for each. Answers the next place.
fn number_within(out: &mut [u8], at: usize, n: usize) -> usize
    requires { at + 4 ≤ length out.old }
    ensures { Wrote out.old at (digits n) out.new result }
{
    if n < 10 {
        out[at] = b'0' + n as u8;
        return at + 1;
    }
    if n < 100 {
        return two_digits(out, at, n);
    }
    if 9999 < n {
        return long_number(out, at, n);
    }
    let last = n % 100;
    if n < 1000 {
        out[at] = b'0' + (n / 100) as u8;
        return two_digits(out, at + 1, last);
    }
    let next = two_digits(out, at, n / 100);
    two_digits(out, next, last)
}

// Writes a number in decimals. Answers the next place.
fn number(out: &mut [u8], at: usize, n: usize) -> usize
    ensures { Wrote out.old at (digits n) out.new result }
{
    if out.len().saturating_sub(4) <= at {
        return long_number(out, at, n);
    }
    number_within(out, at, n)
}

// Writes two numbers with a blank between them. Answers the next place.
fn two_numbers(out: &mut [u8], at: usize, m: usize, n: usize) -> usize
    ensures { Wrote out.old at (digits m then bytes " " then digits n)
        out.new result }
{
    let blank = number(out, at, m);
    let second = put(out, blank, b' ');
    number(out, second, n)
}

// Writes two numbers with a blank between them and the end of their line: 43 bytes at the most,
// since no number has more than twenty digits. Answers the next place.
#[tactic(auto, using(crate::proofs::output::TwoDigits::after_number))]
fn numbers_end(out: &mut [u8], at: usize, m: usize, n: usize) -> usize
    ensures { Wrote out.old at
        (digits m then bytes " " then digits n then bytes ")\n") out.new result }
{
    if out.len().saturating_sub(43) <= at {
        let last = two_numbers(out, at, m, n);
        return word(out, last, b")\n");
    }
    let blank = number_within(out, at, m);
    out[blank] = b' ';
    let end = number_within(out, blank + 1, n);
    out[end] = b')';
    out[end + 1] = b'\n';
    end + 2
}

// Writes a blank, a letter and a number. Answers the next place.
fn lettered(out: &mut [u8], at: usize, letter: u8, n: u8) -> usize
    ensures { Wrote out.old at (bytes " " then (letter ∷ []) then digits n)
        out.new result }
{
    let n = usize::from(n);
    if at < out.len().saturating_sub(6) {
        out[at] = b' ';
        out[at + 1] = letter;
        return number_within(out, at + 2, n);
    }
    let first = put(out, at, b' ');
    let next = put(out, first, letter);
    number(out, next, n)
}
