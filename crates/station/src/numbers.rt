// Words and numbers at a place of a text. Each is total in the text and the place: past the end
// nothing is found.
ghost use Rattle.std.specs.Prelude.{◌≡◌, ◌+◌, ◌-◌, ◌*◌, ◌≤◌, drop};
ghost use Rattle.station.specs.Form.{starts};
ghost use Rattle.station.specs.method.Numeral.{leads, word_at, closes, numeral_at, numeral_then, numeral_last};
ghost use Rattle.station.specs.Jobs.{seen};

// A number at a place: its value, which stops at 65,535, and the place after it.
#[derive(Clone, Copy, Debug, PartialEq, Eq, Hash)]
pub struct Numeral {
    pub value: u32,
    pub next: usize,
}

// Whether `word` stands at `at`. It is compared by a loop: `starts_with`, and an `all` over `zip`,
// take nearly twice the time.
pub(crate) fn starts_at(text: &[u8], at: usize, word: &[u8]) -> bool
    ensures { result ≡ starts word.now (drop at text.now) }
{
    if text.len() < at {
        return word.is_empty();
    }
    let rest = &text[at..];
    if rest.len() < word.len() {
        return false;
    }
    for i in 0..word.len() {
        if word[i] != rest[i] {
            return false;
        }
    }
    true
}

// The place after `word`, if it stands at `at`.
pub(crate) fn word_at(text: &[u8], at: usize, word: &[u8]) -> Option<usize>
    ensures { result ≡ word_at word.now text.now at }
{
    if starts_at(text, at, word) {
        Some(at + word.len())
    } else {
        None
    }
}

// Whether `word` stands at `at` and ends the text.
pub(crate) fn closes_at(text: &[u8], at: usize, word: &[u8]) -> bool
    ensures { result ≡ closes word.now text.now at }
{
    text.len().saturating_sub(at) <= word.len() && starts_at(text, at, word)
}

// Whether a digit stands at `at`.
fn digit_at(text: &[u8], at: usize) -> bool
    ensures { result ≡ leads (drop at text.now) }
{
    text.get(at).is_some_and(|b| b.is_ascii_digit())
}

// A number with one more digit.
fn with_digit(v: u32, b: u8) -> u32
    requires { (v ≤ 65535) × (48 ≤ b) }
    ensures { result ≡ seen (v * 10 + (b - 48)) }
{
    (v * 10 + (u32::from(b) - 48)).min(65535)
}

// The number at `at`: there is none where no digit stands there or a zero leads. The loop goes by
// places, since the one after the digits is asked for too: a `for` would be no plainer.
pub(crate) fn number_at(text: &[u8], at: usize) -> Option<Numeral>
    ensures { result ≡ numeral_at text.now at }
{
    if !digit_at(text, at) {
        return None;
    }
    let mut value = with_digit(0, text[at]);
    let mut i = at + 1;
    while digit_at(text, i) {
        value = with_digit(value, text[i]);
        i += 1;
    }
    // No zero leads. Both tests are made: a branch between them would cost more.
    let found = (text[at] != 48) | (i == at + 1);
    found.then_some(Numeral { value, next: i })
}

// The number at `at` with `word` after it, and the place after the word. Where it is not inlined, a
// head takes a tenth more time.
#[inline(always)]
pub(crate) fn number_then(text: &[u8], at: usize, word: &[u8]) -> Option<Numeral>
    ensures { result ≡ numeral_then word.now text.now at }
{
    let n = number_at(text, at)?;
    let next = word_at(text, n.next, word)?;
    Some(Numeral {
        value: n.value,
        next,
    })
}

// The value of the number at `at` where it is the last item of a line, bracket and byte 10 after
// it.
#[tactic(auto, unfolding(crate::specs::Text::bytes))]
pub(crate) fn number_last(text: &[u8], at: usize) -> Option<u32>
    ensures { result ≡ numeral_last text.now at }
{
    let n = number_at(text, at)?;
    closes_at(text, n.next, b")\n").then_some(n.value)
}
