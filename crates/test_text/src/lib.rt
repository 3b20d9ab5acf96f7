// What a program that reads cases from lines of text is made of: the fields of a line, what hexadecimal and decimal digits say, and whether a
// line is a case. Nothing is required: where a digit is none, or there is no room, decoding stops there.
#![tactic(auto)]

ghost use Rattle.std.specs.Prelude.{◌≡◌, ◌+◌, ◌-◌, ◌≤◌, ◌<◌, length, take, drop, cond, None, is_some, IfSome};
ghost use Rattle.test_text.specs.Text.{FirstAt, until as text_until, beyond as text_beyond, hex_value, hex_first, Decoded, decimal_of};
ghost use Rattle.test_text.specs.Text.{is_digit, are_digits, is_hex, is_number, Apart};

// A line that is a case: how many bytes its root and its card have, and how many words there are.
#[derive(Clone, Copy)]
pub struct Case {
    pub root: usize,
    pub card: usize,
    pub words: usize,
}

// The place of the first byte b of s: the end of a field or of a line.
pub fn find(s: &[u8], b: u8) -> Option<usize>
    ensures { FirstAt s.now b result }
{
    s.iter().position(|x| *x == b)
}

// The part of s that ends at e.
pub fn front(s: &[u8], e: usize) -> &[u8]
    ensures { result.now ≡ take e s.now }
{
    s.get(..e).unwrap_or(s)
}

// What follows the byte at e.
pub fn past(s: &[u8], e: usize) -> &[u8]
    ensures { result.now ≡ drop (e + 1) s.now }
{
    match s.get(e..) {
        Some([_, rest @ ..]) => rest,
        _ => &[],
    }
}

// What stands ahead of the first byte b: a field, or a line.
#[tactic(auto, using(crate::proofs::Fields::until_first, crate::proofs::Fields::until_none))]
pub fn until(s: &[u8], b: u8) -> &[u8]
    ensures { result.now ≡ text_until b s.now }
{
    match find(s, b) {
        Some(e) => front(s, e),
        None => s,
    }
}

// What follows the first byte b.
#[tactic(auto, using(crate::proofs::Fields::beyond_first, crate::proofs::Fields::beyond_none))]
pub fn beyond(s: &[u8], b: u8) -> &[u8]
    ensures { result.now ≡ text_beyond b s.now }
{
    match find(s, b) {
        Some(e) => past(s, e),
        None => &[],
    }
}

// The line of text that starts at i.
pub fn line_at(text: &[u8], i: usize) -> &[u8]
    ensures { (result.now ≡ text_until 10 (drop i text.now)) × (length result.now ≤ length text.now - i) }
{
    until(wire::part(text, i, text.len()), b'\n')
}

// The value of a hexadecimal digit, 0 to 9 and a to f.
#[tactic(auto, unfolding(crate::specs::Text::hex_value))]
pub fn hex_value(b: u8) -> Option<u8>
    ensures { (result ≡ hex_value b) × IfSome result (λ v. v < 16) }
{
    match b {
        b'0'..=b'9' => Some(b - b'0'),
        b'a'..=b'f' => Some(b - b'a' + 10),
        _ => None,
    }
}

// The byte that the first two digits of s say.
#[tactic(auto, unfolding(crate::specs::Text::hex_first, crate::specs::Text::hex_pair, crate::specs::Text::hex_joined))]
pub fn hex_byte(s: &[u8]) -> Option<u8>
    ensures { (result ≡ hex_first s.now) × IfSome result (λ v. v < 256) }
{
    match s {
        [a, b, ..] => Some(hex_value(*a)? * 16 + hex_value(*b)?),
        _ => None,
    }
}

// Puts the bytes that digits say, two to a byte, at the front of out, as far as the digits go and out has room; answers how many.
pub fn decode(s: &[u8], out: &mut [u8]) -> usize
    ensures { Decoded s.now out.old result out.new }
{
    let most = out.len().min(s.len() / 2);
    for n in 0..most {
        let Some(b) = hex_byte(&s[n * 2..]) else {
            return n;
        };
        out[n] = b;
    }
    most
}

// Whether a byte is a digit under base.
#[tactic(auto, unfolding(crate::specs::Text::is_digit, crate::specs::Text::is_value))]
fn is_digit(b: u8, base: u8) -> bool
    ensures { result ≡ is_digit base b }
{
    hex_value(b).is_some_and(|v| v < base)
}

// The value of a decimal digit: hex_value's where that is under 10. It has no tests for a letter, which took time in a long number.
#[tactic(auto, unfolding(crate::specs::Text::hex_value, crate::specs::Text::is_digit, crate::specs::Text::is_value))]
fn decimal_value(b: u8) -> Option<u8>
    ensures { (result ≡ cond (is_digit 10 b) (hex_value b) None) × (is_some result ≡ is_digit 10 b) }
{
    match b {
        b'0'..=b'9' => Some(b - b'0'),
        _ => None,
    }
}

// The number that the decimal digits at the front of s say, up to the digit that takes it to 2 ^ 32 or past it.
#[tactic(auto, using(crate::proofs::Text::decimal_over, crate::proofs::Text::decimal_end))]
pub fn decimal(s: &[u8]) -> usize
    ensures { result ≡ decimal_of 0 s.now }
{
    let mut n = 0;
    for b in s {
        match decimal_value(*b) {
            Some(d) if n < 4294967296 => n = n * 10 + usize::from(d),
            _ => break,
        }
    }
    n
}

// Whether every byte is a digit under base.
fn are_digits(s: &[u8], base: u8) -> bool
    ensures { result ≡ are_digits base s.now }
{
    s.iter().all(|b| is_digit(*b, base))
}

// The same under 10, by the shorter test.
fn are_decimal(s: &[u8]) -> bool
    ensures { result ≡ are_digits 10 s.now }
{
    s.iter().all(|b| decimal_value(*b).is_some())
}

// Whether a field says bytes: it is -, for none, or hexadecimal digits, two to a byte.
#[tactic(auto, using(crate::proofs::Fields::dash_is), unfolding(crate::specs::Text::is_hex))]
pub fn is_hex(s: &[u8]) -> bool
    ensures { result ≡ is_hex s.now }
{
    match s {
        b"-" => true,
        [] => false,
        _ => s.len() % 2 == 0 && are_digits(s, 16),
    }
}

// Whether a field is a decimal number.
#[tactic(auto, unfolding(crate::specs::Text::is_number))]
pub fn is_number(s: &[u8]) -> bool
    ensures { result ≡ is_number s.now }
{
    !s.is_empty() && are_decimal(s)
}

// Takes a line ROOT CARD WORDS apart. A field that is longer than its buffer fills it.
pub fn take_apart(line: &[u8], root: &mut [u8], card: &mut [u8]) -> Option<Case>
    ensures { Apart line.now root.old card.old result root.new card.new }
{
    let first = until(line, b' ');
    let rest = beyond(line, b' ');
    let second = until(rest, b' ');
    let third = beyond(rest, b' ');
    if !is_hex(first) || !is_hex(second) || !is_number(third) {
        return None;
    }
    Some(Case {
        root: decode(first, root),
        card: decode(second, card),
        words: decimal(third),
    })
}
