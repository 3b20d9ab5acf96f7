// The record at the front of a slice: its length and kind, its own bytes, its content and what follows it, as parts of the slice.
// Of bytes that are no record each says what its definition says, so nothing is required.
#![tactic(auto)]

ghost use Rattle.std.specs.Prelude.{◌≡◌, ◌^◌, ◌<◌, ◌≤◌, length};
ghost use Rattle.wire.specs.Numbers.{num};
ghost use Rattle.records.specs.Record.{length_of, kind_of, content_of, rest_of, first_record, record_at};
ghost use Rattle.records.specs.Reading.{short};

// The number in at most four bytes, the lowest first. Only a slice that ends within a record's head is read so.
#[cold]
fn number(s: &[u8]) -> usize
    requires { length s.now ≤ 4 }
    ensures { result ≡ num s.now }
{
    match s {
        [] => 0,
        [first, others @ ..] => usize::from(*first) + 256 * number(others),
    }
}

// The length that it states, which counts the bytes after itself.
pub fn record_length(s: &[u8]) -> usize
    ensures { (result ≡ length_of s.now) × (result < 2 ^ 32) }
{
    if 4 <= s.len() {
        return wire::four(s, 0);
    }
    number(s)
}

pub fn record_kind(s: &[u8]) -> usize
    ensures { (result ≡ kind_of s.now) × (result < 65536) }
{
    if 6 <= s.len() {
        return usize::from(u16::from_le_bytes([s[4], s[5]]));
    }
    number(wire::part(s, 4, 2))
}

// Refusal 4: too few bytes for a record, or a length under 2 or past the end.
pub fn is_short(s: &[u8]) -> bool
    ensures { result ≡ short s.now }
{
    if s.len() < 6 {
        return true;
    }
    let n = record_length(s);
    n < 2 || s.len() < n + 4
}

pub fn content(s: &[u8]) -> &[u8]
    ensures { result.now ≡ content_of s.now }
{
    wire::part(s, 6, record_length(s).saturating_sub(2))
}

pub fn rest(s: &[u8]) -> &[u8]
    ensures { result.now ≡ rest_of s.now }
{
    let end = record_length(s) + 4;
    &s[end.min(s.len())..]
}

// The record's own bytes.
pub fn record(s: &[u8]) -> &[u8]
    ensures { result.now ≡ first_record s.now }
{
    wire::part(s, 0, record_length(s) + 4)
}

// The bytes of the record at a place.
pub fn record_at(s: &[u8], at: usize) -> &[u8]
    ensures { result.now ≡ record_at s.now at }
{
    record(wire::part(s, at, s.len()))
}
