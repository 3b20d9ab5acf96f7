// Bytes as numbers, comparing bytes, and a part of a slice.
#![tactic(auto)]

ghost use Rattle.std.specs.Prelude.{◌≡◌, ◌+◌, ◌<◌, ◌≤◌, ◌^◌, length, take, drop};
ghost use Rattle.wire.specs.Numbers.{num, same_bytes};

// A byte as a number.
pub fn wide(b: u8) -> usize
    ensures { (result ≡ b) × (result < 256) }
{
    usize::from(b)
}

// Four bytes of s as a number, the lowest first.
pub fn four(s: &[u8], at: usize) -> usize
    requires { at + 4 ≤ length s.now }
    ensures { (result ≡ num (take 4 (drop at s.now))) × (result < 2 ^ 32) }
{
    u32::from_le_bytes([s[at], s[at + 1], s[at + 2], s[at + 3]]) as usize
}

// Eight bytes of s so. They are read at once: the compiler makes one load of the sum.
fn eight(s: &[u8], at: usize) -> usize
    requires { at + 8 ≤ length s.now }
    ensures { result ≡ num (take 8 (drop at s.now)) }
{
    usize::from_le_bytes([
        s[at],
        s[at + 1],
        s[at + 2],
        s[at + 3],
        s[at + 4],
        s[at + 5],
        s[at + 6],
        s[at + 7],
    ])
}

// Whether two slices hold the same bytes, byte by byte. For a slice that has just been filled byte by byte this is quicker: several read at once would have to
// wait until all are stored.
pub fn same_few(a: &[u8], b: &[u8]) -> bool
    ensures { result ≡ same_bytes a.now b.now }
{
    if a.len() != b.len() {
        return false;
    }
    for i in 0..a.len() {
        if a[i] != b[i] {
            return false;
        }
    }
    true
}

// The same of at most eight bytes: the first four and the last four, which may have some in common, or byte by byte.
fn same_short(a: &[u8], b: &[u8]) -> bool
    requires { (length a.now ≡ length b.now) × (length a.now ≤ 8) }
    ensures { result ≡ same_bytes a.now b.now }
{
    let n = a.len();
    if n < 4 {
        return same_few(a, b);
    }
    if four(a, 0) != four(b, 0) {
        return false;
    }
    let last = n - 4;
    four(a, last) == four(b, last)
}

// Whether two slices hold the same bytes. Lengths come first: most names that differ do so there. Then, from eight bytes on, eight are compared at a time,
// and the last eight, of which some may have been compared before. Not by `==`: that was tried, and took 3 in 100 instructions more over a card of 32 KB.
pub fn same(a: &[u8], b: &[u8]) -> bool
    ensures { result ≡ same_bytes a.now b.now }
{
    let n = a.len();
    if n != b.len() {
        return false;
    }
    if n < 8 {
        return same_short(a, b);
    }
    for i in 0..(n - 1) / 8 {
        if eight(a, 8 * i) != eight(b, 8 * i) {
            return false;
        }
    }
    let last = n - 8;
    eight(a, last) == eight(b, last)
}

// The part of s of this length from a place on, as far as s reaches.
pub fn part(s: &[u8], from: usize, len: usize) -> &[u8]
    ensures { result.now ≡ take len (drop from s.now) }
{
    let rest = &s[from.min(s.len())..];
    &rest[..len.min(rest.len())]
}

// A word of 32 bits as a number.
pub fn word(w: u32) -> usize
    ensures { (result ≡ w) × (result < 2 ^ 32) }
{
    w as usize
}
