// When two names are the same and when two bases are: asked here alone, and in every operation when their bytes are. And numbers that are the same where these
// are, to look them up by.
#![tactic(auto)]

ghost use Rattle.std.specs.Prelude.{◌≡◌, ◌<◌, ◌^◌};
ghost use Rattle.operation.specs.Operations.{operation_of, same_paths};
ghost use Rattle.prefix.specs.Prefix.{scope_of};
ghost use Rattle.comparing.specs.Compares.{mixed, hash_few, hash_bytes, number_of, base_word, base_at, same_base};

use operation::Shortening;
use prefix::Scope;

// A hash, and one more number of the sequence.
fn mix(h: usize, x: usize) -> usize
    requires { (h < 2 ^ 32) × (x < 2 ^ 32) }
    ensures { (result ≡ mixed h x) × (result < 2 ^ 32) }
{
    (h * 1540483477 + x) % 4294967296
}

// The hash of a few bytes, one a turn.
fn hash_few(s: &[u8]) -> usize
    ensures { (result ≡ hash_few 0 s.now) × (result < 2 ^ 32) }
{
    let mut h = 0;
    for b in s {
        h = mix(h, usize::from(*b));
    }
    h
}

// The hash of bytes, four a turn: they are one load. The last four end with the bytes: how many are left over is not asked.
fn hash_bytes(s: &[u8]) -> usize
    ensures { (result ≡ hash_bytes s.now) × (result < 2 ^ 32) }
{
    let n = s.len();
    if n < 4 {
        return hash_few(s);
    }
    let mut h = 0;
    for i in 0..(n - 1) / 4 {
        h = mix(h, wire::four(s, 4 * i));
    }
    mix(h, wire::four(s, n - 4))
}

// The number of a name, under 65536: the same for names that are the same.
pub fn number(op: Shortening, name: &[u8]) -> usize
    ensures { (result ≡ number_of op name.now) × (result < 65536) }
{
    hash_bytes(name) * 1831565813 % 4294967296 / 65536
}

pub fn same_name(op: Shortening, a: &[u8], b: &[u8]) -> bool
    ensures { result ≡ (operation_of op).same_name a.now b.now }
{
    wire::same(a, b)
}

// Two paths, by their records.
fn same_path(op: Shortening, a: &[u8], b: &[u8]) -> bool
    ensures { result ≡ same_paths op a.now b.now }
{
    wire::same(a, b)
}

// A base as a word: its place in the card, or 0 for the prefix, and above it a number that is the same for paths that are the same.
pub fn base_word(op: Shortening, card: &[u8], place: u16) -> usize
    ensures { (result ≡ base_word op card.now place) × (result < 2 ^ 32) }
{
    if place == 0 {
        return 0;
    }
    let at = place as usize;
    at + 65536 * number(op, reader::record_at(card, at))
}

// Whether a path is the base at a place.
pub fn is_base(scope: &Scope<'_>, place: usize, path: &[u8]) -> bool
    ensures { result ≡ same_paths scope.now.op (base_at (scope_of scope.now) place) path.now }
{
    if place != 0 {
        return same_path(scope.op, reader::record_at(scope.card, place), path);
    }
    prefix::is_prefix(scope, path)
}

// Whether two words say the same base. The numbers above the places spare most comparisons of bytes.
pub fn same_base(scope: &Scope<'_>, v: usize, w: usize) -> bool
    ensures { result ≡ same_base (scope_of scope.now) v w }
{
    let a = v % 65536;
    let b = w % 65536;
    if a == 0 {
        if b == 0 {
            return true;
        }
        return prefix::is_prefix(scope, reader::record_at(scope.card, b));
    }
    if b == 0 {
        return prefix::is_prefix(scope, reader::record_at(scope.card, a));
    }
    if v / 65536 != w / 65536 {
        return false;
    }
    same_path(
        scope.op,
        reader::record_at(scope.card, a),
        reader::record_at(scope.card, b),
    )
}
