// Adding to the table: a name, a part of the card, and a base, the place of a path in the card or 0 for the module's prefix.
#![tactic(auto)]

ghost use Rattle.std.specs.Prelude.{◌≡◌, ◌<◌};
ghost use Rattle.prefix.specs.Prefix.{scope_of};
ghost use Rattle.chains.specs.Chains.{room};
ghost use Rattle.adding.specs.Adds.{started, put_pair, table, added};
ghost use Rattle.adding.specs.Settles.{put_again, settled};

use chains::{Name, Want};
use prefix::Scope;

// An empty table: no bucket has a pair.
pub fn start(work: &mut [u32])
    ensures { work.new ≡ started work.old }
{
    let n = chains::room(work);
    for i in 0..n {
        work[4 * i + 3] = 0;
    }
}

// A pair that n pairs stand ahead of becomes the newest of bucket b. Its first word is the name's place with the name's number above it.
fn put(work: &mut [u32], n: usize, b: usize, at: u32, len: u32, base: u32)
    requires { (n < room work.old) × (b < room work.old) }
    ensures { work.new ≡ put_pair work.old n b at len base }
{
    let first = chains::head(work, b);
    let k = 4 * n;
    work[k] = at;
    work[k + 1] = len;
    work[k + 2] = base;
    let h = wire::word(work[k + 3]) / 65536;
    work[k + 3] = (h * 65536 + first) as u32;
    let j = 4 * b + 3;
    let l = wire::word(work[j]) % 65536;
    work[j] = ((n + 1) * 65536 + l) as u32;
}

// The pair is put last among n pairs, if it is not there. The answer is how many pairs there are then; one more than the words have room for says
// that the table is full, and stays. Count and words are not one struct: of words lent in a struct that is handed on nothing is known after. A name stands at a place that fits a half word.
pub fn add(scope: &Scope<'_>, work: &mut [u32], n: usize, at: u32, len: u32, base: u16) -> usize
    ensures { table result work.new
        ≡ added (scope_of scope.now) (table n work.old) at len base }
{
    let most = chains::room(work);
    if most < n {
        return n;
    }
    let place = wire::word(at) % 65536;
    let bytes = wire::part(scope.card, place, wire::word(len));
    let number = comparing::number(scope.op, bytes);
    let name = Name { bytes, number };
    let b = chains::bucket(work, name.number);
    let w = comparing::base_word(scope.op, scope.card, base);
    let first = chains::head(work, b);
    let want = Want::Based(w);
    if 0 < seeking::seek(scope, work, first, &name, want) {
        return n;
    }
    if n == most {
        return n + 1;
    }
    let named = place + 65536 * name.number;
    put(work, n, b, named as u32, len, w as u32);
    n + 1
}

// The pair that i pairs stand ahead of stays where it stands, and becomes the newest of its bucket. The number of its name, which its
// words have, says which: no name is looked at.
fn put_again(work: &mut [u32], i: usize)
    requires { i < room work.old }
    ensures { work.new ≡ put_again work.old i }
{
    let k = 4 * i;
    let at = work[k];
    let len = work[k + 1];
    let base = work[k + 2];
    let b = chains::bucket(work, wire::word(at) / 65536);
    put(work, i, b, at, len, base);
}

// The chains are set anew over words that are full of pairs: as many buckets as pairs.
pub fn settle(work: &mut [u32])
    ensures { work.new ≡ settled work.old }
{
    start(work);
    for i in 0..chains::room(work) {
        put_again(work, i);
    }
}
