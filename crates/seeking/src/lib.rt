// Seeking in a chain: the first pair from one on that has a name and what else is wanted of it. Words alone tell most pairs apart.
#![tactic(auto)]

ghost use Rattle.std.specs.Prelude.{◌≡◌, ◌-◌, ◌<◌, ◌≤◌};
ghost use Rattle.prefix.specs.Prefix.{scope_of};
ghost use Rattle.chains.specs.Chains.{room as chains_room, has_wanted, is_other, is_wanted, may_be, may_have, seek as chains_seek};

use chains::{Name, Want};
use prefix::Scope;

// Whether a base, as a word, is the one that is sought.
fn has_wanted(scope: &Scope<'_>, want: Want, w: usize) -> bool
    ensures { result ≡ has_wanted (scope_of scope.now) want w }
{
    match want {
        Want::Named => {
            return true;
        }
        Want::Based(v) => {
            return comparing::same_base(scope, w, v);
        }
        Want::Runtime => {}
    }
    let at = w % 65536;
    if at == 0 {
        return false;
    }
    paths::is_runtime(reader::record_at(scope.card, at))
}

// Whether a base, as a word, is surely not the one that is sought: both are paths of the card, and the numbers above their places differ.
fn is_other(want: Want, w: usize) -> bool
    ensures { result ≡ is_other want w }
{
    let Want::Based(v) = want else {
        return false;
    };
    if w % 65536 == 0 {
        return false;
    }
    if v % 65536 == 0 {
        return false;
    }
    w / 65536 != v / 65536
}

// Whether pair g has this name and what is sought. The numbers come first, that of the base before the name's: under one name there can be many bases.
fn is_wanted(scope: &Scope<'_>, work: &[u32], g: usize, name: &Name<'_>, want: Want) -> bool
    requires { (0 < g) × (g ≤ chains_room work.now) }
    ensures { result
        ≡ is_wanted (scope_of scope.now) work.now name.now.bytes.now name.now.number want (g - 1) }
{
    let k = 4 * (g - 1);
    let w = wire::word(work[k + 2]);
    if is_other(want, w) {
        return false;
    }
    let v = wire::word(work[k]);
    if v / 65536 != name.number {
        return false;
    }
    let own = wire::part(scope.card, v % 65536, wire::word(work[k + 1]));
    if !comparing::same_name(scope.op, own, name.bytes) {
        return false;
    }
    has_wanted(scope, want, w)
}

// The first pair of the chain from a pair on of which the word at this field leaves open that it is sought: the number above the place is this one, or there
// is no place. Under a name with many bases nearly every link is to the pair just ahead; told apart, such a link is not waited for.
fn pass(work: &[u32], from: usize, field: usize, number: usize) -> usize
    requires { (from ≤ chains_room work.now) × (field < 4) }
    ensures { result ≡ chains_seek (may_be work.now field number) work.now from }
{
    let mut p = from;
    // A while: it goes from link to link.
    while 0 < p {
        let ahead = p - 1;
        let k = 4 * ahead;
        let w = wire::word(work[k + field]);
        if w / 65536 == number {
            return p;
        }
        if w % 65536 == 0 {
            return p;
        }
        let l = wire::word(work[k + 3]) % 65536;
        if l == ahead {
            p = ahead;
        } else {
            if ahead < l {
                return 0;
            }
            p = l;
        }
    }
    0
}

// The first pair that the numbers alone do not tell from what is sought: that of the base, where it is a path of the card, else that of the name. Under one
// name there can be many bases.
fn skip(work: &[u32], from: usize, number: usize, want: Want) -> usize
    requires { from ≤ chains_room work.now }
    ensures { result ≡ chains_seek (may_have work.now number want) work.now from }
{
    let Want::Based(v) = want else {
        return pass(work, from, 0, number);
    };
    if v % 65536 == 0 {
        return pass(work, from, 0, number);
    }
    pass(work, from, 2, v / 65536)
}

// What `seek` answers, by following the chain.
fn seek_some(scope: &Scope<'_>, work: &[u32], from: usize, name: &Name<'_>, want: Want) -> usize
    ensures { result ≡ chains_seek
        (is_wanted (scope_of scope.now) work.now name.now.bytes.now name.now.number want)
        work.now from }
{
    if chains::room(work) < from {
        return 0;
    }
    let mut g = from;
    // A while: it goes from link to link.
    while 0 < g {
        if is_wanted(scope, work, g, name, want) {
            return g;
        }
        let after = chains::next(work, g);
        g = skip(work, after, name.number, want);
    }
    0
}

// The first pair of the chain from a pair on that has this name, which has this number, and what is sought. Most chains end where they begin: those cost
// no call.
pub fn seek(scope: &Scope<'_>, work: &[u32], from: usize, name: &Name<'_>, want: Want) -> usize
    ensures { result ≡ chains_seek
        (is_wanted (scope_of scope.now) work.now name.now.bytes.now name.now.number want)
        work.now from }
{
    if from == 0 {
        return 0;
    }
    seek_some(scope, work, from, name, want)
}
