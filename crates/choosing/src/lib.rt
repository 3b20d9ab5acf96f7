// What a table says: the pair whose base is chosen for a name, and the use that a pair brings. Pairs are numbered from 1; 0 is none.
#![tactic(auto)]

ghost use Rattle.std.specs.Prelude.{◌≡◌};
ghost use Rattle.prefix.specs.Prefix.{scope_of};
ghost use Rattle.choosing.specs.Chooses.{chosen_of_several, chosen_pair, use_pair, Oldest};

use chains::{Name, Want};
use prefix::Scope;

// Among several pairs of a name: the one that has the prefix, else the one that has ::dafny_runtime.
fn chosen_of_several(scope: &Scope<'_>, work: &[u32], first: usize, name: &Name<'_>) -> usize
    ensures { result ≡ chosen_of_several (scope_of scope.now)
        work.now name.now.bytes.now name.now.number first }
{
    let want = Want::Based(0);
    let p = seeking::seek(scope, work, first, name, want);
    if 0 < p {
        return p;
    }
    seeking::seek(scope, work, first, name, Want::Runtime)
}

// The pair that has the base chosen for a name, which has this number: its only one, else as above.
pub fn chosen(scope: &Scope<'_>, work: &[u32], name: &Name<'_>) -> usize
    ensures { result ≡ chosen_pair (scope_of scope.now)
        work.now name.now.bytes.now name.now.number }
{
    let want = Want::Named;
    let first = chains::head(work, chains::bucket(work, name.number));
    let one = seeking::seek(scope, work, first, name, want);
    if one == 0 {
        return 0;
    }
    let after = chains::next(work, one);
    let two = seeking::seek(scope, work, after, name, want);
    if two == 0 {
        return one;
    }
    chosen_of_several(scope, work, first, name)
}

// The same for a name whose oldest pair is pair g: if it is also the newest it is the only one. Most are the newest of their bucket: no name is looked at.
fn chosen_after(scope: &Scope<'_>, work: &[u32], name: &Name<'_>, g: usize) -> usize
    requires { Oldest (scope_of scope.now) work.now name.now.bytes.now name.now.number g }
    ensures { result ≡ chosen_pair (scope_of scope.now)
        work.now name.now.bytes.now name.now.number }
{
    let first = chains::head(work, chains::bucket(work, name.number));
    if first == g {
        return g;
    }
    let want = Want::Named;
    if seeking::seek(scope, work, first, name, want) == g {
        return g;
    }
    chosen(scope, work, name)
}

// The pair that has the base of the use that pair g brings: the one chosen for its name, unless a pair ahead has the name, or the base is the prefix. Where pair g
// itself has place 0 for its base nothing is sought.
pub fn use_of(scope: &Scope<'_>, work: &[u32], g: usize) -> usize
    ensures { result ≡ use_pair (scope_of scope.now) work.now g }
{
    if g == 0 {
        return 0;
    }
    if chains::room(work) < g {
        return 0;
    }
    let k = 4 * (g - 1);
    if wire::word(work[k + 2]) % 65536 == 0 {
        return 0;
    }
    let at = wire::word(work[k]);
    let bytes = wire::part(scope.card, at % 65536, wire::word(work[k + 1]));
    let name = Name {
        bytes,
        number: at / 65536,
    };
    let after = chains::next(work, g);
    if 0 < seeking::seek(scope, work, after, &name, Want::Named) {
        return 0;
    }
    let c = chosen_after(scope, work, &name, g);
    if c == 0 {
        return 0;
    }
    let m = 4 * (c - 1) + 2;
    if comparing::same_base(scope, wire::word(work[m]), 0) {
        return 0;
    }
    c
}
