// Collecting: one walk over a module's records puts every pair of name and base into the table. A record that ends its parent is gone on with in the same
// loop, one less deep; a Text, a Kept and a path are not entered. A record, and the content of one, is the card's bytes from a place to another.
#![tactic(auto)]

ghost use Rattle.std.specs.Prelude.{◌≡◌, not, ◌||◌, ◌+◌, ◌≤◌, length};
ghost use Rattle.records.specs.Record.{is_leaf};
ghost use Rattle.factor_paths.specs.Collects.{a_decl, visited_as, enters};
ghost use Rattle.prefix.specs.Prefix.{scope_of};
ghost use Rattle.adding.specs.Adds.{table};
ghost use Rattle.gathering.specs.Gathers.{parts_added, whole_added, gathered};

use prefix::Scope;

// Whether nothing is collected from a record of kind j, field i of one of kind k: a Text, a Kept, and a field that is not entered.
fn is_passed(k: usize, i: usize, j: usize) -> bool
    ensures { result ≡ (is_leaf j || not (enters k i)) }
{
    if j == 1 {
        return true;
    }
    if j == 3 {
        return true;
    }
    !fields::is_entered(k, i)
}

// The fields in the content of a record of kind k.
#[cycle(collect_decl_collect_parts)]
fn collect_parts(
    scope: &Scope<'_>,
    from: usize,
    to: usize,
    k: usize,
    left: usize,
    work: &mut [u32],
    n: usize,
) -> usize
    requires { (from ≤ to) × (to ≤ length scope.now.card.now) × (length scope.now.card.now ≤ 65536) }
    ensures { table result work.new
        ≡ parts_added (scope_of scope.now) left k (table n work.old) from to }
{
    let mut at = from;
    let mut of = k;
    let mut i = 0;
    let mut deep = left;
    let mut m = n;
    // A while: a record is as long as it says, and the last of its parent is gone on with in the same loop.
    while at < to {
        let s = &scope.card[at..to];
        if reader::is_short(s) {
            return m;
        }
        if deep == 0 {
            return m;
        }
        let next = at + 4 + reader::record_length(s);
        let j = reader::record_kind(s);
        if is_passed(of, i, j) {
            at = next;
            i += 1;
            continue;
        }
        let inner = at + 6;
        if j == 0x2D {
            m = visiting::add_path(scope, inner, next, false, work, m);
            at = next;
            i += 1;
            continue;
        }
        if j == 0x5C {
            m = visiting::add_path(scope, inner, next, true, work, m);
            at = next;
            i += 1;
            continue;
        }
        if steps::stands(0x62, 0x6A, j) {
            m = collect_decl(scope, inner, next, j, deep - 1, work, m);
            at = next;
            i += 1;
            continue;
        }
        if next == to {
            at = inner;
            of = j;
            i = 0;
            deep -= 1;
            continue;
        }
        m = collect_parts(scope, inner, next, j, deep - 1, work, m);
        at = next;
        i += 1;
    }
    m
}

// A declaration: its own name, then what it holds; of a nested module and of a use nothing more.
#[cycle(collect_decl_collect_parts)]
fn collect_decl(
    scope: &Scope<'_>,
    from: usize,
    to: usize,
    k: usize,
    left: usize,
    work: &mut [u32],
    n: usize,
) -> usize
    requires { (from ≤ to) × (to ≤ length scope.now.card.now) × (length scope.now.card.now ≤ 65536) × (visited_as k ≡ a_decl) }
    ensures { table result work.new
        ≡ whole_added (scope_of scope.now) left k (table n work.old) from to }
{
    let m = visiting::add_name(scope, from, to, k, work, n);
    collect_parts(scope, from, to, k, left, work, m)
}

// The module at a place of the card, which goes at most left deep; chain has the places of the names of the modules around it and its own. The table is
// started anew. The answer is how many pairs there are, as adding::add's. The module's record is walked as a List's only one.
pub fn collect_module(scope: &Scope<'_>, at: usize, left: usize, work: &mut [u32]) -> usize
    ensures { table result work.new
        ≡ gathered (scope_of scope.now) left at work.old }
{
    adding::start(work);
    if 65536 < scope.card.len() {
        return 0;
    }
    let s = wire::part(scope.card, at, scope.card.len());
    if reader::is_short(s) {
        return 0;
    }
    let to = at + 4 + reader::record_length(s);
    collect_parts(scope, at, to, 2, left, work, 0)
}
