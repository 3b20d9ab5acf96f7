// The outermost module's table and by how much the card can grow, in one walk: collecting's, with growth's sum. What collecting does not enter, growth walks
// by itself.
#![tactic(auto)]

ghost use Rattle.std.specs.Prelude.{◌≡◌, true, false, ◌+◌, ◌≤◌, length};
ghost use Rattle.wire.specs.Numbers.{between};
ghost use Rattle.factor_paths.specs.Collects.{a_decl, visited_as};
ghost use Rattle.operation.specs.Operations.{operation_of};
ghost use Rattle.prefix.specs.Prefix.{scope_of};
ghost use Rattle.adding.specs.Adds.{table};
ghost use Rattle.gathering.specs.Gathers.{parts_added, whole_added, gathered};
ghost use Rattle.rewriting.specs.Rewrites.{counted, uncounted};
ghost use Rattle.growth.specs.Grows.{growth_all, decl_growth, card_growth};
ghost use Rattle.surveying.specs.Surveys.{is_parted};

use prefix::Scope;

// How many pairs the table has, as adding::add's answer, and by how much what was walked can grow.
#[derive(Clone, Copy)]
pub struct Survey {
    pub pairs: usize,
    pub grown: usize,
}

// Whether a Fn's content starts with two records: only then is it walked in two parts.
fn is_parted(c: &[u8]) -> bool
    ensures { result ≡ is_parted c.now }
{
    if reader::is_short(c) {
        return false;
    }
    !reader::is_short(reader::rest(c))
}

// The fields in the content of a record of kind k.
#[cycle(survey_decl_survey_fn_survey_parts)]
fn survey_parts(
    scope: &Scope<'_>,
    from: usize,
    to: usize,
    k: usize,
    left: usize,
    again: bool,
    w: usize,
    work: &mut [u32],
    n: usize,
) -> Survey
    requires { (from ≤ to) × (to ≤ length scope.now.card.now) × (length scope.now.card.now ≤ 65536) × (w + left ≤ 65536) }
    ensures { (table result.pairs work.new
        ≡ parts_added (scope_of scope.now) left k (table n work.old) from to)
        × (result.grown ≡ growth_all scope.now.op left false again w (between scope.now.card.now from to)) }
{
    let mut at = from;
    let mut of = k;
    let mut i = 0;
    let mut deep = left;
    let mut wraps = w;
    let mut m = n;
    let mut sum = 0;
    // A while: a record is as long as it says, and the last of its parent is gone on with in the same loop.
    while at < to {
        let s = &scope.card[at..to];
        if reader::is_short(s) {
            return Survey {
                pairs: m,
                grown: sum,
            };
        }
        if deep == 0 {
            return Survey {
                pairs: m,
                grown: sum,
            };
        }
        let next = at + 4 + reader::record_length(s);
        let j = reader::record_kind(s);
        if j == 1 {
            at = next;
            i += 1;
            continue;
        }
        if j == 3 {
            at = next;
            i += 1;
            continue;
        }
        if !fields::is_entered(of, i) {
            sum += growth::part_growth(scope.op, scope.card, at, next, false, again, wraps, deep);
            at = next;
            i += 1;
            continue;
        }
        let inner = at + 6;
        if j == 0x2D {
            m = visiting::add_path(scope, inner, next, false, work, m);
            sum += wraps * (18 + replacement::name_in(&scope.card[at..next]).len());
            at = next;
            i += 1;
            continue;
        }
        if j == 0x5C {
            m = visiting::add_path(scope, inner, next, true, work, m);
            at = next;
            i += 1;
            continue;
        }
        if steps::stands(0x62, 0x6A, j) {
            let d = survey_decl(scope, inner, next, j, deep - 1, again, wraps, work, m);
            m = d.pairs;
            sum += d.grown;
            at = next;
            i += 1;
            continue;
        }
        if j == 0x7D {
            if is_parted(&scope.card[inner..next]) {
                let f = survey_fn(scope, inner, next, deep - 1, work, m);
                m = f.pairs;
                sum += f.grown;
                at = next;
                i += 1;
                continue;
            }
            let g = growth::part_growth(scope.op, scope.card, at, next, false, again, wraps, deep);
            let o = survey_parts(scope, inner, next, j, deep - 1, again, wraps, work, m);
            m = o.pairs;
            sum += g;
            at = next;
            i += 1;
            continue;
        }
        if growth::is_fixed(j) {
            let x = survey_parts(scope, inner, next, j, deep - 1, again, wraps, work, m);
            m = x.pairs;
            at = next;
            i += 1;
            continue;
        }
        let v = growth::wraps_at(again, wraps, j);
        if next == to {
            at = inner;
            of = j;
            i = 0;
            deep -= 1;
            wraps = v;
            continue;
        }
        let p = survey_parts(scope, inner, next, j, deep - 1, again, v, work, m);
        m = p.pairs;
        sum += p.grown;
        at = next;
        i += 1;
    }
    Survey {
        pairs: m,
        grown: sum,
    }
}

// A declaration: its own name, then what it holds; of a nested module and of a use nothing more is collected. In a nested module paths are charged their uses.
#[cycle(survey_decl_survey_fn_survey_parts)]
fn survey_decl(
    scope: &Scope<'_>,
    from: usize,
    to: usize,
    k: usize,
    left: usize,
    again: bool,
    w: usize,
    work: &mut [u32],
    n: usize,
) -> Survey
    requires { (from ≤ to) × (to ≤ length scope.now.card.now) × (length scope.now.card.now ≤ 65536) × (w + left ≤ 65536) × (visited_as k ≡ a_decl) }
    ensures { (table result.pairs work.new
        ≡ whole_added (scope_of scope.now) left k (table n work.old) from to)
        × (result.grown ≡ decl_growth scope.now.op left again w k (between scope.now.card.now from to)) }
{
    let m = visiting::add_name(scope, from, to, k, work, n);
    if k == 0x6A {
        return Survey { pairs: m, grown: 0 };
    }
    if k == 0x62 {
        let g = growth::part_growth(scope.op, scope.card, from, to, true, again, w, left);
        return Survey { pairs: m, grown: g };
    }
    survey_parts(scope, from, to, k, left, again, w, work, m)
}

// The content of a Fn, which starts with two records: from its formals on, what is around a type is counted.
#[cycle(survey_decl_survey_fn_survey_parts)]
fn survey_fn(
    scope: &Scope<'_>,
    from: usize,
    to: usize,
    left: usize,
    work: &mut [u32],
    n: usize,
) -> Survey
    requires within { (from ≤ to) × (to ≤ length scope.now.card.now) × (length scope.now.card.now ≤ 65536) × (left ≤ 65535) }
    requires parted { is_parted (between scope.now.card.now from to) ≡ true }
    ensures { (table result.pairs work.new
        ≡ parts_added (scope_of scope.now) left 0x7D (table n work.old) from to)
        × (result.grown ≡ growth_all scope.now.op left false false 1 (uncounted (between scope.now.card.now from to))
        + growth_all scope.now.op left false (operation_of scope.now.op).walks_again 1 (counted (between scope.now.card.now from to))) }
{
    let c = &scope.card[from..to];
    let body = reader::rest(reader::rest(c));
    let mid = to - body.len();
    let a = survey_parts(scope, from, mid, 0x7D, left, false, 1, work, n);
    let again = operation::walks_again(scope.op);
    let b = survey_parts(scope, mid, to, 0x7D, left, again, 1, work, a.pairs);
    Survey {
        pairs: b.pairs,
        grown: a.grown + b.grown,
    }
}

// The outermost module of a card, whose table is started anew, and the card's growth. The record is walked as a List's only one.
pub fn survey_card(scope: &Scope<'_>, work: &mut [u32]) -> Survey
    ensures { (table result.pairs work.new
        ≡ gathered (scope_of scope.now) 48 0 work.old)
        × (result.grown ≡ card_growth scope.now.op scope.now.card.now) }
{
    adding::start(work);
    if 65536 < scope.card.len() {
        return Survey { pairs: 0, grown: 0 };
    }
    if reader::is_short(scope.card) {
        return Survey { pairs: 0, grown: 0 };
    }
    let to = 4 + reader::record_length(scope.card);
    survey_parts(scope, 0, to, 2, 48, false, 1, work, 0)
}
