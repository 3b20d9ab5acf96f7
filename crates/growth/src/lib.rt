// How much longer than its card an output can be, whatever its tables say: one walk over the card that looks nothing up.
#![tactic(auto)]

ghost use Rattle.std.specs.Prelude.{◌≡◌, false, ◌||◌, ◌+◌, ◌*◌, ◌≤◌, length, eqb};
ghost use Rattle.wire.specs.Numbers.{between};
ghost use Rattle.rewriting.specs.Replaces.{name_in};
ghost use Rattle.operation.specs.Operations.{operation_of};
ghost use Rattle.rewriting.specs.Rewrites.{counted, uncounted};
ghost use Rattle.growth.specs.Grows.{is_fixed, wraps_in, wraps_at, use_of, growth_all, part_growth};

use operation::Shortening;

// Whether nothing in a record of kind k grows: a Text, a Kept, a path, a use.
pub fn is_fixed(k: usize) -> bool
    ensures { result ≡ is_fixed k }
{
    if k == 1 {
        return true;
    }
    if k == 3 {
        return true;
    }
    if steps::stands(0x10, 0x13, k) {
        return true;
    }
    if k == 0x6A {
        return true;
    }
    k == 0x80
}

// How often a path type is wrapped in a record of kind k.
fn wraps_in(again: bool, w: usize, k: usize) -> usize
    requires { w ≤ 65536 }
    ensures { result ≡ wraps_in again w k }
{
    if !again {
        return w;
    }
    if steps::stands(0x20, 0x38, k) {
        return w + 1;
    }
    if steps::stands(0x40, 0x5E, k) {
        return w + 1;
    }
    w
}

// The same for any count: one too large stays.
pub fn wraps_at(again: bool, w: usize, k: usize) -> usize
    ensures { result ≡ wraps_at again w k }
{
    if 65536 < w {
        return w;
    }
    wraps_in(again, w, k)
}

// Whether uses are charged in a record of kind k: in a nested module they are.
fn charges(charged: bool, k: usize) -> bool
    ensures { result ≡ (charged || eqb k 0x62) }
{
    if charged {
        return true;
    }
    k == 0x62
}

// The use that a record of n bytes that holds a path is charged.
fn use_of(charged: bool, n: usize) -> usize
    requires { n ≤ 65536 }
    ensures { result ≡ use_of charged n }
{
    if charged {
        return 13 + n;
    }
    0
}

// A TypeFromPath, by w synonyms, and the use that it is charged.
fn type_growth(charged: bool, w: usize, r: &[u8]) -> usize
    requires { (w ≤ 65536) × (length r.now ≤ 65536) }
    ensures { result ≡ w * (18 + length (name_in r.now)) + use_of charged (length r.now) }
{
    w * (18 + replacement::name_in(r).len()) + use_of(charged, r.len())
}

// The records from one place of the card to another. One that ends its parent is gone on with, not entered.
#[cycle(fn_growth_parts_growth)]
fn parts_growth(
    op: Shortening,
    card: &[u8],
    from: usize,
    to: usize,
    charged: bool,
    again: bool,
    w: usize,
    left: usize,
) -> usize
    requires { (from ≤ to) × (to ≤ length card.now) × (length card.now ≤ 65536) × (w + left ≤ 65536) }
    ensures { result ≡ growth_all op left charged again w (between card.now from to) }
{
    let mut at = from;
    let mut sum = 0;
    let mut uses = charged;
    let mut wraps = w;
    let mut deep = left;
    // A while: a record is as long as it says, and the last of its parent is gone on with in the same loop.
    while at < to {
        let s = &card[at..to];
        if reader::is_short(s) {
            return sum;
        }
        if deep == 0 {
            return sum;
        }
        let k = reader::record_kind(s);
        let e = at + 4 + reader::record_length(s);
        if is_fixed(k) {
            at = e;
            continue;
        }
        if k == 0x2D {
            sum += type_growth(uses, wraps, &card[at..e]);
            at = e;
            continue;
        }
        if k == 0x5C {
            sum += use_of(uses, e - at);
            at = e;
            continue;
        }
        if k == 0x7D {
            sum += fn_growth(op, card, at + 6, e, uses, deep - 1);
            at = e;
            continue;
        }
        let v = wraps_in(again, wraps, k);
        let u = charges(uses, k);
        if e == to {
            at += 6;
            uses = u;
            wraps = v;
            deep -= 1;
            continue;
        }
        sum += parts_growth(op, card, at + 6, e, u, again, v, deep - 1);
        at = e;
    }
    sum
}

// The content of a Fn: from its formals on, what is around a type is counted.
#[cycle(fn_growth_parts_growth)]
fn fn_growth(
    op: Shortening,
    card: &[u8],
    from: usize,
    to: usize,
    charged: bool,
    left: usize,
) -> usize
    requires { (from ≤ to) × (to ≤ length card.now) × (length card.now ≤ 65536) × (left ≤ 65535) }
    ensures { result ≡ growth_all op left charged false 1 (uncounted (between card.now from to))
        + growth_all op left charged (operation_of op).walks_again 1 (counted (between card.now from to)) }
{
    let c = &card[from..to];
    let body = reader::rest(reader::rest(c));
    let mid = to - body.len();
    let a = parts_growth(op, card, from, mid, charged, false, 1, left);
    let again = operation::walks_again(op);
    a + parts_growth(op, card, mid, to, charged, again, 1, left)
}

// The records from one place to another, for any places and counts: nothing where they are not in the card, its places do not fit a half word, or a count would
// be too large.
pub fn part_growth(
    op: Shortening,
    card: &[u8],
    from: usize,
    to: usize,
    charged: bool,
    again: bool,
    w: usize,
    left: usize,
) -> usize
    ensures { result ≡ part_growth op card.now from to charged again w left }
{
    if to < from {
        return 0;
    }
    if card.len() < to {
        return 0;
    }
    if 65536 < card.len() {
        return 0;
    }
    if 65536 < w {
        return 0;
    }
    if 65536 - w < left {
        return 0;
    }
    parts_growth(op, card, from, to, charged, again, w, left)
}
