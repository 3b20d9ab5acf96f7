// Writing a module: functions for a module, its body and a declaration call each other in a ring, the remaining depth falling. The work words hold a module's
// table, and behind it those of modules in it; a small module borrows the last words. Each is lent the part of the out buffer that starts where its parent has
// got to, and writes as far as that reaches: with an empty part, it measures.
#![tactic(auto)]

ghost use Rattle.std.specs.Prelude.{◌≡◌, true, [], ◌∷◌, ◌++◌, ◌+◌, ◌-◌, ◌<◌, ◌≤◌, length, take};
ghost use Rattle.adding.specs.Adds.{table};
ghost use Rattle.gathering.specs.Gathers.{span};
ghost use Rattle.tables.specs.Tables.{is_small};
ghost use Rattle.modules.specs.Modules.{first_full, module_made, card_made};
ghost use Rattle.writing.specs.Wrote.{Leaves, place_after, Within, saved_at, inner_at, declaration_at, declarations_at, body_at, mod_at};

use operation::Shortening;
use prefix::Scope;
use tables::Held;

// How long what was made is; the place of the first module whose table is full; the table that the words hold.
#[derive(Clone, Copy)]
pub struct Piece {
    pub length: usize,
    pub full: Option<usize>,
    pub held: Held,
}

// Puts the places of names, and one more, at the front of an array that is lent, since one that is answered is copied: one by one, since copy_from_slice
// needs memmove (`work::copy`).
fn extend(chain: &[usize], place: usize, names: &mut [usize; 48])
    requires { length chain.now < 48 }
    ensures { take (length chain.now + 1) names.new ≡ chain.now ++ (place ∷ []) }
{
    let n = chain.len();
    for i in 0..n {
        names[i] = chain[i];
    }
    names[n] = place;
}

// The first full table of two pieces.
fn first_full(a: Option<usize>, b: Option<usize>) -> Option<usize>
    ensures { place_after result ≡ first_full (place_after a) (place_after b) }
{
    a.or(b)
}

// A module: a Mod that is at most left deep is written anew, unless its table is full; anything else is left.
#[cycle(write_body_write_declaration_write_declarations_write_inner_write_mod_write_module_write_saved)]
fn write_module(
    scope: &Scope<'_>,
    at: usize,
    to: usize,
    left: usize,
    out: &mut [u8],
    work: &mut [u32],
    held: Held,
) -> Piece
    requires { Within at to scope.now.card.now scope.now.chain.now left }
    ensures { Leaves out.old out.new work.new result
        (module_made scope.now.op scope.now.card.now scope.now.root.now left scope.now.chain.now (span at to) held.owner (table held.pairs work.old)) }
{
    let r = wire::part(scope.card, at, to - at);
    if left == 0 {
        laying::lay(r, out, 0);
        return Piece {
            length: r.len(),
            full: None,
            held,
        };
    }
    if reader::record_kind(r) != 0x60 {
        laying::lay(r, out, 0);
        return Piece {
            length: r.len(),
            full: None,
            held,
        };
    }
    let mut names: [usize; 48] = [0; 48];
    extend(scope.chain, fields::name_place(scope.card, at), &mut names);
    let n = scope.chain.len() + 1;
    let inner = Scope {
        chain: &names[..n],
        ..*scope
    };
    let own = tables::table_of(&inner, at, left, work, held);
    if chains::room(work) < own.pairs {
        return Piece {
            length: 0,
            full: Some(at),
            held: own,
        };
    }
    write_mod(&inner, at, to, left, out, work, own.pairs)
}

// A Mod whose table the words hold: what stands ahead of its body, and the body, in the part of out behind that. Its length is written once they are.
#[cycle(write_body_write_declaration_write_declarations_write_inner_write_mod_write_module_write_saved)]
fn write_mod(
    scope: &Scope<'_>,
    at: usize,
    to: usize,
    left: usize,
    out: &mut [u8],
    work: &mut [u32],
    pairs: usize,
) -> Piece
    requires { Within at to scope.now.card.now scope.now.chain.now (left - 1) × (0 < left) × (left ≤ 48) }
    ensures { Leaves out.old out.new work.new result
        (mod_at scope.now.op scope.now.card.now scope.now.root.now left scope.now.chain.now at to pairs work.old) }
{
    let c = reader::content(wire::part(scope.card, at, to - at));
    let body = reader::rest(reader::rest(reader::rest(c)));
    let f = c.len() - body.len();
    laying::lay(wire::part(c, 0, f), out, 6);
    let q = laying::least(f + 6, out.len());
    let b = write_body(scope, at, at + 6 + f, to, left, &mut out[q..], work, pairs);
    let n = f + b.length;
    heads::lay_head(n + 2, 0x60, out, 0);
    Piece {
        length: n + 6,
        full: b.full,
        held: b.held,
    }
}

// A body, from a place to the module's end: its uses, then its declarations, each in the part of out behind what is there.
#[cycle(write_body_write_declaration_write_declarations_write_inner_write_mod_write_module_write_saved)]
fn write_body(
    scope: &Scope<'_>,
    at: usize,
    from: usize,
    to: usize,
    left: usize,
    out: &mut [u8],
    work: &mut [u32],
    pairs: usize,
) -> Piece
    requires { Within 0 to scope.now.card.now scope.now.chain.now (left - 1) × (0 < left) × (left ≤ 48) × (from ≤ 65542) }
    ensures { Leaves out.old out.new work.new result
        (body_at scope.now.op scope.now.card.now scope.now.root.now left scope.now.chain.now at from to pairs work.old) }
{
    let q = laying::least(6, out.len());
    let k = tables::own_words(work, pairs);
    let u = importing::write_imports(scope, &work[..k], pairs, &mut out[q..]);
    let p = laying::least(u + 6, out.len());
    let d = write_declarations(scope, at, from + 6, to, left, &mut out[p..], work, pairs);
    let n = u + d.length;
    heads::lay_head(n + 2, 2, out, 0);
    Piece {
        length: n + 6,
        full: d.full,
        held: d.held,
    }
}

// The declarations from one place to another.
#[cycle(write_body_write_declaration_write_declarations_write_inner_write_mod_write_module_write_saved)]
fn write_declarations(
    scope: &Scope<'_>,
    at: usize,
    from: usize,
    to: usize,
    left: usize,
    out: &mut [u8],
    work: &mut [u32],
    pairs: usize,
) -> Piece
    requires { Within 0 to scope.now.card.now scope.now.chain.now (left - 1) × (0 < left) × (left ≤ 48) × (from ≤ 65548) }
    ensures { Leaves out.old out.new work.new result
        (declarations_at scope.now.op scope.now.card.now scope.now.root.now left scope.now.chain.now at from to pairs work.old) }
{
    let mut i = from;
    let mut p = 0;
    let mut full = None;
    let mut held = Held { owner: at, pairs };
    while i < to {
        let s = wire::part(scope.card, i, to - i);
        if reader::is_short(s) {
            return Piece {
                length: p,
                full,
                held,
            };
        }
        let next = i + 4 + reader::record_length(s);
        let q = laying::least(p, out.len());
        let d = write_declaration(scope, at, i, next, left, &mut out[q..], work, held);
        p += d.length;
        full = first_full(full, d.full);
        held = d.held;
        i = next;
    }
    Piece {
        length: p,
        full,
        held,
    }
}

// A declaration of the module at a place that holds a small module, which goes to the part of out behind the declaration's head. It borrows the last words,
// which may be those of the table of the module at the place: they are put aside, and put back after.
#[cycle(write_body_write_declaration_write_declarations_write_inner_write_mod_write_module_write_saved)]
fn write_saved(
    scope: &Scope<'_>,
    at: usize,
    from: usize,
    to: usize,
    left: usize,
    out: &mut [u8],
    work: &mut [u32],
    pairs: usize,
) -> Piece
    requires { Within (from + 6) to scope.now.card.now scope.now.chain.now left × (left ≤ 48)
        × (is_small (table pairs work.old) (to - from) ≡ true) }
    ensures { Leaves out.old out.new work.new result
        (saved_at scope.now.op scope.now.card.now scope.now.root.now left scope.now.chain.now at (span from to) pairs work.old) }
{
    let q = laying::least(6, out.len());
    let n = 4 * ((to - from) / 18);
    let k = work.len() - n;
    let mut aside: [u32; 256] = [0; 256];
    work::copy(&work[k..], &mut aside);
    let m = write_module(
        scope,
        from + 6,
        to,
        left,
        &mut out[q..],
        &mut work[k..],
        tables::NONE,
    );
    work::copy(&aside[..n], &mut work[k..]);
    heads::lay_head(m.length + 2, 0x62, out, 0);
    Piece {
        length: m.length + 6,
        full: m.full,
        held: Held { owner: at, pairs },
    }
}

// The same of a module of any size. Where the words hold the table of the module at the place, a small one borrows the last of them, and one for which there is
// room gets those behind the table: the table stays. Else it has all words.
#[cycle(write_body_write_declaration_write_declarations_write_inner_write_mod_write_module_write_saved)]
fn write_inner(
    scope: &Scope<'_>,
    at: usize,
    from: usize,
    to: usize,
    left: usize,
    out: &mut [u8],
    work: &mut [u32],
    held: Held,
) -> Piece
    requires { Within (from + 6) to scope.now.card.now scope.now.chain.now left × (left ≤ 48) }
    ensures { Leaves out.old out.new work.new result
        (inner_at scope.now.op scope.now.card.now scope.now.root.now left scope.now.chain.now at (span from to) held.owner held.pairs work.old) }
{
    let q = laying::least(6, out.len());
    if tables::is_small_beside(work, held, at, to - from) {
        return write_saved(scope, at, from, to, left, out, work, held.pairs);
    }
    if tables::has_room_beside(work, held, at, to - from) {
        let k = tables::own_words(work, held.pairs);
        let b = write_module(
            scope,
            from + 6,
            to,
            left,
            &mut out[q..],
            &mut work[k..],
            tables::NONE,
        );
        heads::lay_head(b.length + 2, 0x62, out, 0);
        return Piece {
            length: b.length + 6,
            full: b.full,
            held: Held {
                owner: at,
                pairs: held.pairs,
            },
        };
    }
    let m = write_module(scope, from + 6, to, left, &mut out[q..], work, held);
    heads::lay_head(m.length + 2, 0x62, out, 0);
    Piece {
        length: m.length + 6,
        full: m.full,
        held: m.held,
    }
}

// A declaration of the module at a place: one that holds no module needs the module's table.
#[cycle(write_body_write_declaration_write_declarations_write_inner_write_mod_write_module_write_saved)]
fn write_declaration(
    scope: &Scope<'_>,
    at: usize,
    from: usize,
    to: usize,
    left: usize,
    out: &mut [u8],
    work: &mut [u32],
    held: Held,
) -> Piece
    requires { Within (from + 6) to scope.now.card.now scope.now.chain.now (left - 1) × (0 < left) × (left ≤ 48) }
    ensures { Leaves out.old out.new work.new result
        (declaration_at scope.now.op scope.now.card.now scope.now.root.now left scope.now.chain.now at (span from to) held.owner held.pairs work.old) }
{
    let r = wire::part(scope.card, from, to - from);
    if reader::record_kind(r) == 0x62 {
        return write_inner(scope, at, from, to, left - 1, out, work, held);
    }
    let own = tables::table_of(scope, at, left, work, held);
    let k = tables::own_words(work, own.pairs);
    let n = replacing::replace(scope, &work[..k], r, left, out);
    Piece {
        length: n,
        full: None,
        held: own,
    }
}

// The whole card, given whose table the words hold.
pub fn write_card(
    op: Shortening,
    card: &[u8],
    root: &[u8],
    out: &mut [u8],
    work: &mut [u32],
    held: Held,
) -> Piece
    ensures { Leaves out.old out.new work.new result
        (card_made op card.now root.now held.owner (table held.pairs work.old)) }
{
    let n = card.len();
    if 65536 < n {
        return Piece {
            length: 0,
            full: None,
            held,
        };
    }
    let outermost = Scope {
        op,
        card,
        root,
        chain: &[],
    };
    write_module(&outermost, 0, n, 48, out, work, held)
}
