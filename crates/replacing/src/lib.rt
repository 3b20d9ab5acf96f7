// Replacing within a declaration: functions for a function, an expression, a type, and for any record and its parts, call each other in a ring, the remaining
// depth falling. The module's table is only read. What is written goes to out from a place on, as far as out reaches; the answer is the place where it ends.
#![tactic(auto)]

ghost use Rattle.std.specs.Prelude.{◌≡◌, suc, ◌≤◌};
ghost use Rattle.records.specs.Record.{kind_of};
ghost use Rattle.factor_paths.specs.Walk.{a_type, an_expr, step_of, deeper as walk_deeper};
ghost use Rattle.prefix.specs.Prefix.{scope_of};
ghost use Rattle.laying.specs.Lays.{Laid};
ghost use Rattle.rewriting.specs.Rewrites.{rewrite, parts, kept, function, declaration};
ghost use Rattle.replacing.specs.Room.{Room};

use prefix::Scope;

// The records of a content. One that holds nothing is left, whatever its kind: the ring is not gone round for it.
#[cycle(replace_expr_replace_fn_replace_kept_replace_parts_replace_record_replace_type)]
fn replace_parts(
    scope: &Scope<'_>,
    work: &[u32],
    c: &[u8],
    again: bool,
    w: usize,
    left: usize,
    out: &mut [u8],
    at: usize,
) -> usize
    requires { Room at (parts (scope_of scope.now) work.now left again w c.now) w left c.now }
    ensures { Laid out.old at
        (parts (scope_of scope.now) work.now left again w c.now)
        result out.new }
{
    let mut i = 0;
    let mut p = at;
    while i < c.len() {
        let s = wire::part(c, i, c.len());
        if reader::is_short(s) {
            return p;
        }
        let n = 4 + reader::record_length(s);
        if n == 6 {
            heads::lay_head(2, reader::record_kind(s), out, p);
            p += 6;
            i += n;
            continue;
        }
        p = replace_record(scope, work, wire::part(c, i, n), again, w, left, out, p);
        i += n;
    }
    p
}

// A record that is kept, with its parts replaced. Its length is written once its content is.
#[cycle(replace_expr_replace_fn_replace_kept_replace_parts_replace_record_replace_type)]
fn replace_kept(
    scope: &Scope<'_>,
    work: &[u32],
    r: &[u8],
    again: bool,
    w: usize,
    left: usize,
    out: &mut [u8],
    at: usize,
) -> usize
    requires { Room at (kept (scope_of scope.now) work.now left again w r.now) w left r.now }
    ensures { Laid out.old at
        (kept (scope_of scope.now) work.now left again w r.now)
        result out.new }
{
    let e = replace_parts(scope, work, reader::content(r), again, w, left, out, at + 6);
    heads::lay_head(e - at - 4, reader::record_kind(r), out, at);
    e
}

// A type: the path of a TypeFromPath, and what any other holds.
#[cycle(replace_expr_replace_fn_replace_kept_replace_parts_replace_record_replace_type)]
fn replace_type(
    scope: &Scope<'_>,
    work: &[u32],
    r: &[u8],
    again: bool,
    w: usize,
    left: usize,
    out: &mut [u8],
    at: usize,
) -> usize
    requires room { Room at (rewrite (scope_of scope.now) work.now (suc left) again w r.now) w (suc left) r.now }
    requires step { step_of (kind_of r.now) ≡ a_type }
    ensures { Laid out.old at
        (rewrite (scope_of scope.now) work.now (suc left) again w r.now)
        result out.new }
{
    if reader::record_kind(r) == 0x2D {
        return shortnames::write_type(scope, work, r, w, out, at);
    }
    replace_kept(scope, work, r, again, deeper(again, w), left, out, at)
}

// An expression: the path of an ExprFromPath, and what any other holds.
#[cycle(replace_expr_replace_fn_replace_kept_replace_parts_replace_record_replace_type)]
fn replace_expr(
    scope: &Scope<'_>,
    work: &[u32],
    r: &[u8],
    again: bool,
    w: usize,
    left: usize,
    out: &mut [u8],
    at: usize,
) -> usize
    requires room { Room at (rewrite (scope_of scope.now) work.now (suc left) again w r.now) w (suc left) r.now }
    requires step { step_of (kind_of r.now) ≡ an_expr }
    ensures { Laid out.old at
        (rewrite (scope_of scope.now) work.now (suc left) again w r.now)
        result out.new }
{
    if reader::record_kind(r) == 0x5C {
        return shortnames::write_expr(scope, work, r, out, at);
    }
    replace_kept(scope, work, r, again, deeper(again, w), left, out, at)
}

// A Fn: from its formals on, what is around a type is counted.
#[cycle(replace_expr_replace_fn_replace_kept_replace_parts_replace_record_replace_type)]
fn replace_fn(
    scope: &Scope<'_>,
    work: &[u32],
    r: &[u8],
    left: usize,
    out: &mut [u8],
    at: usize,
) -> usize
    requires room { Room at (function (scope_of scope.now) work.now left r.now) 1 left r.now }
    requires kind { kind_of r.now ≡ 0x7D }
    ensures { Laid out.old at
        (function (scope_of scope.now) work.now left r.now)
        result out.new }
{
    let c = reader::content(r);
    let counted = reader::rest(reader::rest(c));
    let uncounted = wire::part(c, 0, c.len() - counted.len());
    let p = replace_parts(scope, work, uncounted, false, 1, left, out, at + 6);
    let e = replace_parts(
        scope,
        work,
        counted,
        operation::walks_again(scope.op),
        1,
        left,
        out,
        p,
    );
    heads::lay_head(e - at - 4, 0x7D, out, at);
    e
}

// One more where types are counted.
fn deeper(again: bool, w: usize) -> usize
    requires { w ≤ 65536 }
    ensures { result ≡ walk_deeper again w }
{
    if again {
        return w + 1;
    }
    w
}

// One record, at most left deep.
#[cycle(replace_expr_replace_fn_replace_kept_replace_parts_replace_record_replace_type)]
fn replace_record(
    scope: &Scope<'_>,
    work: &[u32],
    r: &[u8],
    again: bool,
    w: usize,
    left: usize,
    out: &mut [u8],
    at: usize,
) -> usize
    requires { Room at (rewrite (scope_of scope.now) work.now left again w r.now) w left r.now }
    ensures { Laid out.old at
        (rewrite (scope_of scope.now) work.now left again w r.now)
        result out.new }
{
    if left == 0 {
        laying::lay(r, out, at);
        return at + r.len();
    }
    let k = reader::record_kind(r);
    if steps::stands(0x20, 0x38, k) {
        return replace_type(scope, work, r, again, w, left - 1, out, at);
    }
    if steps::stands(0x40, 0x5E, k) {
        return replace_expr(scope, work, r, again, w, left - 1, out, at);
    }
    if k == 0x7D {
        return replace_fn(scope, work, r, left - 1, out, at);
    }
    if steps::is_left(k) {
        laying::lay(r, out, at);
        return at + r.len();
    }
    replace_kept(scope, work, r, again, w, left - 1, out, at)
}

// A declaration, at the front of out; answers how long it is.
pub fn replace(scope: &Scope<'_>, work: &[u32], r: &[u8], left: usize, out: &mut [u8]) -> usize
    ensures { Laid out.old 0 (declaration (scope_of scope.now)
        work.now left r.now)
        result out.new }
{
    if 65536 < r.len() {
        return 0;
    }
    if 48 < left {
        return 0;
    }
    replace_record(scope, work, r, false, 1, left, out, 0)
}
