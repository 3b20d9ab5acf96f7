// What is written where a path's type or expression stands: the short name, or the record as it is.
#![tactic(auto)]

ghost use Rattle.std.specs.Prelude.{◌≡◌, ◌^◌, ◌≤◌, length};
ghost use Rattle.records.specs.Record.{record_bytes};
ghost use Rattle.prefix.specs.Prefix.{scope_of};
ghost use Rattle.laying.specs.Lays.{Laid, lay};
ghost use Rattle.rewriting.specs.Shorts.{synonym_bytes, unfit as shorts_unfit, type_laid, expr_laid};

use prefix::Scope;

// TIdentifier or Identifier of a name, by its kind.
fn lay_named(name: &[u8], k: usize, out: &mut [u8], at: usize)
    requires { at ≤ 2 ^ 62 }
    ensures { out.new ≡ lay out.old at (record_bytes k (record_bytes 0x01 name.now)) }
{
    let n = name.len();
    heads::lay_head(n + 8, k, out, at);
    heads::lay_head(n + 2, 1, out, at + 6);
    laying::lay(name, out, at + 12);
}

// A record wrapped in w synonyms. The outermost's length comes first, and each in it is as much shorter as a synonym's head and display are long.
fn lay_synonyms(name: &[u8], r: &[u8], w: usize, out: &mut [u8], at: usize) -> usize
    requires { (length name.now ≤ 65536) × (length r.now ≤ 65536) × (w ≤ 65536) × (at ≤ 2 ^ 61) }
    ensures { Laid out.old at (synonym_bytes name.now w r.now) result out.new }
{
    let unit = name.len() + 18;
    let mut left = w * unit + r.len();
    let mut p = at;
    let mut j = w;
    while 0 < j {
        heads::lay_head(left - 4, 0x37, out, p);
        lay_named(name, 0x2C, out, p + 6);
        p += unit;
        left -= unit;
        j -= 1;
    }
    laying::lay(r, out, p);
    p + r.len()
}

// Whether a place, a count or a length is one that no card brings about.
fn unfit(at: usize, w: usize, n: usize) -> bool
    ensures { result ≡ shorts_unfit at w n }
{
    if 2305843009213693952 < at {
        return true;
    }
    if 65536 < w {
        return true;
    }
    65536 < n
}

// A TypeFromPath, wrapped w times where it is replaced, with its weight behind it.
pub fn write_type(
    scope: &Scope<'_>,
    work: &[u32],
    r: &[u8],
    w: usize,
    out: &mut [u8],
    at: usize,
) -> usize
    ensures { Laid out.old at (type_laid (scope_of scope.now)
        work.now at w r.now) result out.new }
{
    if unfit(at, w, r.len()) {
        return at;
    }
    if replacement::replaces_type(scope, work, r) {
        let end = lay_synonyms(replacement::name_in(r), r, w, out, at);
        let weight = operation::weight(scope.op);
        laying::lay_zeros(weight, out, end);
        return end + weight;
    }
    laying::lay(r, out, at);
    at + r.len()
}

// An ExprFromPath: Identifier of its whole name where it is replaced, so that a mark is kept, with its weight behind it.
pub fn write_expr(scope: &Scope<'_>, work: &[u32], r: &[u8], out: &mut [u8], at: usize) -> usize
    ensures { Laid out.old at (expr_laid (scope_of scope.now)
        work.now at r.now) result out.new }
{
    if unfit(at, 0, r.len()) {
        return at;
    }
    if replacement::replaces_expr(scope, work, r) {
        let name = replacement::name_in(r);
        let end = at + 12 + name.len();
        let weight = operation::weight(scope.op);
        lay_named(name, 0x42, out, at);
        laying::lay_zeros(weight, out, end);
        return end + weight;
    }
    laying::lay(r, out, at);
    at + r.len()
}
