// Whether a path is replaced: whether the base chosen for its name, by the module's table, is its own.
#![tactic(auto)]

ghost use Rattle.std.specs.Prelude.{◌≡◌, ◌-◌, ◌<◌, ◌≤◌};
ghost use Rattle.operation.specs.Operations.{same_paths};
ghost use Rattle.prefix.specs.Prefix.{scope_of};
ghost use Rattle.comparing.specs.Compares.{place_in, base_at};
ghost use Rattle.chains.specs.Chains.{room, word_at};
ghost use Rattle.rewriting.specs.Replaces.{name_in, base_in, replaces as replaces_replaces, replaces_type, replaces_expr};

use chains::{Name, Want};
use prefix::Scope;

// Whether pair g has this base.
fn has_base(scope: &Scope<'_>, work: &[u32], g: usize, base: &[u8]) -> bool
    requires { (0 < g) × (g ≤ room work.now) }
    ensures { result ≡ same_paths scope.now.op (base_at (scope_of scope.now) (place_in (word_at work.now (g - 1))))
        base.now }
{
    let m = 4 * (g - 1) + 2;
    comparing::is_base(scope, wire::word(work[m]) % 65536, base)
}

// id in replacement && replacement[id] == base. Where a name has several bases, only the prefix or ::dafny_runtime is chosen: no other base is looked for.
fn replaces(scope: &Scope<'_>, work: &[u32], bytes: &[u8], base: &[u8]) -> bool
    ensures { result ≡ replaces_replaces (scope_of scope.now)
        work.now bytes.now base.now }
{
    let number = comparing::number(scope.op, bytes);
    let name = Name { bytes, number };
    let want = Want::Named;
    let first = chains::head(work, chains::bucket(work, name.number));
    let one = seeking::seek(scope, work, first, &name, want);
    if one == 0 {
        return false;
    }
    let after = chains::next(work, one);
    let two = seeking::seek(scope, work, after, &name, want);
    if two == 0 {
        return has_base(scope, work, one, base);
    }
    if !prefix::is_prefix(scope, base) {
        if !paths::is_runtime(base) {
            return false;
        }
    }
    let g = choosing::chosen(scope, work, &name);
    if g == 0 {
        return false;
    }
    has_base(scope, work, g, base)
}

// The name that the path of a TypeFromPath or an ExprFromPath ends in.
pub fn name_in(r: &[u8]) -> &[u8]
    ensures { result.now ≡ name_in r.now }
{
    let p = reader::content(reader::content(r));
    reader::content(reader::rest(p))
}

// The path that it is selected from.
fn base_in(r: &[u8]) -> &[u8]
    ensures { result.now ≡ base_in r.now }
{
    let p = reader::content(reader::content(r));
    reader::record(p)
}

// ReplaceTypeSingle: a TypeFromPath.
pub fn replaces_type(scope: &Scope<'_>, work: &[u32], r: &[u8]) -> bool
    ensures { result ≡ replaces_type (scope_of scope.now) work.now r.now }
{
    if reader::record_kind(reader::content(r)) != 0x13 {
        return false;
    }
    replaces(scope, work, name_in(r), base_in(r))
}

// ReplaceExprSingle: an ExprFromPath. The whole name is tried first, then the name without its mark.
pub fn replaces_expr(scope: &Scope<'_>, work: &[u32], r: &[u8]) -> bool
    ensures { result ≡ replaces_expr (scope_of scope.now) work.now r.now }
{
    if reader::record_kind(reader::content(r)) != 0x13 {
        return false;
    }
    let name = name_in(r);
    let base = base_in(r);
    if replaces(scope, work, name, base) {
        return true;
    }
    if !paths::is_marked(name) {
        return false;
    }
    let last = name.len() - 1;
    replaces(scope, work, &name[..last], base)
}
