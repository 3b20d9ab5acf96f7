// What is added to the table at a record itself: the path of a type or an expression, and a declaration's own name. A record's content is the card's
// bytes from a place to another. A card so long that its places do not fit a half word adds nothing.
#![tactic(auto)]

ghost use Rattle.std.specs.Prelude.{◌≡◌, cond, length};
ghost use Rattle.factor_paths.specs.LookUp.{bare};
ghost use Rattle.prefix.specs.Prefix.{scope_of};
ghost use Rattle.adding.specs.Adds.{table};
ghost use Rattle.visiting.specs.Visits.{path_added, name_added};

use prefix::Scope;

// How long a name is as it is collected: that of an expression loses a final '!'.
fn name_length(name: &[u8], in_expr: bool) -> usize
    ensures { result ≡ length (cond in_expr (bare name.now) name.now) }
{
    let n = name.len();
    if !in_expr {
        return n;
    }
    if paths::is_marked(name) {
        return n - 1;
    }
    n
}

// VisitTypeSingle and VisitExprSingle: the path in the content of a TypeFromPath or an ExprFromPath, unless its base is Self.
pub fn add_path(
    scope: &Scope<'_>,
    from: usize,
    to: usize,
    in_expr: bool,
    work: &mut [u32],
    n: usize,
) -> usize
    ensures { table result work.new
        ≡ path_added (scope_of scope.now) in_expr (table n work.old) from to }
{
    if 65536 < scope.card.len() {
        return n;
    }
    if to < from {
        return n;
    }
    let c = wire::part(scope.card, from, to - from);
    if reader::record_kind(c) != 0x13 {
        return n;
    }
    let p = reader::content(c);
    if reader::is_short(p) {
        return n;
    }
    if paths::is_self(reader::record(p)) {
        return n;
    }
    let base = from + 6;
    let at = base + 10 + reader::record_length(p);
    let len = name_length(reader::content(reader::rest(p)), in_expr);
    adding::add(scope, work, n, at as u32, len as u32, base as u16)
}

// VisitModDeclSingle: the own name of a declaration of kind k with this content, with the prefix.
pub fn add_name(
    scope: &Scope<'_>,
    from: usize,
    to: usize,
    k: usize,
    work: &mut [u32],
    n: usize,
) -> usize
    ensures { table result work.new
        ≡ name_added (scope_of scope.now) k (table n work.old) from to }
{
    if 65536 < scope.card.len() {
        return n;
    }
    if to < from {
        return n;
    }
    let c = wire::part(scope.card, from, to - from);
    let o = fields::name_at(c, k);
    if o == 0 {
        return n;
    }
    if c.len() < o {
        return n;
    }
    let len = reader::content(wire::part(c, o, c.len())).len();
    adding::add(scope, work, n, (from + o + 6) as u32, len as u32, 0)
}
