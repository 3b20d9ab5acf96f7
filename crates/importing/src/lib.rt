// The uses put ahead of a module's body, in the order in which their names were first collected.
#![tactic(auto)]

ghost use Rattle.std.specs.Prelude.{◌^◌, ◌<◌, ◌≤◌, length};
ghost use Rattle.records.specs.Record.{record_bytes};
ghost use Rattle.operation.specs.Operations.{weight_bytes};
ghost use Rattle.prefix.specs.Prefix.{selection, scope_of};
ghost use Rattle.pairs.specs.Stored.{stored};
ghost use Rattle.pairs.specs.Choice.{use_bytes};
ghost use Rattle.choosing.specs.Picks.{uses_of};
ghost use Rattle.laying.specs.Lays.{Laid};
ghost use Rattle.rewriting.specs.Imports.{weighed_uses, imports_bytes};

use prefix::Scope;

// base.MSel(name). The base's bytes are those of its record in the card, ::dafny_runtime's too.
fn write_selection(name: &[u8], base: &[u8], out: &mut [u8], at: usize) -> usize
    requires { (length name.now ≤ 65536) × (length base.now ≤ 65536) × (at ≤ 2 ^ 62) }
    ensures { Laid out.old at (selection base.now (record_bytes 0x01 name.now)) result out.new }
{
    let p = at + 6 + base.len();
    heads::lay_head(base.len() + name.len() + 8, 0x13, out, at);
    laying::lay(base, out, at + 6);
    heads::lay_head(name.len() + 2, 1, out, p);
    laying::lay(name, out, p + 6);
    p + 6 + name.len()
}

// UseDecl(Use(PUB, base.MSel(name))).
fn write_use(name: &[u8], base: &[u8], out: &mut [u8], at: usize) -> usize
    requires { (length name.now ≤ 65536) × (length base.now ≤ 65536) × (at ≤ 2 ^ 61) }
    ensures { Laid out.old at (use_bytes (stored name.now base.now)) result out.new }
{
    let n = base.len() + name.len();
    let public: [u8; 1] = [1];
    heads::lay_head(n + 27, 0x6A, out, at);
    heads::lay_head(n + 21, 0x80, out, at + 6);
    heads::lay_head(3, 3, out, at + 12);
    laying::lay(&public, out, at + 18);
    write_selection(name, base, out, at + 19)
}

// The use that the pair which i pairs stand ahead of brings, if it brings one, with its weight behind it.
fn write_use_of(scope: &Scope<'_>, work: &[u32], i: usize, out: &mut [u8], at: usize) -> usize
    requires { (length scope.now.card.now ≤ 65536) × (i < 65536) × (at ≤ 2 ^ 61) }
    ensures { Laid out.old at (weighed_uses (weight_bytes scope.now.op) (uses_of (scope_of scope.now)
        work.now i 1)) result out.new }
{
    let c = choosing::use_of(scope, work, i + 1);
    if c == 0 {
        return at;
    }
    let k = 4 * i;
    let m = 4 * (c - 1) + 2;
    let name = wire::part(
        scope.card,
        wire::word(work[k]) % 65536,
        wire::word(work[k + 1]),
    );
    let base = reader::record_at(scope.card, wire::word(work[m]) % 65536);
    let end = write_use(name, base, out, at);
    let weight = operation::weight(scope.op);
    laying::lay_zeros(weight, out, end);
    end + weight
}

// Those of n pairs, at the front of out; answers how long they are.
pub fn write_imports(scope: &Scope<'_>, work: &[u32], n: usize, out: &mut [u8]) -> usize
    ensures { Laid out.old 0 (imports_bytes (scope_of scope.now)
        work.now n) result out.new }
{
    if 65536 < scope.card.len() {
        return 0;
    }
    if chains::room(work) < n {
        return 0;
    }
    let mut p = 0;
    for i in 0..n {
        p = write_use_of(scope, work, i, out, p);
    }
    p
}
