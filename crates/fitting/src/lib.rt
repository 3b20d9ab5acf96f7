// Whether an output surely has room, and every table, before anything is written.
#![tactic(auto)]

ghost use Rattle.std.specs.Prelude.{◌≡◌, ◌&&◌, ◌*◌, ◌/◌, ◌^◌, ◌<◌, ◌≤◌, eqb, leb, ltb};
ghost use Rattle.size.specs.Bound.{times};
ghost use Rattle.operation.specs.Operations.{operation_of};
ghost use Rattle.prefix.specs.Prefix.{scope_of};
ghost use Rattle.chains.specs.Chains.{room};
ghost use Rattle.adding.specs.Adds.{table};
ghost use Rattle.fitting.specs.Fitting.{surely_fits, nested_few, use_most, uses_most, is_roomy};

use operation::Shortening;
use prefix::Scope;

// Whether the output of a card of so many bytes surely has room in so many.
fn is_wide(op: Shortening, card: usize, out: usize) -> bool
    ensures { result ≡ leb (times (operation_of op) * card) out }
{
    if operation::walks_again(op) {
        return card <= out / 42;
    }
    card <= out / 4
}

// By the card's length alone: how many times as long an output can be, and a pair takes 18 bytes of a card.
pub fn surely_fits(op: Shortening, card: &[u8], out: &[u8], work: &[u32]) -> bool
    ensures { result ≡ surely_fits op card.now out.now work.now }
{
    if is_wide(op, card.len(), out.len()) {
        return card.len() / 18 <= chains::room(work);
    }
    false
}

// Whether a declaration of kind k and n bytes can hold a module with more pairs than this.
fn is_many(k: usize, n: usize, most: usize) -> bool
    ensures { result ≡ (eqb k 0x62 && ltb most (n / 18)) }
{
    if k == 0x62 {
        return most < n / 18;
    }
    false
}

// Whether no module in a declaration of a card's Mod can have a table of more pairs than this.
fn has_few(card: &[u8], most: usize) -> bool
    ensures { result ≡ nested_few card.now most }
{
    let ahead = reader::content(card);
    let body = reader::content(reader::rest(reader::rest(reader::rest(ahead))));
    let end = body.len();
    let mut i = 0;
    while i < end {
        let s = &body[i..];
        if reader::is_short(s) {
            return true;
        }
        let n = 4 + reader::record_length(s);
        if is_many(reader::record_kind(s), n, most) {
            return false;
        }
        i += n;
    }
    true
}

// How long the use of the pair that i pairs stand ahead of can be at most: the base that is chosen for its name is not looked up.
fn use_most(card: &[u8], work: &[u32], i: usize) -> usize
    requires { i < room work.now }
    ensures { (result ≡ use_most card.now work.now i) × (result < 2 ^ 34) }
{
    let k = 4 * i;
    let place = wire::word(work[k + 2]) % 65536;
    if place == 0 {
        return 0;
    }
    let base = 4 + reader::record_length(wire::part(card, place, card.len()));
    31 + wire::word(work[k + 1]) + base
}

// And those of n pairs.
fn uses_most(card: &[u8], work: &[u32], n: usize) -> usize
    requires { n ≤ room work.now }
    ensures { result ≡ uses_most card.now work.now n }
{
    let mut sum: usize = 0;
    for i in 0..n {
        sum += use_most(card, work, i);
    }
    sum
}

// By the outermost module's table, which has so many pairs, where so many bytes are lent and what else can grow grows by so many.
pub fn is_roomy(scope: &Scope<'_>, lent: usize, work: &[u32], pairs: usize, grown: usize) -> bool
    ensures { result ≡ is_roomy (scope_of scope.now) lent grown (table pairs work.now) }
{
    let most = chains::room(work);
    if most < pairs {
        return false;
    }
    if lent < scope.card.len() {
        return false;
    }
    let over = lent - scope.card.len();
    if over < grown {
        return false;
    }
    let k = tables::own_words(work, pairs);
    if over - grown < uses_most(scope.card, &work[..k], pairs) {
        return false;
    }
    has_few(scope.card, most)
}
