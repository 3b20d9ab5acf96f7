// Whose table work words hold. A table that is the module's already is left, so what another module took is collected again only once it is needed again.
#![tactic(auto)]

ghost use Rattle.std.specs.Prelude.{◌≡◌, ◌&&◌, ◌*◌, min, length, eqb};
ghost use Rattle.prefix.specs.Prefix.{scope_of};
ghost use Rattle.adding.specs.Adds.{table};
ghost use Rattle.adding.specs.Settles.{settled_table};
ghost use Rattle.tables.specs.Tables.{table_of, has_room, is_small};

use prefix::Scope;

// The place in the card of the module whose table words hold, and how many pairs it has.
#[derive(Clone, Copy)]
pub struct Held {
    pub owner: usize,
    pub pairs: usize,
}

// No table: no module stands at a place that a half word does not hold.
pub const NONE: Held = Held {
    owner: 65537,
    pairs: 0,
};

// The chains of a table that is not full are set anew over its own words: those behind its pairs are free.
pub fn settle(work: &mut [u32], pairs: usize)
    ensures { table pairs work.new ≡ settled_table (table pairs work.old) }
{
    if chains::room(work) < pairs {
        return;
    }
    let m = 4 * pairs;
    adding::settle(&mut work[..m]);
}

// The table of the module at a place. Words that hold it already, as `held` says, are left: no record is walked. A table that is collected and not full
// is settled: the words behind its pairs are free.
pub fn table_of(scope: &Scope<'_>, at: usize, left: usize, work: &mut [u32], held: Held) -> Held
    ensures { (result.owner ≡ at) × (table result.pairs work.new
        ≡ table_of (scope_of scope.now) left at held.owner (table held.pairs work.old)) }
{
    if held.owner == at {
        return held;
    }
    let n = collecting::collect_module(scope, at, left, work);
    settle(work, n);
    Held {
        owner: at,
        pairs: n,
    }
}

// How many of the words the pairs of a table take: four each, as far as the words reach.
pub fn own_words(work: &[u32], pairs: usize) -> usize
    ensures { result ≡ min (4 * pairs) (length work.now) }
{
    let n = work.len();
    if n / 4 < pairs {
        return n;
    }
    4 * pairs
}

// Whether the words hold the table of the module at a place, and have room behind it for whatever so many bytes collect.
pub fn has_room_beside(work: &[u32], held: Held, at: usize, n: usize) -> bool
    ensures { result ≡ (eqb held.owner at && has_room (table held.pairs work.now) n) }
{
    if held.owner != at {
        return false;
    }
    let k = own_words(work, held.pairs);
    n / 18 <= chains::room(&work[k..])
}

// Whether the words hold the table of the module at a place, and so many bytes collect so few pairs that the last words can be put aside for them.
pub fn is_small_beside(work: &[u32], held: Held, at: usize, n: usize) -> bool
    ensures { result ≡ (eqb held.owner at && is_small (table held.pairs work.now) n) }
{
    if at != held.owner {
        return false;
    }
    let b = n / 18;
    if 64 < b {
        return false;
    }
    4 * b <= work.len()
}
