// Pairs in work words, four to a pair. A link is half a word, 0 for none, and is handed on so: as an Option it would be taken apart and put together at each step.
// The words of a pair: where the name stands in the card, how long it is, the base, and a link. Pairs are numbered from 1; 0 is none.
// Above a name's place stands the number of the name, which spares most comparisons of names. Pairs whose names' numbers are in the same bucket are
// chained, the newest first: the lower half of a pair's fourth word is the number of the next one, the upper half that of the first pair of the bucket that has
// this word's number.
#![tactic(auto)]

ghost use Rattle.std.specs.Prelude.{◌≡◌, ◌<◌};
ghost use Rattle.chains.specs.Chains.{room as chains_room, bucket_of, head_of, next_of};

// How many pairs words have room for: the number of a pair fits a half word.
pub fn room(work: &[u32]) -> usize
    ensures { result ≡ chains_room work.now }
{
    let n = work.len() / 4;
    if 65535 < n {
        return 65535;
    }
    n
}

// The bucket of names that have a number. Nothing is divided by the room: that would take as long as the rest of a lookup's arithmetic.
pub fn bucket(work: &[u32], number: usize) -> usize
    ensures { result ≡ bucket_of work.now number }
{
    number % 65536 * room(work) / 65536
}

// The newest pair of a bucket.
pub fn head(work: &[u32], b: usize) -> usize
    ensures { (result ≡ head_of work.now b) × (result < 65536) }
{
    if b < room(work) {
        let k = 4 * b + 3;
        return wire::word(work[k]) / 65536;
    }
    0
}

// The pair after pair g in its chain. A link that does not fall is none, so every chain ends.
pub fn next(work: &[u32], g: usize) -> usize
    ensures { result ≡ next_of work.now g }
{
    if g == 0 {
        return 0;
    }
    if room(work) < g {
        return 0;
    }
    let k = 4 * g - 1;
    let l = wire::word(work[k]) % 65536;
    if l < g {
        return l;
    }
    0
}

// A name that is sought, and the number that it has.
#[derive(Clone, Copy)]
pub struct Name<'a> {
    pub bytes: &'a [u8],
    pub number: usize,
}

// What is sought of a pair beside its name.
#[derive(Clone, Copy)]
pub enum Want {
    // nothing
    Named,
    // this base, as a word
    Based(usize),
    // ::dafny_runtime, as a path of the card
    Runtime,
}
