// Reading: sound, or the first fault of 4 to 7 and 11 with its place. One pass over the bytes, nothing copied.
#![tactic(auto)]

ghost use Rattle.std.specs.Prelude.{◌≡◌, ◌^◌, ◌<◌, ◌≤◌, length};
ghost use Rattle.wire.specs.Numbers.{between};
ghost use Rattle.records.specs.Kinds.{mod', path};
ghost use Rattle.records.specs.Reading.{reading};
ghost use Rattle.rows.specs.Codes.{place_of, table};
ghost use Rattle.reading.specs.Reads.{reads, root_then};
ghost use Rattle.reading.specs.Codes.{row_content, row_after, row_ends, row_in, Good};

use answers::{Refusal, Verdict};

// What a record holds is a row: a byte for the place of each field, the first the lowest; or this and the number of a place, for any number
// of records there. Here and below, t is the table of rows.
const MANY: u64 = 4611686018427387904;

// The row of a record of kind k that stands at place p and is not empty.
fn row_in(p: usize, k: usize, t: &[u64; 135]) -> u64
    requires { (p < 96) × (t.now ≡ table) }
    ensures { result ≡ row_in p k }
{
    if 64 <= p {
        return (p - 64) as u64;
    }
    if 32 <= p {
        return MANY + (p - 32) as u64;
    }
    rows::row_at(t, k)
}

// What is left of a row after one record.
fn row_after(row: u64) -> u64
    ensures { result ≡ row_after row }
{
    if MANY <= row {
        return row;
    }
    row / 256
}

// Whether a row asks for no more.
fn may_end(row: u64) -> bool
    ensures { result ≡ row_ends row }
{
    if MANY <= row {
        return true;
    }
    row % 256 == 0
}

// The bytes of the card from one place to another, as the content of a row whose records may go this deep. A record that ends its parent is read on with,
// not entered. What may_stand found out of the place is used right behind it, so that it is branched on once; depth is tested in either branch.
fn read_content(
    card: &[u8],
    from: usize,
    to: usize,
    first: u64,
    deep: usize,
    t: &[u64; 135],
) -> Verdict
    requires { (Good first) × (from ≤ to) × (to ≤ length card.now) × (to < 2 ^ 60) × (t.now ≡ table) }
    ensures { result ≡ reads deep (row_content first) from (between card.now from to) }
{
    let mut i = from;
    let mut row = first;
    let mut left = deep;
    // A while: a record is as long as it says, and the last of its parent is gone on with in the same loop.
    while i < to {
        let p = (row % 256) as usize;
        if p == 0 {
            return Err(Refusal::LeftOver(i));
        }
        let s = &card[i..to];
        if reader::is_short(s) {
            return Err(Refusal::ShortRecord(i));
        }
        let k = reader::record_kind(s);
        if !rows::may_stand(p, k) {
            return Err(Refusal::WrongKind(i));
        }
        let e = i + 4 + reader::record_length(s);
        let after = row_after(row);
        if p < 4 {
            if left == 0 {
                return Err(Refusal::TooDeep(i));
            }
            if rows::is_nameless(p, k, &card[i + 6..e]) {
                return Err(Refusal::NoName(i));
            }
            i = e;
            row = after;
            continue;
        }
        let inner = row_in(p, k, t);
        if left == 0 {
            return Err(Refusal::TooDeep(i));
        }
        if e == i + 6 {
            if !may_end(rows::row_at(t, k)) {
                return Err(Refusal::ShortRecord(e));
            }
            i = e;
            row = after;
            continue;
        }
        if e == to {
            if may_end(after) {
                i += 6;
                row = inner;
                left -= 1;
                continue;
            }
        }
        read_content(card, i + 6, e, inner, left - 1, t)?;
        i = e;
        row = after;
    }
    if may_end(row) {
        return Ok(());
    }
    Err(Refusal::ShortRecord(i))
}

// Exactly one record at place p, at most limit deep. Of what follows it one byte is looked at.
fn read_one(s: &[u8], p: u64, limit: usize, t: &[u64; 135]) -> Verdict
    requires { (0 < p) × (p < 32) × (t.now ≡ table) }
    ensures { result ≡ reading limit (place_of p) s.now }
{
    let e = 5 + reader::record_length(s);
    read_content(s, 0, s.len().min(e), p, limit, t)
}

// A card: one Mod or ExternMod, at most 48 deep.
pub fn read_card(card: &[u8]) -> Verdict
    ensures { result ≡ reading 48 mod' card.now }
{
    let t = rows::table();
    read_one(card, 7, 48, &t)
}

// A root: one Path, at most 8 deep.
pub fn read_root(root: &[u8]) -> Verdict
    ensures { result ≡ reading 8 path root.now }
{
    let t = rows::table();
    read_one(root, 4, 8, &t)
}

// A root and then a card, by one table of rows.
pub fn read_both(root: &[u8], card: &[u8]) -> Verdict
    ensures { result ≡ root_then (reading 8 path root.now) (reading 48 mod' card.now) }
{
    let t = rows::table();
    let v = read_one(root, 4, 8, &t);
    match v {
        Ok(()) => read_one(card, 7, 48, &t),
        Err(_) => Err(Refusal::BadRoot),
    }
}
