// The list of places: card and output are walked side by side, and an entry is put where a name is shortened and for each use put ahead. The walk stops at a
// shortened name. An entry that the list has no room for is counted and not put.
#![tactic(auto)]

ghost use Rattle.std.specs.Prelude.{◌≡◌, ◌&&◌, cond, [], ◌∷◌, ◌+◌, ◌-◌, ◌*◌, ◌^◌, ◌<◌, ◌≤◌, length, take, drop, eqb};
ghost use Rattle.laying.specs.Lays.{Laid, lay};
ghost use Rattle.places.specs.Places.{entry_words};
ghost use Rattle.rewriting.specs.Rewrites.{parts_of, body_of};
ghost use Rattle.listing.specs.Lists.{uses_from, end_of, besides, besides_body, record_places, card_places};

// A word of the list.
fn put_word(list: &mut [u32], i: usize, w: u32)
    ensures { list.new ≡ lay list.old i (w ∷ []) }
{
    if i < list.len() {
        list[i] = w;
    }
}

// Entry n: an offset and a mark.
fn put(list: &mut [u32], n: usize, at: usize, mark: u32)
    requires { (at < 2 ^ 32) × (n ≤ 2 ^ 32) }
    ensures { list.new ≡ lay list.old (2 * n) (at ∷ (mark ∷ [])) }
{
    put_word(list, 2 * n, at as u32);
    put_word(list, 2 * n + 1, mark);
}

// How many records stand in some bytes.
fn count(c: &[u8]) -> usize
    ensures { result ≡ length (parts_of c.now) }
{
    let mut n = 0;
    let mut i = 0;
    while i < c.len() {
        let s = &c[i..];
        if reader::is_short(s) {
            return n;
        }
        i += 4 + reader::record_length(s);
        n += 1;
    }
    n
}

// By how many records d has more than c.
fn more(c: &[u8], d: &[u8]) -> usize
    ensures { result ≡ length (parts_of d.now) - length (parts_of c.now) }
{
    count(d).saturating_sub(count(c))
}

// The first m records of d, which stand from an offset on, as uses; answers where they end in d.
fn list_uses(d: &[u8], m: usize, at: usize, list: &mut [u32], n: usize) -> usize
    requires { (at + length d.now ≤ 2 ^ 32) × (n + length d.now ≤ 2 ^ 32) × (m ≤ length (parts_of d.now)) }
    ensures { (m ≤ result) × (result ≤ length d.now) × (parts_of (drop result d.now) ≡ drop m (parts_of d.now))
        × (at + result ≡ end_of at (take m (parts_of d.now)))
        × (list.new ≡ lay list.old (2 * n) (entry_words (uses_from at (take m (parts_of d.now))))) }
{
    let mut i = 0;
    for j in 0..m {
        put(list, n + j, at + i, 3);
        i += 4 + reader::record_length(&d[i..]);
    }
    i
}

// The records of a content beside those of another, which stand from an offset on; entry n comes first. Answers how many entries there are then.
#[cycle(list_module_list_parts_list_record)]
fn list_parts(c: &[u8], d: &[u8], at: usize, left: usize, list: &mut [u32], n: usize) -> usize
    requires { (at + length d.now + 6 * left ≤ 2 ^ 32) × (n + length d.now ≤ 2 ^ 32) }
    ensures { (result ≤ n + length d.now) × Laid list.old (2 * n)
        (entry_words (besides (record_places left) at (parts_of c.now) (parts_of d.now))) (2 * result) list.new }
{
    let mut i = 0;
    let mut j = 0;
    let mut m = n;
    while i < c.len() {
        let r = &c[i..];
        let s = &d[j..];
        if reader::is_short(r) {
            return m;
        }
        if reader::is_short(s) {
            return m;
        }
        let x = 4 + reader::record_length(r);
        let y = 4 + reader::record_length(s);
        m = list_record(&r[..x], &s[..y], at + j, left, list, m);
        i += x;
        j += y;
    }
    m
}

// The content of a Mod's body.
fn body(r: &[u8]) -> &[u8]
    ensures { result.now ≡ body_of r.now }
{
    reader::content(reader::rest(reader::rest(reader::rest(reader::content(r)))))
}

// A Mod beside another: of its body's records, those by which the output's are more are uses put ahead.
#[cycle(list_module_list_parts_list_record)]
fn list_module(r: &[u8], s: &[u8], at: usize, left: usize, list: &mut [u32], n: usize) -> usize
    requires { (at + length s.now + 6 * left ≤ 2 ^ 32) × (n + length s.now ≤ 2 ^ 32) }
    ensures { (result ≤ n + length s.now) × Laid list.old (2 * n)
        (entry_words (besides_body (record_places left) (at + (length s.now - length (body_of s.now)))
        (parts_of (body_of r.now)) (parts_of (body_of s.now)))) (2 * result) list.new }
{
    let c = body(r);
    let d = body(s);
    let p = at + (s.len() - d.len());
    let m = more(c, d);
    let e = list_uses(d, m, p, list, n);
    list_parts(c, &d[e..], p + e, left, list, n + m)
}

// The mark of a record of kind k that became one of kind j, by its name; 0 where it has none.
fn mark(k: usize, j: usize) -> u32
    ensures { result ≡ cond (eqb k 0x2D && eqb j 0x37) 1 (cond (eqb k 0x5C && eqb j 0x42) 2 0) }
{
    match (k, j) {
        (0x2D, 0x37) => 1,
        (0x5C, 0x42) => 2,
        _ => 0,
    }
}

// A record beside another at an offset.
#[cycle(list_module_list_parts_list_record)]
fn list_record(r: &[u8], s: &[u8], at: usize, left: usize, list: &mut [u32], n: usize) -> usize
    requires { (at + length s.now + 6 * left ≤ 2 ^ 32) × (n + length s.now ≤ 2 ^ 32) }
    ensures { (result ≤ n + length s.now)
        × Laid list.old (2 * n) (entry_words (record_places left at r.now s.now)) (2 * result) list.new }
{
    if left == 0 {
        return n;
    }
    let k = reader::record_kind(r);
    if k == 1 {
        return n;
    }
    if k == 3 {
        return n;
    }
    let m = mark(k, reader::record_kind(s));
    if 0 < m {
        put(list, n, at, m);
        return n + 1;
    }
    if k == 0x60 {
        return list_module(r, s, at, left - 1, list, n);
    }
    list_parts(
        reader::content(r),
        reader::content(s),
        at + 6,
        left - 1,
        list,
        n,
    )
}

// Fills the list from its first word on; answers how many entries there are.
pub fn list_places(card: &[u8], out: &[u8], list: &mut [u32]) -> usize
    ensures { Laid list.old 0 (entry_words (card_places card.now out.now)) (2 * result) list.new }
{
    if 65536 < card.len() {
        return 0;
    }
    if 2147483648 < out.len() {
        return 0;
    }
    list_record(card, out, 0, 48, list, 0)
}
