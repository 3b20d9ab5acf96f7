// What a record's kind says of its fields: which are entered in collecting, and which has a declaration's own name.
#![tactic(auto)]

ghost use Rattle.std.specs.Prelude.{◌≡◌, ◌+◌, ◌^◌, ◌≤◌, ◌<◌};
ghost use Rattle.factor_paths.specs.Collects.{enters};
ghost use Rattle.fields.specs.Fields.{offset_of, trait_name_at, name_at, name_place};

// Whether field i of a record of kind k is entered: of a TSynonym its display alone, of a Struct all but its fields, of an Impl all but its type
// parameters; of a TypeFromPath, an ExprFromPath, a ModDecl and a UseDecl nothing; of any other all.
pub fn is_entered(k: usize, i: usize) -> bool
    ensures { result ≡ enters k i }
{
    match k {
        0x37 => i == 0,
        0x70 => i != 4,
        0x7A => i != 0,
        0x2D | 0x5C | 0x62 | 0x6A => false,
        _ => true,
    }
}

// Where record i of s starts.
fn offset_of(s: &[u8], i: usize) -> usize
    requires { i ≤ 3 }
    ensures { (result ≡ offset_of i s.now) × (result < 2 ^ 40) }
{
    let mut o = 0;
    for _ in 0..i {
        o += 4 + reader::record_length(wire::part(s, o, s.len()));
    }
    o
}

// Where in s the Text of a trait's name starts, given where its type starts; 0 where it has none.
fn trait_name_at(s: &[u8], o: usize) -> usize
    requires { o < 2 ^ 40 + 6 }
    ensures { (result ≡ trait_name_at o s.now) × (result < 2 ^ 41) }
{
    let t = wire::part(s, o, s.len());
    match reader::record_kind(t) {
        0x2C => o + 6,
        0x2E => {
            let base = reader::record_kind(wire::part(t, 6, t.len()));
            if base == 0x2C { o + 12 } else { 0 }
        }
        _ => 0,
    }
}

// Where in the content s of a declaration of kind k the Text of its own name starts; 0 where it has none.
pub fn name_at(s: &[u8], k: usize) -> usize
    ensures { (result ≡ name_at k s.now) × (result < 2 ^ 41) }
{
    let it = wire::part(s, 6, s.len());
    match k {
        0x62 => {
            let module = reader::record_kind(s);
            if module == 0x61 {
                6
            } else {
                6 + offset_of(it, 2)
            }
        }
        0x63..=0x66 => 6 + offset_of(it, 2),
        0x68 => trait_name_at(s, 6 + offset_of(it, 3)),
        0x69 => 12 + offset_of(it, 3),
        _ => 0,
    }
}

// Where the card has the Text of the name of the module at a place; 0 past its end.
pub fn name_place(card: &[u8], at: usize) -> usize
    ensures { result ≡ name_place card.now at }
{
    if at < card.len() {
        return at + name_at(wire::part(card, at, card.len()), 0x62);
    }
    0
}
