// The output with the list of its changed points. Where the list surely suffices, the output is written and then listed. Else the walk that writes measures
// first, over an empty part of the out buffer, by the pass that gives each changed point a weight: its length says how long the output is and how many
// entries there are. The list is filled once the output is written.
#![tactic(auto)]

ghost use Rattle.std.specs.Prelude.{◌≡◌, []};
ghost use Rattle.placing.specs.Placing.{measured, weighed_made, placing, counted_first, listed_after, placed};

use answers::{Answer, Refusal};
use operation::Pass;

#[derive(Clone, Copy)]
pub struct Tally {
    pub length: usize,
    pub entries: usize,
}

// An acceptance: how long the output is, and how many entries the list has, two words each.
#[derive(Clone, Copy, PartialEq, Eq)]
pub struct Listed {
    pub length: usize,
    pub entries: usize,
}

// Leaves the out buffer.
fn measure(
    pass: Pass,
    card: &[u8],
    root: &[u8],
    out: &mut [u8],
    work: &mut [u32],
) -> Result<Tally, Refusal>
    ensures { (result ≡ measured (weighed_made pass card.now root.now work.old)) × (out.new ≡ out.old)
        × (work.new ≡ (weighed_made pass card.now root.now work.old).held.words) }
{
    let op = operation::weighed(pass);
    let m = writing::write_card(op, card, root, &mut out[..0], work, tables::NONE);
    if let Some(place) = m.full {
        return Err(Refusal::FullTable(place));
    }
    let n = m.length;
    Ok(Tally {
        length: n % 16777216,
        entries: n / 16777216,
    })
}

fn count_first(
    pass: Pass,
    card: &[u8],
    root: &[u8],
    out: &mut [u8],
    work: &mut [u32],
    list: &mut [u32],
) -> Result<Listed, Refusal>
    ensures { placing result out.new work.new list.new
        ≡ counted_first pass card.now root.now work.old list.old out.old }
{
    let t = measure(pass, card, root, out, work)?;
    let n = t.length;
    if out.len() < n {
        return Err(Refusal::NoSpace);
    }
    let k = t.entries;
    if list.len() / 2 < k {
        return Err(Refusal::ShortList);
    }
    writing::write_card(operation::plain(pass), card, root, out, work, tables::NONE);
    listing::list_places(card, &out[..n], list);
    Ok(Listed {
        length: n,
        entries: k,
    })
}

// What was written, listed.
fn list_after(written: Answer, card: &[u8], out: &[u8], list: &mut [u32]) -> Result<Listed, Refusal>
    ensures { placing result out.now [] list.new ≡ listed_after card.now written out.now [] list.old }
{
    let n = written?;
    if out.len() < n {
        return Err(Refusal::NoSpace);
    }
    let k = listing::list_places(card, &out[..n], list);
    Ok(Listed {
        length: n,
        entries: k,
    })
}

pub fn write_places(
    pass: Pass,
    card: &[u8],
    root: &[u8],
    out: &mut [u8],
    work: &mut [u32],
    list: &mut [u32],
) -> Result<Listed, Refusal>
    ensures { placing result out.new work.new list.new
        ≡ placed pass card.now root.now work.old list.old out.old }
{
    if card.len() / 6 <= list.len() {
        let w = measuring::write(operation::plain(pass), card, root, out, work);
        return list_after(w, card, out, list);
    }
    count_first(pass, card, root, out, work, list)
}
