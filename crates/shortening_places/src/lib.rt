// The public call with a lent list of places.
#![tactic(auto)]

ghost use Rattle.shortening_places.specs.Placed.{Promise};

use answers::Refusal;
use operation::Pass;
use placing::Listed;

// A quarter as many pairs as there are work words may stand in a table, and at most 1024.
pub fn shorten_places(
    pass: Pass,
    card: &[u8],
    root: &[u8],
    out: &mut [u8],
    work: &mut [u32],
    list: &mut [u32],
) -> Result<Listed, Refusal>
    ensures { Promise pass card.now root.now out.old work.old list.old
        result out.new work.new list.new }
{
    admission::admit(card, root, work.len())?;
    let used = work::for_table(work.len());
    let r = placing::write_places(pass, card, root, out, &mut work[..used], list);
    work::clear(work);
    r
}
