// The public call with a lent list of places and work words of its own: fewer where the card can't have as many pairs as 2048 have room for.
#![tactic(auto)]

ghost use Rattle.std.specs.Prelude.{◌/◌, ◌≤◌, min, length};
ghost use Rattle.chains.specs.Chains.{room};
ghost use Rattle.shortening.specs.Shortened.{Admitted};
ghost use Rattle.shortening_places.specs.Placed.{Alone};

use answers::Refusal;
use operation::Pass;
use placing::Listed;

// By words that have room for all the pairs that the card can have, or for 512, and for no more than 512. A pair takes 18 bytes of a card.
fn shorten_by(
    pass: Pass,
    card: &[u8],
    root: &[u8],
    out: &mut [u8],
    work: &mut [u32],
    list: &mut [u32],
) -> Result<Listed, Refusal>
    requires { Admitted card.now root.now × (min (length card.now / 18) 512 ≤ room work.old) × (room work.old ≤ 512) }
    ensures { Alone pass card.now root.now out.old list.old result out.new list.new }
{
    placing::write_places(pass, card, root, out, work, list)
}

// By N work words: fewer are made, and fewer buckets cleared, than a large card needs.
fn shorten_with<const N: usize>(
    pass: Pass,
    card: &[u8],
    root: &[u8],
    out: &mut [u8],
    list: &mut [u32],
) -> Result<Listed, Refusal>
    requires { Admitted card.now root.now × (min (length card.now / 18) 512 ≤ N / 4) × (N / 4 ≤ 512) }
    ensures { Alone pass card.now root.now out.old list.old result out.new list.new }
{
    let mut work = [0; N];
    shorten_by(pass, card, root, out, &mut work, list)
}

// With work words of its own: what `shorten_places` answers with 2048. They are made once the card is admitted, and nobody sees them after the call.
pub fn shorten_places_alone(
    pass: Pass,
    card: &[u8],
    root: &[u8],
    out: &mut [u8],
    list: &mut [u32],
) -> Result<Listed, Refusal>
    ensures { Alone pass card.now root.now out.old list.old result out.new list.new }
{
    admission::admit(card, root, 2048)?;
    if card.len() < 594 {
        return shorten_with::<128>(pass, card, root, out, list);
    }
    shorten_with::<2048>(pass, card, root, out, list)
}
