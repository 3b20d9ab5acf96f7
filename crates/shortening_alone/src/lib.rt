// The public call with work words of its own: fewer where the card can't have as many pairs as 2048 have room for.
#![tactic(auto)]

ghost use Rattle.std.specs.Prelude.{◌/◌, ◌≤◌, min, length};
ghost use Rattle.chains.specs.Chains.{room};
ghost use Rattle.shortening.specs.Shortened.{Alone, Admitted};

use answers::Answer;
use operation::Pass;

// By words that have room for all the pairs that the card can have, or for 512, and for no more than 512. A pair takes 18 bytes of a card.
fn shorten_by(pass: Pass, card: &[u8], root: &[u8], out: &mut [u8], work: &mut [u32]) -> Answer
    requires { Admitted card.now root.now × (min (length card.now / 18) 512 ≤ room work.old) × (room work.old ≤ 512) }
    ensures { Alone pass card.now root.now out.old result out.new }
{
    let w = measuring::write(operation::plain(pass), card, root, out, work);
    shortening::answer_of(w, out.len())
}

// By N work words: fewer are made, and fewer buckets cleared, than a large card needs.
fn shorten_with<const N: usize>(pass: Pass, card: &[u8], root: &[u8], out: &mut [u8]) -> Answer
    requires { Admitted card.now root.now × (min (length card.now / 18) 512 ≤ N / 4) × (N / 4 ≤ 512) }
    ensures { Alone pass card.now root.now out.old result out.new }
{
    let mut work = [0; N];
    shorten_by(pass, card, root, out, &mut work)
}

// With work words of its own: what `shorten` answers with 2048. They are made once the card is admitted, and nobody sees them after the call.
pub fn shorten_alone(pass: Pass, card: &[u8], root: &[u8], out: &mut [u8]) -> Answer
    ensures { Alone pass card.now root.now out.old result out.new }
{
    admission::admit(card, root, 2048)?;
    if card.len() < 90 {
        return shorten_with::<16>(pass, card, root, out);
    }
    if card.len() < 594 {
        return shorten_with::<128>(pass, card, root, out);
    }
    if card.len() < 2322 {
        return shorten_with::<512>(pass, card, root, out);
    }
    shorten_with::<2048>(pass, card, root, out)
}
