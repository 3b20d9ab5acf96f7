// The public call: a card is admitted, and its output written where it has room; the work words are zero after it.
#![tactic(auto)]

ghost use Rattle.std.specs.Prelude.{◌≡◌};
ghost use Rattle.shortening.specs.Shortened.{answer_of, Promise};

use answers::{Answer, Refusal};
use operation::Pass;

// The answer to what was measured, with so many bytes lent for the output.
pub fn answer_of(written: Answer, lent: usize) -> Answer
    ensures { result ≡ answer_of written lent }
{
    let n = written?;
    if lent < n {
        return Err(Refusal::NoSpace);
    }
    Ok(n)
}

// A quarter as many pairs as there are work words may stand in a table, and at most 1024.
pub fn shorten(pass: Pass, card: &[u8], root: &[u8], out: &mut [u8], work: &mut [u32]) -> Answer
    ensures { Promise pass card.now root.now out.old work.old result out.new work.new }
{
    admission::admit(card, root, work.len())?;
    let used = work::for_table(work.len());
    let w = measuring::write(operation::plain(pass), card, root, out, &mut work[..used]);
    work::clear(work);
    answer_of(w, out.len())
}
