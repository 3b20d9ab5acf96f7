// The output is written at once where it surely has room. Else it is measured first, by the walk that writes it, over an empty part of the out buffer: a refusal
// leaves the buffer. What is answered is how long the output is, written or not, or the place of the first module whose table is full.
#![tactic(auto)]

ghost use Rattle.std.specs.Prelude.{◌≡◌, false};
ghost use Rattle.adding.specs.Adds.{table};
ghost use Rattle.fitting.specs.Fitting.{surely_fits};
ghost use Rattle.measuring.specs.Measured.{stays_whole, output, direct, in_two, whole_output};

use answers::{Answer, Refusal};
use operation::Shortening;
use prefix::Scope;
use tables::Held;

// Whether a card stays as it is: its places fit a half word, and its record is no Mod.
fn stays_whole(card: &[u8]) -> bool
    ensures { result ≡ stays_whole card.now }
{
    if 65536 < card.len() {
        return false;
    }
    reader::record_kind(card) != 0x60
}

// By the walk, given whose table the words hold. Its frame is apart: a card that stays as it is has no need of it.
#[inline(never)]
fn walk_at_once(
    op: Shortening,
    card: &[u8],
    root: &[u8],
    out: &mut [u8],
    work: &mut [u32],
    held: Held,
) -> Answer
    ensures { output result out.new work.new
        ≡ direct op card.now root.now held.owner (table held.pairs work.old) out.old }
{
    let w = writing::write_card(op, card, root, out, work, held);
    if let Some(place) = w.full {
        return Err(Refusal::FullTable(place));
    }
    Ok(w.length)
}

// Without measuring. A card that stays as it is goes round no ring.
fn write_at_once(
    op: Shortening,
    card: &[u8],
    root: &[u8],
    out: &mut [u8],
    work: &mut [u32],
    held: Held,
) -> Answer
    ensures { output result out.new work.new
        ≡ direct op card.now root.now held.owner (table held.pairs work.old) out.old }
{
    if stays_whole(card) {
        laying::lay(card, out, 0);
        return Ok(card.len());
    }
    walk_at_once(op, card, root, out, work, held)
}

// A card without nested modules is still collected once: the words hold its table when it is written.
fn measure_first(
    op: Shortening,
    card: &[u8],
    root: &[u8],
    out: &mut [u8],
    work: &mut [u32],
    held: Held,
) -> Answer
    ensures { output result out.new work.new
        ≡ in_two op card.now root.now held.owner (table held.pairs work.old) out.old }
{
    let m = writing::write_card(op, card, root, &mut out[..0], work, held);
    if let Some(place) = m.full {
        return Err(Refusal::FullTable(place));
    }
    let n = m.length;
    if out.len() < n {
        return Ok(n);
    }
    writing::write_card(op, card, root, out, work, m.held);
    Ok(n)
}

// The outermost module's table is collected first: its uses are then known, and whether the output surely has room. The same walk adds up what else can grow.
#[inline(never)]
fn survey_first(
    op: Shortening,
    card: &[u8],
    root: &[u8],
    out: &mut [u8],
    work: &mut [u32],
) -> Answer
    requires { surely_fits op card.now out.old work.old ≡ false }
    ensures { output result out.new work.new
        ≡ whole_output op card.now root.now work.old out.old }
{
    let chain: [usize; 1] = [fields::name_place(card, 0)];
    let scope = Scope {
        op,
        card,
        root,
        chain: &chain,
    };
    let mine = surveying::survey_card(&scope, work);
    tables::settle(work, mine.pairs);
    let held = Held {
        owner: 0,
        pairs: mine.pairs,
    };
    if fitting::is_roomy(&scope, out.len(), work, mine.pairs, mine.grown) {
        return write_at_once(op, card, root, out, work, held);
    }
    measure_first(op, card, root, out, work, held)
}

// A card that surely fits is written at once. What others need is no part of its frame, nor this a part of its callers'.
#[inline(never)]
pub fn write(op: Shortening, card: &[u8], root: &[u8], out: &mut [u8], work: &mut [u32]) -> Answer
    ensures { output result out.new work.new
        ≡ whole_output op card.now root.now work.old out.old }
{
    if fitting::surely_fits(op, card, out, work) {
        return write_at_once(op, card, root, out, work, tables::NONE);
    }
    survey_first(op, card, root, out, work)
}
