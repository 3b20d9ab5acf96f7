// What is said of a call before its card is walked: the first of refusals 1 to 7 and 11, or sound. No work word is touched.
#![tactic(auto)]

ghost use Rattle.std.specs.Prelude.{◌≡◌};
ghost use Rattle.rast.specs.Operation.{upstream};
ghost use Rattle.outcome.specs.Outcome.{admitted};
ghost use Rattle.admission.specs.Plain.{is_plain, is_extern};

use answers::{Refusal, Verdict};

// Whether a root is one record that holds nothing: Global, Crate or Self.
fn is_plain(root: &[u8]) -> bool
    ensures { result ≡ is_plain root.now }
{
    if root.len() != 6 {
        return false;
    }
    if reader::record_length(root) != 2 {
        return false;
    }
    let k = reader::record_kind(root);
    if k < 0x10 {
        return false;
    }
    k <= 0x12
}

// Whether a card is an ExternMod and its name, and nothing more.
fn is_extern(card: &[u8]) -> bool
    ensures { result ≡ is_extern card.now }
{
    let n = card.len();
    if n < 12 {
        return false;
    }
    if reader::record_kind(card) != 0x61 {
        return false;
    }
    if reader::record_length(card) + 4 != n {
        return false;
    }
    let name = &card[6..];
    if reader::record_length(name) + 10 != n {
        return false;
    }
    reader::record_kind(name) == 0x01
}

// Of a card, a root and as many work words as this.
pub fn admit(card: &[u8], root: &[u8], words: usize) -> Verdict
    ensures { result ≡ admitted upstream card.now root.now words }
{
    if words < 2048 {
        return Err(Refusal::ShortWork);
    }
    if 32768 < card.len() {
        return Err(Refusal::LongCard);
    }
    if 256 < root.len() {
        return Err(Refusal::BadRoot);
    }
    // No table of rows is made for these.
    if is_plain(root) {
        if is_extern(card) {
            return Ok(());
        }
    }
    reading::read_both(root, card)
}
