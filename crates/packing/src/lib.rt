// The public calls with their answers as one number, for a host: a refusal's number times 2 ^ 32, plus the output's length or the place.
#![tactic(auto)]

ghost use Rattle.std.specs.Prelude.{◌≡◌, cond, ◌<◌, ◌^◌, eqb};
ghost use Rattle.answers.specs.Answers.{number, packed};
ghost use Rattle.shortening_places.specs.Placed.{answer_in, entries_in};
ghost use Rattle.packing.specs.Packed.{PackedAlone, PackedPromise};
ghost use Rattle.packing.specs.PackedPlaces.{PackedPlacesAlone, PackedPlaces};

use answers::Refusal;
use operation::Pass;
use placing::Listed;

// With lent work words.
pub fn shorten(pass: Pass, card: &[u8], root: &[u8], out: &mut [u8], work: &mut [u32]) -> u64
    ensures { PackedPromise pass card.now root.now out.old work.old result out.new work.new }
{
    answers::packed(shortening::shorten(pass, card, root, out, work))
}

// With work words of its own.
pub fn shorten_alone(pass: Pass, card: &[u8], root: &[u8], out: &mut [u8]) -> u64
    ensures { PackedAlone pass card.now root.now out.old result out.new }
{
    answers::packed(shortening_alone::shorten_alone(pass, card, root, out))
}

// An answer with the number of entries of its list, which is put into a lent word; a refusal leaves that.
fn pack(r: Result<Listed, Refusal>, entries: &mut u32) -> u64
    requires { entries_in r < 2 ^ 32 }
    ensures { (result ≡ packed (answer_in r)) × (entries.new ≡ cond (eqb (number (answer_in r)) 0) (entries_in r) entries.old) }
{
    match r {
        Ok(listed) => {
            *entries = listed.entries as u32;
            answers::packed(Ok(listed.length))
        }
        Err(refusal) => answers::packed(Err(refusal)),
    }
}

// With lent work words and a list of places.
pub fn shorten_places(
    pass: Pass,
    card: &[u8],
    root: &[u8],
    out: &mut [u8],
    work: &mut [u32],
    list: &mut [u32],
    entries: &mut u32,
) -> u64
    ensures { PackedPlaces pass card.now root.now out.old work.old list.old entries.old
        result out.new work.new list.new entries.new }
{
    pack(
        shortening_places::shorten_places(pass, card, root, out, work, list),
        entries,
    )
}

// With work words of its own and a list of places.
pub fn shorten_places_alone(
    pass: Pass,
    card: &[u8],
    root: &[u8],
    out: &mut [u8],
    list: &mut [u32],
    entries: &mut u32,
) -> u64
    ensures { PackedPlacesAlone pass card.now root.now out.old list.old entries.old
        result out.new list.new entries.new }
{
    pack(
        shortening_places_alone::shorten_places_alone(pass, card, root, out, list),
        entries,
    )
}
