// The calls for the console's editor, a host in Rust, and for its screen: numbers and slices alone. Each answers one number, a refusal's times 2 ^ 32, plus the
// output's length or the place. Those named `_work` are lent work words by the host, and more words let a module have more names; the others bring 2048 of
// their own. Those named `_places` fill a lent list, and put the number of its entries into a lent word.
#![tactic(auto)]

ghost use Rattle.operation.specs.declared.Pass.TheVariants.{Upstream, Straight};
ghost use Rattle.packing.specs.Packed.{PackedAlone, PackedPromise};
ghost use Rattle.packing.specs.PackedPlaces.{PackedPlacesAlone, PackedPlaces};

use operation::Pass;

// The calls are the C interface, so each has its own name: two that differ in the pass alone, too.

// The operation that the Dafny text defines.
#[unsafe(no_mangle)]
pub extern "C" fn vegashol_shorten(card: &[u8], root: &[u8], out: &mut [u8]) -> u64
    ensures { PackedAlone Upstream card.now root.now out.old result out.new }
{
    packing::shorten_alone(Pass::Upstream, card, root, out)
}

#[unsafe(no_mangle)]
pub extern "C" fn vegashol_shorten_work(
    card: &[u8],
    root: &[u8],
    out: &mut [u8],
    work: &mut [u32],
) -> u64
    ensures { PackedPromise Upstream card.now root.now out.old work.old
        result out.new work.new }
{
    packing::shorten(Pass::Upstream, card, root, out, work)
}

#[unsafe(no_mangle)]
pub extern "C" fn vegashol_shorten_places(
    card: &[u8],
    root: &[u8],
    out: &mut [u8],
    list: &mut [u32],
    entries: &mut u32,
) -> u64
    ensures { PackedPlacesAlone Upstream card.now root.now out.old list.old entries.old
        result out.new list.new entries.new }
{
    packing::shorten_places_alone(Pass::Upstream, card, root, out, list, entries)
}

#[unsafe(no_mangle)]
pub extern "C" fn vegashol_shorten_places_work(
    card: &[u8],
    root: &[u8],
    out: &mut [u8],
    work: &mut [u32],
    list: &mut [u32],
    entries: &mut u32,
) -> u64
    ensures { PackedPlaces Upstream card.now root.now out.old work.old list.old entries.old
        result out.new work.new list.new entries.new }
{
    packing::shorten_places(Pass::Upstream, card, root, out, work, list, entries)
}

// Straight shortening.
#[unsafe(no_mangle)]
pub extern "C" fn vegashol_straight(card: &[u8], root: &[u8], out: &mut [u8]) -> u64
    ensures { PackedAlone Straight card.now root.now out.old result out.new }
{
    packing::shorten_alone(Pass::Straight, card, root, out)
}

#[unsafe(no_mangle)]
pub extern "C" fn vegashol_straight_work(
    card: &[u8],
    root: &[u8],
    out: &mut [u8],
    work: &mut [u32],
) -> u64
    ensures { PackedPromise Straight card.now root.now out.old work.old
        result out.new work.new }
{
    packing::shorten(Pass::Straight, card, root, out, work)
}

#[unsafe(no_mangle)]
pub extern "C" fn vegashol_straight_places(
    card: &[u8],
    root: &[u8],
    out: &mut [u8],
    list: &mut [u32],
    entries: &mut u32,
) -> u64
    ensures { PackedPlacesAlone Straight card.now root.now out.old list.old entries.old
        result out.new list.new entries.new }
{
    packing::shorten_places_alone(Pass::Straight, card, root, out, list, entries)
}

#[unsafe(no_mangle)]
pub extern "C" fn vegashol_straight_places_work(
    card: &[u8],
    root: &[u8],
    out: &mut [u8],
    work: &mut [u32],
    list: &mut [u32],
    entries: &mut u32,
) -> u64
    ensures { PackedPlaces Straight card.now root.now out.old work.old list.old entries.old
        result out.new work.new list.new entries.new }
{
    packing::shorten_places(Pass::Straight, card, root, out, work, list, entries)
}
