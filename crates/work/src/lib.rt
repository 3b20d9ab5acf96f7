// The lent work words, of 32 bits.
#![tactic(auto)]

ghost use Rattle.std.specs.Prelude.{◌≡◌, length, replicate};
ghost use Rattle.work.specs.Copies.{over};
ghost use Rattle.work.specs.Taken.{for_table};

// How many of so many words a table may take.
pub fn for_table(lent: usize) -> usize
    ensures { result ≡ for_table lent }
{
    lent.min(4096)
}

// All of them zero.
pub fn clear(work: &mut [u32])
    ensures { work.new ≡ replicate (length work.old) 0 }
{
    work.fill(0);
}

// Words laid over others from the first on, as far as both reach. Not by copy_from_slice: that needs memmove, and the library asks C for memcpy and memset alone.
pub fn copy(from: &[u32], to: &mut [u32])
    ensures { to.new ≡ over from.now to.old }
{
    let end = from.len().min(to.len());
    for n in 0..end {
        to[n] = from[n];
    }
}
