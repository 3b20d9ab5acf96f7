// Bytes laid over the out buffer from a place on. What lies past its end is not written, so that a walk over an empty buffer measures.
#![tactic(auto)]

ghost use Rattle.std.specs.Prelude.{◌≡◌, ◌+◌, ◌-◌, ◌<◌, ◌≤◌, min, length, take, drop, replicate};
ghost use Rattle.laying.specs.Lays.{lay as lays_lay};

// The lesser of two numbers.
pub fn least(a: usize, b: usize) -> usize
    ensures { result ≡ min a b }
{
    a.min(b)
}

// The first n bytes, one a turn: copy_from_slice at any length needs memmove, and the library asks C for memcpy and memset alone.
fn lay_few(src: &[u8], n: usize, out: &mut [u8], at: usize)
    requires { (n ≡ min (length src.now) (length out.old - at)) × (at < length out.old) }
    ensures { out.new ≡ lays_lay out.old at src.now }
{
    for k in 0..n {
        out[at + k] = src[k];
    }
}

// Eight bytes of src, by an array of their own: the compiler then sees that they do not overlap, and makes one load and one store of them.
fn put_eight(src: &[u8], from: usize, out: &mut [u8], at: usize)
    requires { (from + 8 ≤ length src.now) × (at + 8 ≤ length out.old) }
    ensures { out.new ≡ lays_lay out.old at (take 8 (drop from src.now)) }
{
    let mut eight = [0; 8];
    eight.copy_from_slice(&src[from..from + 8]);
    out[at..at + 8].copy_from_slice(&eight);
}

// Eight bytes a turn, and the last eight, of which some may have been laid before.
pub fn lay(src: &[u8], out: &mut [u8], at: usize)
    ensures { out.new ≡ lays_lay out.old at src.now }
{
    if out.len() <= at {
        return;
    }
    let n = src.len().min(out.len() - at);
    if n < 8 {
        lay_few(src, n, out, at);
        return;
    }
    for i in 0..(n - 1) / 8 {
        put_eight(src, 8 * i, out, at + 8 * i);
    }
    let last = n - 8;
    put_eight(src, last, out, at + last);
}

// So many zero bytes.
pub fn lay_zeros(n: usize, out: &mut [u8], at: usize)
    ensures { out.new ≡ lays_lay out.old at (replicate n 0) }
{
    if out.len() <= at {
        return;
    }
    let end = at + n.min(out.len() - at);
    out[at..end].fill(0);
}
