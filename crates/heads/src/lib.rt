// The head of a record laid over the out buffer, before its content or once that is there.
#![tactic(auto)]

ghost use Rattle.std.specs.Prelude.{◌≡◌};
ghost use Rattle.laying.specs.Lays.{lay};
ghost use Rattle.heads.specs.Heads.{head_bytes};

// The six bytes of a head: four of the length, two of the kind.
fn head(n: usize, k: usize) -> [u8; 6]
    ensures { result ≡ head_bytes n k }
{
    let [a, b, c, d, ..] = n.to_le_bytes();
    let [e, f, ..] = k.to_le_bytes();
    [a, b, c, d, e, f]
}

// The head of a record: its length, of which four bytes are kept, and its kind. Where it has room it is two stores, and otherwise laid as far as out reaches.
pub fn lay_head(n: usize, k: usize, out: &mut [u8], at: usize)
    ensures { out.new ≡ lay out.old at (head_bytes n k) }
{
    let head = head(n, k);
    if 6 <= out.len() && at <= out.len() - 6 {
        out[at..at + 6].copy_from_slice(&head);
    } else {
        laying::lay(&head, out, at);
    }
}
