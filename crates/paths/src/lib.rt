// Paths as the bytes of their records: two paths are the same when their bytes are. And the mark of a name.
#![tactic(auto)]

ghost use Rattle.std.specs.Prelude.{◌≡◌};
ghost use Rattle.wire.specs.Numbers.{same_bytes};
ghost use Rattle.records.specs.Record.{encode};
ghost use Rattle.rast.specs.Path.{Self, dafny_runtime};
ghost use Rattle.factor_paths.specs.PathsVisitor.{marked};

const SELF: [u8; 6] = [2, 0, 0, 0, 0x12, 0];

// The record of ::dafny_runtime.
const RUNTIME: &[u8; 31] = b"\x1b\0\0\0\x13\0\x02\0\0\0\x10\0\x0f\0\0\0\x01\0dafny_runtime";

pub fn is_self(path: &[u8]) -> bool
    ensures { result ≡ same_bytes path.now (encode Self) }
{
    wire::same(path, &SELF)
}

pub fn is_runtime(path: &[u8]) -> bool
    ensures { result ≡ same_bytes path.now (encode dafny_runtime) }
{
    wire::same(path, RUNTIME)
}

// Whether a name ends in '!'.
pub fn is_marked(name: &[u8]) -> bool
    ensures { result ≡ marked name.now }
{
    name.last() == Some(&b'!')
}
