// Which operation a caller asks for, and which one a walk is of. The code takes these values; the definitions speak of the Operation that they stand for.
#![tactic(auto)]

ghost use Rattle.std.specs.Prelude.{◌≡◌};
ghost use Rattle.operation.specs.Operations.{operation_of, weight_of, plain_of, weighed_of};

// What a caller asks for.
#[derive(Clone, Copy, Debug, PartialEq, Eq)]
pub enum Pass {
    // the operation that the Dafny text defines
    Upstream,
    // straight shortening: a nested module under its true path, a path type wrapped exactly once
    Straight,
}

// What a walk does: a pass, and the same to be measured, where every changed point has a weight, so that a length also says how many there are.
#[derive(Clone, Copy, Debug, PartialEq, Eq)]
pub enum Shortening {
    Upstream,
    Straight,
    WeighedUpstream,
    WeighedStraight,
}

// A pass without weights.
pub fn plain(pass: Pass) -> Shortening
    ensures { result ≡ plain_of pass }
{
    match pass {
        Pass::Upstream => Shortening::Upstream,
        Pass::Straight => Shortening::Straight,
    }
}

// A pass with them.
pub fn weighed(pass: Pass) -> Shortening
    ensures { result ≡ weighed_of pass }
{
    match pass {
        Pass::Upstream => Shortening::WeighedUpstream,
        Pass::Straight => Shortening::WeighedStraight,
    }
}

// Whether the name of a nested module is added to its prefix once more.
pub fn names_again(op: Shortening) -> bool
    ensures { result ≡ (operation_of op).names_again }
{
    match op {
        Shortening::Upstream | Shortening::WeighedUpstream => true, // ReplaceModDecl adds it, and so does PathSimplifier
        Shortening::Straight | Shortening::WeighedStraight => false, // its own name alone
    }
}

// Whether what is around a type in a Fn is counted.
pub fn walks_again(op: Shortening) -> bool
    ensures { result ≡ (operation_of op).walks_again }
{
    match op {
        Shortening::Upstream | Shortening::WeighedUpstream => true, // ReplaceFn hands on functions that walk again
        Shortening::Straight | Shortening::WeighedStraight => false, // wrapped once
    }
}

// How many bytes a changed point counts for beyond its own.
pub fn weight(op: Shortening) -> usize
    ensures { result ≡ weight_of op }
{
    match op {
        Shortening::Upstream | Shortening::Straight => 0,
        Shortening::WeighedUpstream | Shortening::WeighedStraight => 1 << 24,
    }
}
