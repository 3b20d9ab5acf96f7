// What a walk does at a record, by its kind.
#![tactic(auto)]

ghost use Rattle.std.specs.Prelude.{◌≡◌};
ghost use Rattle.records.specs.Kinds.{kinds, stands as kinds_stands};
ghost use Rattle.steps.specs.Steps.{is_left};

// Whether a kind lies from one to another.
pub fn stands(from: usize, to: usize, k: usize) -> bool
    ensures { result ≡ kinds_stands (kinds from to) k }
{
    (from..=to).contains(&k)
}

// Whether a record is left as it is where paths are replaced: a Text, a Kept, a path, a module, a use.
pub fn is_left(k: usize) -> bool
    ensures { result ≡ is_left k }
{
    matches!(k, 1 | 3 | 0x10..=0x13 | 0x60..=0x62 | 0x6A | 0x80)
}
