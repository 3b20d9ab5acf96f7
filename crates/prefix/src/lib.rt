// Whether a path is a module's prefix, without writing the prefix out.
#![tactic(auto)]

ghost use Rattle.std.specs.Prelude.{◌≡◌};
ghost use Rattle.wire.specs.Numbers.{same_bytes};
ghost use Rattle.operation.specs.Operations.{operation_of};
ghost use Rattle.prefix.specs.Prefix.{is_selection, twice, scope_of, prefix_in};

use operation::Shortening;

// What a module's names and bases are read in: which shortening, the card, the root, and the places of the names of the modules around it and of its own.
#[derive(Clone, Copy)]
pub struct Scope<'a> {
    pub op: Shortening,
    pub card: &'a [u8],
    pub root: &'a [u8],
    pub chain: &'a [usize],
}

// Whether a path is PMemberSelect of something and the name whose record this is. Its head comes last: most paths that are not end in another name.
fn selects(path: &[u8], name: &[u8]) -> bool
    ensures { result ≡ is_selection path.now name.now }
{
    let len = path.len();
    if len < 6 {
        return false;
    }
    if len - 6 < name.len() {
        return false;
    }
    let at = len - name.len();
    if !wire::same(&path[at..], name) {
        return false;
    }
    let a = len - 4;
    let b = a / 256;
    let c = b / 256;
    let d = c / 256;
    let head: [u8; 6] = [
        (a % 256) as u8,
        (b % 256) as u8,
        (c % 256) as u8,
        (d % 256) as u8,
        0x13,
        0,
    ];
    wire::same_few(&path[..6], &head)
}

// Whether the name of module i of a chain stands twice in the prefix.
fn stands_twice(op: Shortening, i: usize) -> bool
    ensures { result ≡ twice (operation_of op) i }
{
    if i == 0 {
        return false;
    }
    operation::names_again(op)
}

// From the last name to the first: most paths that are not the prefix differ in their last name.
pub fn is_prefix(scope: &Scope<'_>, path: &[u8]) -> bool
    ensures { result ≡ same_bytes path.now (prefix_in (scope_of scope.now)) }
{
    let mut from = 0;
    let mut to = path.len();
    let mut i = scope.chain.len();
    while 0 < i {
        i -= 1;
        let name = reader::record_at(scope.card, scope.chain[i]);
        if !selects(&path[from..to], name) {
            return false;
        }
        from += 6;
        to -= name.len();
        if stands_twice(scope.op, i) {
            if !selects(&path[from..to], name) {
                return false;
            }
            from += 6;
            to -= name.len();
        }
    }
    wire::same(&path[from..to], scope.root)
}
