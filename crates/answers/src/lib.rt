// The answers of document 01, "The console's answers", and those that the requests of 02 add: the length of the output, or a refusal, a case for each row of
// its table.
#![tactic(auto)]

ghost use Rattle.std.specs.Prelude.{◌≡◌};
ghost use Rattle.answers.specs.Answers.{number as answers_number, value as answers_value, packed as answers_packed};

#[derive(Clone, Copy, PartialEq, Eq)]
pub enum Refusal {
    ShortWork,
    LongCard,
    BadRoot,
    // these, to FullTable, and NoName with the place; the others at place 0
    ShortRecord(usize),
    WrongKind(usize),
    TooDeep(usize),
    LeftOver(usize),
    FullTable(usize),
    NoSpace,
    ShortList,
    NoName(usize),
}

// Acceptance, with the output's length, or a refusal.
pub type Answer = Result<usize, Refusal>;

// What reading says of bytes; it refuses by ShortRecord, WrongKind, TooDeep, LeftOver and NoName alone.
pub type Verdict = Result<(), Refusal>;

// The number of an answer in 01's table; 0 is acceptance.
pub fn number(a: Answer) -> usize
    ensures { result ≡ answers_number a }
{
    match a {
        Ok(_) => 0,
        Err(Refusal::ShortWork) => 1,
        Err(Refusal::LongCard) => 2,
        Err(Refusal::BadRoot) => 3,
        Err(Refusal::ShortRecord(_)) => 4,
        Err(Refusal::WrongKind(_)) => 5,
        Err(Refusal::TooDeep(_)) => 6,
        Err(Refusal::LeftOver(_)) => 7,
        Err(Refusal::FullTable(_)) => 8,
        Err(Refusal::NoSpace) => 9,
        Err(Refusal::ShortList) => 10,
        Err(Refusal::NoName(_)) => 11,
    }
}

// Its length or place.
pub fn value(a: Answer) -> usize
    ensures { result ≡ answers_value a }
{
    match a {
        Ok(length) => length,
        Err(Refusal::ShortWork | Refusal::LongCard | Refusal::BadRoot) => 0,
        Err(Refusal::ShortRecord(place)) => place,
        Err(Refusal::WrongKind(place)) => place,
        Err(Refusal::TooDeep(place)) => place,
        Err(Refusal::LeftOver(place)) => place,
        Err(Refusal::FullTable(place)) => place,
        Err(Refusal::NoSpace) => 0,
        Err(Refusal::ShortList) => 0,
        Err(Refusal::NoName(place)) => place,
    }
}

// Both in one number, for programs in Rust and C: the number times 2 ^ 32, plus the length or place, of which the lower 32 bits are kept.
pub fn packed(a: Answer) -> u64
    ensures { result ≡ answers_packed a }
{
    let n = number(a) as u64;
    let p = value(a) as u64;
    n * 4294967296 + p % 4294967296
}
