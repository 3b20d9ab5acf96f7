// Standard input as the text of cases: room for it, reading it, and what is said of a line that is no case and of a refusal.
#![tactic(auto)]

ghost use Rattle.std.specs.Prelude.{◌≡◌, ◌≤◌, length};
ghost use Rattle.std.specs.Counts.{IsPrefixLen};

use answers::Answer;
use std::io;
use std::io::Read;

// Room for the whole text of cases.
pub type Text = [u8; 2000000];

// So many zeros. Where they are a great many, a proof would follow the literal [0; N] number by number.
pub fn room<T: Copy + Default, const N: usize>() -> [T; N]
    ensures { length result ≡ N }
{
    [T::default(); N]
}

// Reads until text is full, the input ends or a read fails, and answers how many bytes it put at the front of text: std's read_exact doesn't say how many
// there are ahead of an end.
pub fn read_full(input: &mut impl Read, text: &mut [u8]) -> usize
    ensures { IsPrefixLen result text.new }
{
    let mut done = 0;
    while done < text.len() {
        match input.read(&mut text[done..]) {
            Ok(n) if 0 < n => done += n,
            _ => break,
        }
    }
    done
}

// Puts all of standard input at the front of text and answers how many bytes that are. Where there are none, or too many, standard error says
// so, and there are none.
pub fn read_text(rt: &(impl Input + Eprint), text: &mut [u8]) -> usize
    ensures { IsPrefixLen result text.new }
{
    let n = read_full(&mut rt.reader(), text);
    if n == 0 {
        let _ = eprintln!(rt;
            "no cases: give them on standard input, one to a line, as ROOT CARD WORDS"
        );
    }
    if n == text.len() {
        let _ = eprintln!(rt; "too many cases: give fewer than 2000000 bytes at once");
        return 0;
    }
    n
}

// Stands for what a line that is no case would say.
pub fn no_case(rt: &impl Print) -> io::Result<()> {
    println!(rt; "no case: write ROOT CARD WORDS, the first two in hexadecimal, - for no bytes")
}

const DIGITS: &[u8; 16] = b"0123456789abcdef";

// Bytes in hexadecimal, 1024 at a time; - for none.
pub fn say_bytes(rt: &impl Print, s: &[u8]) -> io::Result<()> {
    if s.is_empty() {
        return rt.write_all(b"-");
    }
    let mut text = [[0u8; 2]; 1024];
    for part in s.chunks(1024) {
        for (b, pair) in part.iter().zip(&mut text) {
            *pair = [DIGITS[usize::from(b / 16)], DIGITS[usize::from(b % 16)]];
        }
        rt.write_all(text[..part.len()].as_flattened())?;
    }
    Ok(())
}

// A refusal: its number and its place.
pub fn say_refusal(rt: &impl Print, a: Answer) -> io::Result<()> {
    println!(rt; "{} {}", answers::number(a), answers::value(a))
}
