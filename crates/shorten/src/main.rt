// Shortens the card on standard input, with crate as its root, and writes the output's bytes; a refusal is one line, `refused N at P`. Where
// standard input can't be read or standard output can't be written, standard error says so.
#![tactic(auto)]

use answers::Refusal;
use operation::Pass;
use std::io;
use std::io::Read;

// The Path record Crate.
const ROOT: [u8; 6] = [2, 0, 0, 0, 0x11, 0];

// The line of a refusal.
fn refuse(rt: &impl Print, refusal: Refusal) -> io::Result<()> {
    println!(rt;
        "refused {} at {}",
        answers::number(Err(refusal)),
        answers::value(Err(refusal))
    )
}

// The answer to a card.
fn shorten(rt: &impl Print, card: &[u8]) -> io::Result<()> {
    let mut out = [0u8; 65536];
    let mut work = [0u32; 4096];
    match shortening::shorten(Pass::Upstream, card, &ROOT, &mut out, &mut work) {
        Ok(n) => rt.write_all(wire::part(&out, 0, n)),
        Err(refusal) => refuse(rt, refusal),
    }
}

// The answer to the first n bytes of an array that is not full, or to an array that is full; more is what reading one byte more gave.
fn answer(
    rt: &(impl Print + Eprint),
    card: &[u8],
    n: usize,
    more: io::Result<usize>,
) -> io::Result<()> {
    match more {
        Ok(0) => shorten(rt, wire::part(card, 0, n)),
        Ok(_) if n == card.len() => refuse(rt, Refusal::LongCard),
        _ => {
            let _ = eprintln!(rt; "standard input can't be read");
            Ok(())
        }
    }
}

fn main(rt: HostRuntime) {
    let mut card = [0u8; 32768];
    let mut next = [0u8; 1];
    let mut input = rt.reader();
    let n = test_input::read_full(&mut input, &mut card);
    let more = input.read(&mut next);
    if answer(&rt, &card, n, more).is_err() {
        let _ = eprintln!(rt; "standard output can't be written");
    }
}
