// Shortens cards from standard input, one to a line, ROOT CARD WORDS, and writes the module that comes out with each synonym taken as its display, as
// the text's ToString has it: a Text in quotes, a Kept in hexadecimal, a List in brackets, any other record's fields in parentheses behind its kind.
#![tactic(auto)]

use operation::Pass;
use std::io;

// The record at the front of s.
#[cycle(say_record_say_records)]
fn say_record(rt: &impl Print, s: &[u8], left: usize) -> io::Result<()> {
    if left == 0 {
        return Ok(());
    }
    let content = reader::content(s);
    match reader::record_kind(s) {
        0x01 => {
            rt.write_all(b"'")?;
            rt.write_all(content)?;
            rt.write_all(b"'")
        }
        0x02 => {
            rt.write_all(b"[")?;
            say_records(rt, content, left - 1)?;
            rt.write_all(b"]")
        }
        0x03 => test_input::say_bytes(rt, content),
        0x37 => say_record(rt, content, left - 1),
        kind => {
            test_input::say_bytes(rt, &[(kind % 256) as u8])?;
            rt.write_all(b"(")?;
            say_records(rt, content, left - 1)?;
            rt.write_all(b")")
        }
    }
}

// Records that stand one after the other.
#[cycle(say_record_say_records)]
fn say_records(rt: &impl Print, s: &[u8], left: usize) -> io::Result<()> {
    let mut rest = s;
    while !rest.is_empty() {
        if reader::is_short(rest) {
            return Ok(());
        }
        if rest.len() < s.len() {
            rt.write_all(b" ")?;
        }
        say_record(rt, rest, left)?;
        rest = reader::rest(rest);
    }
    Ok(())
}

fn shorten(rt: &impl Print, card: &[u8], root: &[u8]) -> io::Result<()> {
    let mut out = [0u8; 65536];
    let mut work = [0u32; 2048];
    match shortening::shorten(Pass::Upstream, card, root, &mut out, &mut work) {
        Ok(n) => {
            say_record(rt, wire::part(&out, 0, n), 100)?;
            rt.write_all(b"\n")
        }
        refusal => test_input::say_refusal(rt, refusal),
    }
}

fn case(rt: &impl Print, line: &[u8]) -> io::Result<()> {
    let mut root = [0u8; 300];
    let mut card = [0u8; 33000];
    match test_text::take_apart(line, &mut root, &mut card) {
        Some(case) => shorten(rt, &card[..case.card], &root[..case.root]),
        None => test_input::no_case(rt),
    }
}

// The lines of the text, one after the other.
fn lines(rt: &impl Print, text: &[u8]) -> io::Result<()> {
    let mut rest = text;
    while !rest.is_empty() {
        let line = test_text::line_at(rest, 0);
        case(rt, line)?;
        rest = test_text::past(rest, line.len());
    }
    Ok(())
}

fn main(rt: HostRuntime) -> io::Result<()> {
    let mut text: test_input::Text = test_input::room();
    let n = test_input::read_text(&rt, &mut text);
    lines(&rt, &text[..n])
}
