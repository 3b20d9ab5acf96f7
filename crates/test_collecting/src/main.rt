// Reads cases from standard input, one to a line, ROOT CARD WORDS: the root's and the card's bytes in hexadecimal, - for none, and how many
// work words are lent. Writes for each what the outermost module collects: its pairs of name and base, the base chosen for each name, and the
// uses, each on a line, and then how many pairs there are; or the number and place of a refusal.
#![tactic(auto)]

ghost use Rattle.std.specs.Prelude.{◌<◌};

use answers::Refusal;
use chains::{Name, Want};
use operation::Shortening;
use prefix::Scope;
use std::io;

// Word i of pair g: where its name stands, how long it is, or its base; 0 where there is no such pair.
fn word_of(work: &[u32], g: usize, i: usize) -> usize
    requires { i < 4 }
{
    if g == 0 {
        return 0;
    }
    if chains::room(work) < g {
        return 0;
    }
    let k = 4 * (g - 1) + i;
    wire::word(work[k])
}

fn name_of<'a>(scope: &Scope<'a>, work: &[u32], g: usize) -> Name<'a> {
    let bytes = wire::part(scope.card, word_of(work, g, 0) % 65536, word_of(work, g, 1));
    let number = comparing::number(scope.op, bytes);
    Name { bytes, number }
}

// The base of pair g: the module's prefix, ::dafny_runtime, or a path's bytes. The lower half of its word is the path's place, 0 for the prefix.
fn say_base(rt: &impl Print, scope: &Scope<'_>, work: &[u32], g: usize) -> io::Result<()> {
    let at = word_of(work, g, 2) % 65536;
    if at == 0 {
        return rt.write_all(b"prefix\n");
    }
    let path = reader::record_at(scope.card, at);
    if prefix::is_prefix(scope, path) {
        return rt.write_all(b"prefix\n");
    }
    if paths::is_runtime(path) {
        return rt.write_all(b"runtime\n");
    }
    test_input::say_bytes(rt, path)?;
    rt.write_all(b"\n")
}

fn say_pair(rt: &impl Print, scope: &Scope<'_>, work: &[u32], g: usize) -> io::Result<()> {
    rt.write_all(b"pair ")?;
    test_input::say_bytes(rt, name_of(scope, work, g).bytes)?;
    rt.write_all(b" ")?;
    say_base(rt, scope, work, g)
}

// Whether no pair ahead of pair g has its name.
fn is_first(scope: &Scope<'_>, work: &[u32], g: usize) -> bool {
    let older = chains::next(work, g);
    seeking::seek(scope, work, older, &name_of(scope, work, g), Want::Named) == 0
}

// The base chosen for the name of pair g, where no pair ahead has it.
fn say_choice(rt: &impl Print, scope: &Scope<'_>, work: &[u32], g: usize) -> io::Result<()> {
    if !is_first(scope, work, g) {
        return Ok(());
    }
    let name = name_of(scope, work, g);
    rt.write_all(b"chosen ")?;
    test_input::say_bytes(rt, name.bytes)?;
    let c = choosing::chosen(scope, work, &name);
    if c == 0 {
        return rt.write_all(b" none\n");
    }
    rt.write_all(b" ")?;
    say_base(rt, scope, work, c)
}

// The use that pair g brings, if it brings one.
fn say_use(rt: &impl Print, scope: &Scope<'_>, work: &[u32], g: usize) -> io::Result<()> {
    let c = choosing::use_of(scope, work, g);
    if c == 0 {
        return Ok(());
    }
    rt.write_all(b"use ")?;
    test_input::say_bytes(rt, name_of(scope, work, g).bytes)?;
    rt.write_all(b" ")?;
    say_base(rt, scope, work, c)
}

// The pairs, the choices and the uses of a table of n pairs.
fn say_table(rt: &impl Print, scope: &Scope<'_>, table: &[u32], n: usize) -> io::Result<()> {
    for g in 1..=n {
        say_pair(rt, scope, table, g)?;
    }
    for g in 1..=n {
        say_choice(rt, scope, table, g)?;
    }
    for g in 1..=n {
        say_use(rt, scope, table, g)?;
    }
    rt.print(n)?;
    rt.write_all(b" pairs\n")
}

// The table of a sound card's outermost module, in the first 2048 of so many words or more.
fn collect_sound(rt: &impl Print, card: &[u8], root: &[u8], work: &mut [u32]) -> io::Result<()> {
    let Some(table) = work.get_mut(..2048) else {
        return Ok(());
    };
    let scope = Scope {
        op: Shortening::Upstream,
        card,
        root,
        chain: &[fields::name_place(card, 0)],
    };
    let n = collecting::collect_module(&scope, 0, 48, table);
    if 512 < n {
        return test_input::say_refusal(rt, Err(Refusal::FullTable(0)));
    }
    say_table(rt, &scope, table, n)
}

// A card's table, or its refusal.
fn collect(rt: &impl Print, card: &[u8], root: &[u8], work: &mut [u32]) -> io::Result<()> {
    match admission::admit(card, root, work.len()) {
        Ok(()) => collect_sound(rt, card, root, work),
        Err(refusal) => test_input::say_refusal(rt, Err(refusal)),
    }
}

// The same with so many of the work words lent, or all of them.
fn lend(
    rt: &impl Print,
    card: &[u8],
    root: &[u8],
    work: &mut [u32],
    words: usize,
) -> io::Result<()> {
    let n = words.min(work.len());
    collect(rt, card, root, &mut work[..n])
}

// One case. What is longer than its buffer fills it, and a full buffer is past its limit.
fn case(rt: &impl Print, line: &[u8]) -> io::Result<()> {
    let mut root = [0u8; 300];
    let mut card = [0u8; 33000];
    let mut work = [0u32; 4096];
    match test_text::take_apart(line, &mut root, &mut card) {
        Some(case) => lend(
            rt,
            &card[..case.card],
            &root[..case.root],
            &mut work,
            case.words,
        ),
        None => test_input::no_case(rt),
    }
}

// The lines of the text, one after the other.
fn lines(rt: &impl Print, text: &[u8]) -> io::Result<()> {
    let mut rest = text;
    while !rest.is_empty() {
        let line = test_text::line_at(rest, 0);
        case(rt, line)?;
        rest = test_text::past(rest, line.len());
    }
    Ok(())
}

fn main(rt: HostRuntime) -> io::Result<()> {
    let mut text: test_input::Text = test_input::room();
    let n = test_input::read_text(&rt, &mut text);
    lines(&rt, &text[..n])
}
