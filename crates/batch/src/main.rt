// Answers cases on standard input, line by line, ROOT CARD OUTLEN WORKLEN: the root's and the card's bytes in hexadecimal, - for none, and how many
// bytes of out buffer and work words are lent; what stands from ` = ` on is passed over. Writes a line for each: `0 LENGTH BYTES`, or a refusal's
// number and place. A line `old ROOT CARD OUTLEN WORKLEN PLACES` also lends a list of so many words, or none where PLACES is x; its acceptance ends in the
// number of entries and the list, or in `x x`. A line `straight ROOT CARD OUTLEN WORKLEN PLACES COUNTS` asks for straight shortening; COUNTS, a second list, is
// x, and its acceptance ends in `x x` for that.
#![tactic(auto)]

mod call;
mod memory;
mod question;

ghost use Rattle.std.specs.Prelude.{◌≡◌, ◌≤◌, length, IfOk};

use call::Call;
use memory::Lent;
use question::{Form, Question};
use std::io;
use std::io::Read;

// What stands ahead of ` = `, or all.
fn asked(line: &[u8]) -> &[u8] {
    let Some(n) = test_text::find(line, b'=') else {
        return line;
    };
    match line.split_at(n) {
        ([ahead @ .., b' '], [_, b' ', ..]) => ahead,
        _ => line,
    }
}

// The answer where a list of so many words is lent, or all there is. Its room is no part of the frame of a case without.
#[inline(never)]
fn answer_listed(rt: &impl Print, call: &Call, part: &mut Lent, places: usize) -> io::Result<()> {
    // a card's entries take fewer words than that
    let mut list: [u32; 65536] = test_input::room();
    let k = places.min(list.len());
    let mut listed = Lent {
        out: &mut *part.out,
        work: &mut *part.work,
        list: &mut list[..k],
    };
    call.say_answer(rt, &mut listed)
}

// What a line of this form asks, with so much lent, or all there is. The rooms are for the bytes that any field of a line says: a line that is no case has no need of them.
#[inline(never)]
fn answer(rt: &impl Print, form: Form, question: &Question, lent: &mut Lent) -> io::Result<()> {
    let mut root: [u8; 131072] = test_input::room();
    let mut card: [u8; 131072] = test_input::room();
    let n = test_text::decode(question.root, &mut root);
    let m = test_text::decode(question.card, &mut card);
    let call = Call {
        pass: form.pass(),
        card: &card[..m],
        root: &root[..n],
        is_listed: question.places.is_some(),
        end: form.end(question.places.is_some()),
    };
    let bytes = test_text::decimal(question.bytes).min(lent.out.len());
    let words = test_text::decimal(question.words).min(lent.work.len());
    let mut part = Lent {
        out: &mut lent.out[..bytes],
        work: &mut lent.work[..words],
        list: &mut [],
    };
    match question.places {
        Some(places) => answer_listed(rt, &call, &mut part, test_text::decimal(places)),
        None => call.say_answer(rt, &mut part),
    }
}

// One case.
fn case(rt: &impl Print, line: &[u8], lent: &mut Lent) -> io::Result<()> {
    let (form, fields) = Form::of(asked(line));
    match form.read(fields) {
        Some(question) => answer(rt, form, &question, lent),
        None => rt.write_all(form.hint()),
    }
}

// Answers the whole lines among so many bytes of text and brings the rest to the front; answers how many bytes that are. Where the rest fills all of the
// text, its line is too long, and a byte that no case has stands for it until its end is read.
fn take_lines(
    rt: &impl Print,
    text: &mut [u8; 262144],
    all: usize,
    lent: &mut Lent,
) -> io::Result<usize>
    requires { all ≤ 262144 }
    ensures { IfOk result (λ n. n ≤ 262143) }
{
    let mut rest = &text[..all];
    let mut line = test_text::line_at(rest, 0);
    while line.len() < rest.len() {
        case(rt, line, lent)?;
        rest = test_text::past(rest, line.len());
        line = test_text::line_at(rest, 0);
    }
    let left = rest.len();
    text.copy_within(all - left..all, 0);
    if left < 262144 {
        return Ok(left);
    }
    text[0] = b'?';
    Ok(1)
}

// What is left when the input ends: a line without an end, or none.
fn finish(rt: &(impl Print + Eprint), line: &[u8], begun: bool, lent: &mut Lent) -> io::Result<()> {
    if !begun {
        let _ = eprintln!(rt;
            "no cases: give them on standard input, one to a line, as ROOT CARD OUTLEN WORKLEN"
        );
    }
    if line.is_empty() {
        return Ok(());
    }
    case(rt, line, lent)
}

// A proved loop has to end, and nothing says that the input does: so many turns are never used up.
fn run(rt: &(impl Print + Eprint), stdin: &mut impl Read, lent: &mut Lent) -> io::Result<()> {
    let mut text: [u8; 262144] = test_input::room();
    let mut have = 0;
    let mut begun = false;
    for _ in 0..u64::MAX {
        match stdin.read(&mut text[have..]) {
            Ok(0) => return finish(rt, &text[..have], begun, lent),
            Ok(n) => {
                have = take_lines(rt, &mut text, have + n, lent)?;
                begun = true;
            }
            Err(_) => {
                let _ = eprintln!(rt; "standard input can't be read");
                return Ok(());
            }
        }
    }
    Ok(())
}

fn main(rt: HostRuntime) -> io::Result<()> {
    let mut out: [u8; 2000000] = test_input::room();
    let mut work: [u32; 131072] = test_input::room();
    let mut lent = Lent {
        out: &mut out,
        work: &mut work,
        list: &mut [],
    };
    run(&rt, &mut rt.reader(), &mut lent)
}
