// What a line asks.
use operation::Pass;

// The forms of a line: ROOT CARD OUTLEN WORKLEN, behind old with PLACES, and behind straight with PLACES and COUNTS.
#[derive(Clone, Copy)]
pub enum Form {
    Plain,
    Old,
    Straight,
}

// The fields of a case as they are written, root and card in hexadecimal; places is None for no list. What the
// numbers say is taken once all fields are known to be right.
#[derive(Clone, Copy)]
pub struct Question<'a> {
    pub root: &'a [u8],
    pub card: &'a [u8],
    pub bytes: &'a [u8],
    pub words: &'a [u8],
    pub places: Option<&'a [u8]>,
}

fn hex(field: &[u8]) -> Option<&[u8]> {
    test_text::is_hex(field).then_some(field)
}

// Apart: taken into `read`, its loop takes 11 instructions a digit of WORKLEN, and 7 so.
#[inline(never)]
fn number(field: &[u8]) -> Option<&[u8]> {
    test_text::is_number(field).then_some(field)
}

impl Form {
    // The form of a line, and its fields.
    pub fn of(line: &[u8]) -> (Form, &[u8]) {
        if let Some(fields) = line.strip_prefix(b"old ") {
            return (Form::Old, fields);
        }
        if let Some(fields) = line.strip_prefix(b"straight ") {
            return (Form::Straight, fields);
        }
        (Form::Plain, line)
    }

    // The case that they say.
    pub fn read(self, line: &[u8]) -> Option<Question<'_>> {
        let mut fields = line.split(|b| *b == b' ');
        let root = hex(fields.next()?)?;
        let card = hex(fields.next()?)?;
        let bytes = number(fields.next()?)?;
        let words = number(fields.next()?)?;
        let places = match self {
            Form::Plain => None,
            Form::Old | Form::Straight => match fields.next()? {
                b"x" => None,
                field => Some(number(field)?),
            },
        };
        if matches!(self, Form::Straight) && fields.next()? != b"x".as_slice() {
            return None;
        }
        if fields.next().is_some() {
            return None;
        }
        Some(Question {
            root,
            card,
            bytes,
            words,
            places,
        })
    }

    pub fn pass(self) -> Pass {
        match self {
            Form::Plain | Form::Old => Pass::Upstream,
            Form::Straight => Pass::Straight,
        }
    }

    // What is said of a line that is no case.
    pub fn hint(self) -> &'static [u8] {
        match self {
            Form::Plain => {
                b"no case: write ROOT CARD OUTLEN WORKLEN in less than 262144 characters, the first two in hexadecimal, - for no bytes\n"
            }
            Form::Old => {
                b"no case: write old ROOT CARD OUTLEN WORKLEN PLACES in less than 262144 characters, PLACES a number of words or x for no list\n"
            }
            Form::Straight => {
                b"no case: write straight ROOT CARD OUTLEN WORKLEN PLACES COUNTS in less than 262144 characters, PLACES a number of words or x for no list, COUNTS x\n"
            }
        }
    }

    // How an acceptance ends, behind the list where there is one.
    pub fn end(self, is_listed: bool) -> &'static [u8] {
        match (self, is_listed) {
            (Form::Plain, _) | (Form::Old, true) => b"\n",
            (Form::Old, false) | (Form::Straight, true) => b" x x\n",
            (Form::Straight, false) => b" x x x x\n",
        }
    }
}
