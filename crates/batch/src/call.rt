// The call, with a list of places or without, and what is said of its answer.
use crate::memory::Lent;
use answers::Refusal;
use operation::Pass;
use placing::Listed;
use std::io;

// What is asked; whether a list is lent with it; how an acceptance ends.
#[derive(Clone, Copy)]
pub struct Call<'a> {
    pub pass: Pass,
    pub card: &'a [u8],
    pub root: &'a [u8],
    pub is_listed: bool,
    pub end: &'static [u8],
}

impl Call<'_> {
    // With the work words that are lent.
    fn with(&self, lent: &mut Lent) -> Result<Listed, Refusal> {
        lent.fill();
        if self.is_listed {
            return shortening_places::shorten_places(
                self.pass, self.card, self.root, lent.out, lent.work, lent.list,
            );
        }
        let length = shortening::shorten(self.pass, self.card, self.root, lent.out, lent.work)?;
        Ok(Listed { length, entries: 0 })
    }

    // With work words of its own.
    fn alone(&self, lent: &mut Lent) -> Result<Listed, Refusal> {
        lent.fill();
        if self.is_listed {
            return shortening_places_alone::shorten_places_alone(
                self.pass, self.card, self.root, lent.out, lent.list,
            );
        }
        let length = shortening_alone::shorten_alone(self.pass, self.card, self.root, lent.out)?;
        Ok(Listed { length, entries: 0 })
    }

    // Whether it answers the same with work words of its own, where it must, and leaves the out buffer and the list of own, as long as those lent, the same.
    // What is answered with 2048 work words may be answered otherwise with more: 8, where these have room for more pairs.
    fn is_same_in(&self, r: Result<Listed, Refusal>, lent: &Lent, own: &mut Lent) -> bool {
        let s = self.alone(own);
        2052 <= lent.work.len() && matches!(s, Err(Refusal::FullTable(_)))
            || r == s && &*lent.out == &*own.out && &*lent.list == &*own.list
    }

    // The same in this out buffer and a list. Rooms are no part of a frame that has large ones of its own, or that has no need of them.
    #[inline(never)]
    fn is_same_listed(&self, r: Result<Listed, Refusal>, lent: &Lent, out: &mut [u8]) -> bool {
        let mut list: [u32; 65536] = test_input::room();
        let k = lent.list.len().min(list.len());
        let mut own = Lent {
            out,
            work: &mut [],
            list: &mut list[..k],
        };
        self.is_same_in(r, lent, &mut own)
    }

    // The same in an out buffer and, where it is listed, a list.
    #[inline(never)]
    fn is_same_alone(&self, r: Result<Listed, Refusal>, lent: &Lent) -> bool {
        let mut out: [u8; 2000000] = test_input::room();
        let n = lent.out.len().min(out.len());
        if self.is_listed {
            return self.is_same_listed(r, lent, &mut out[..n]);
        }
        let mut own = Lent {
            out: &mut out[..n],
            work: &mut [],
            list: &mut [],
        };
        self.is_same_in(r, lent, &mut own)
    }

    // The answer, where the lent memory is as it promises.
    pub fn say_answer(&self, rt: &impl Print, lent: &mut Lent) -> io::Result<()> {
        let r = self.with(lent);
        if 2048 <= lent.work.len() && !self.is_same_alone(r, lent) {
            return rt.write_all(
                b"broken promise: the call with work words of its own answers otherwise\n",
            );
        }
        if !lent.is_kept(r) {
            return rt.write_all(if self.is_listed {
                b"broken promise: the out buffer, the work words or the list are not as they should be\n".as_slice()
            } else {
                b"broken promise: the out buffer or the work words are not as they should be\n".as_slice()
            });
        }
        match r {
            Ok(listed) => {
                let n = listed.length;
                print!(rt; "0 {n} ")?;
                test_input::say_bytes(rt, wire::part(lent.out, 0, n))?;
                if self.is_listed {
                    print!(rt; " {} ", listed.entries)?;
                    say_list(rt, lent.list, listed.entries)?;
                }
                rt.write_all(self.end)
            }
            Err(refusal) => test_input::say_refusal(rt, Err(refusal)),
        }
    }
}

// The words of so many entries, two each, with commas between them, or - for none.
fn say_list(rt: &impl Print, list: &[u32], entries: usize) -> io::Result<()> {
    if entries == 0 {
        return rt.write_all(b"-");
    }
    for (i, [place, other]) in list.as_chunks::<2>().0.iter().take(entries).enumerate() {
        if 0 < i {
            rt.write_all(b",")?;
        }
        print!(rt; "{place},{other}")?;
    }
    Ok(())
}
