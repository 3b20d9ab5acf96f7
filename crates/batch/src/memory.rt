// What is lent is filled before a call with numbers that are not zero and differ from place to place, so that what should be left can be told after it.
use answers::Refusal;
use placing::Listed;

pub trait Mark: Copy + PartialEq {
    // What stands at a place.
    fn mark(i: usize) -> Self;
}

impl Mark for u32 {
    // By a power of two: another number takes a division.
    fn mark(i: usize) -> u32 {
        (i % (1 << 31)) as u32 + 1
    }
}

impl Mark for u8 {
    // From the mark of a word: 32 bits take less time to divide than 64.
    fn mark(i: usize) -> u8 {
        (u32::mark(i) % 255) as u8 + 1
    }
}

fn fill<T: Mark>(lent: &mut [T]) {
    for i in 0..lent.len() {
        lent[i] = T::mark(i);
    }
}

// Whether it is as it was filled, from a place on. Every place is looked at: a loop that may stop early is not widened, and here one never would.
fn is_left<T: Mark>(lent: &[T], from: usize) -> bool {
    let mut is_same = true;
    for i in from..lent.len() {
        is_same &= lent[i] == T::mark(i);
    }
    is_same
}

// What a call is lent: the out buffer, the work words and a list of places.
#[derive(Drop)]
pub struct Lent<'a> {
    pub out: &'a mut [u8],
    pub work: &'a mut [u32],
    pub list: &'a mut [u32],
}

impl Lent<'_> {
    pub fn fill(&mut self) {
        fill(self.out);
        fill(self.work);
        fill(self.list);
    }

    // Whether it is as an answer promises: a refusal leaves the out buffer, 1 to 7 and 11 leave the work words too, and else these are zero; a refusal leaves
    // the list, and else what stands behind the entries is left.
    pub fn is_kept(&self, r: Result<Listed, Refusal>) -> bool {
        let (bytes, entries, is_cleared) = match r {
            Ok(listed) => (listed.length, listed.entries, true),
            Err(Refusal::FullTable(_) | Refusal::NoSpace | Refusal::ShortList) => (0, 0, true),
            Err(_) => (0, 0, false),
        };
        let is_work_kept = if is_cleared {
            self.work.iter().all(|word| *word == 0)
        } else {
            is_left(self.work, 0)
        };
        is_work_kept
            && bytes <= self.out.len()
            && is_left(self.out, bytes)
            && entries <= self.list.len() / 2
            && is_left(self.list, entries * 2)
    }
}
