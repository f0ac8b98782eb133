// What is told: the page, and the tally of letters that are counted where it is open and not printed.
use crate::lent;
use page::Page;

#[derive(Clone, Copy)]
pub struct Told {
    pub page: Page,
    tally: Option<Tally>,
}

// How many letters came, how many of the first, third, fifth .. and of the second, fourth, .. are `y`, `n`, `6`, and the hash of all.
#[derive(Clone, Copy, Default)]
struct Tally {
    letters: u64,
    counts: [[u64; 3]; 2],
    hash: u32,
}

impl Told {
    pub fn new() -> Told {
        Told {
            page: Page::new(),
            tally: None,
        }
    }

    // "The tally starts anew where it is opened twice".
    pub fn open(&mut self) {
        self.tally = Some(Tally::default());
    }

    // A letter more, printed or counted.
    pub fn hear(&mut self, letter: u8) {
        match &mut self.tally {
            Some(tally) => tally.count(letter),
            None => self.page.byte(letter),
        }
    }

    // "where it is closed and was not open its numbers are 0".
    pub fn close(&mut self) {
        let tally = self.tally.take().unwrap_or_default();
        self.page.number(tally.letters / 2);
        for count in tally.counts.as_flattened() {
            self.page.field(*count);
        }
        self.page.field(tally.hash);
    }
}

impl Tally {
    fn count(&mut self, letter: u8) {
        let counts = &mut self.counts[(self.letters % 2) as usize];
        for (count, counted) in counts.iter_mut().zip(b"yn6") {
            if letter == *counted {
                *count = count.wrapping_add(1);
            }
        }
        self.letters = self.letters.wrapping_add(1);
        self.hash = lent::hashed(self.hash, letter);
    }
}
