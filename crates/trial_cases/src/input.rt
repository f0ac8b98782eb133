// The input, a piece of it at a time: the next command stands whole in the piece, but where the input ends within it.
ghost use Rattle.std.specs.Prelude.{◌≤◌};
ghost use Rattle.trial_cases.specs.declared.input.TheConstants.{SIZE};

use crate::command::Unread;

const SIZE: usize = 131072;

// No command is longer: seven bytes, and the 65,535 that they announce.
const LONGEST: usize = 65542;

// The piece's first `end` bytes were read, and those before `at` are done with. `last`: the input ends with this piece.
#[derive(Drop)]
pub struct Input {
    piece: [u8; SIZE],
    at: usize,
    end: usize,
    last: bool,
    ghost at_within: { at ≤ end },
    ghost end_within: { end ≤ SIZE },
}

impl Input {
    pub fn new() -> Input {
        Input {
            piece: [0; SIZE],
            at: 0,
            end: 0,
            last: false,
        }
    }

    // What is not done with, the next command whole.
    pub fn unread(&mut self) -> Unread<'_> {
        self.fill();
        Unread {
            bytes: &self.piece[self.at..self.end],
        }
    }

    // All of the piece but the last bytes is done with.
    pub fn leave(&mut self, bytes: usize) {
        self.at = self.end.saturating_sub(bytes);
    }

    // Where the next command may not be whole, what is left goes to the piece's start, and more is read behind it.
    fn fill(&mut self) {
        let left = self.end - self.at;
        if self.last || LONGEST <= left {
            return;
        }
        self.piece.copy_within(self.at..self.end, 0);
        self.at = 0;
        self.end = left + io::read_full(0, &mut self.piece[left..]);
        self.last = self.end < SIZE;
    }
}
