// What is kept between commands.
use crate::command::{Caps, Which};
use crate::file::File;

#[derive(Clone, Copy)]
pub struct Kept {
    pub registers: [File; 2],
    // When set, the second is the register and the first the other, else the other way round: so that an exchange moves no byte of theirs.
    pub exchanged: bool,
    pub summary: File,
    pub question: File,
    pub item: u16,
    pub caps: Caps,
    pub room: u16,
}

impl Kept {
    pub fn new() -> Kept {
        Kept {
            registers: [File::empty(); 2],
            exchanged: false,
            summary: File::empty(),
            question: File::empty(),
            item: 0,
            caps: Caps {
                level: 0,
                mu: 0,
                nu: 0,
            },
            room: 0,
        }
    }

    pub fn register(&self) -> &File {
        &self.registers[self.exchanged as usize]
    }

    // What an exchange makes the register.
    pub fn other(&self) -> &File {
        &self.registers[!self.exchanged as usize]
    }

    pub fn file(&mut self, which: Which) -> &mut File {
        match which {
            Which::Register => &mut self.registers[self.exchanged as usize],
            Which::Summary => &mut self.summary,
            Which::Question => &mut self.question,
        }
    }

    pub fn exchange(&mut self) {
        self.exchanged = !self.exchanged;
    }
}
