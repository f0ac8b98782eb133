// What the programs print, collected on a page, and numbers read from bytes. Nothing here is promised to a user; it is proved safe as
// everything is.
#![tactic(auto)]

ghost use Rattle.std.specs.Prelude.{◌≡◌, ◌≤◌};
ghost use Rattle.page.specs.declared.TheConstants.{SIZE};

pub mod bytes;

const SIZE: usize = 65536;

// It goes out when it is full and at the end, so that many lines take one system call. Its first `written` bytes are still to go.
#[derive(Clone, Copy)]
pub struct Page {
    bytes: [u8; SIZE],
    written: usize,
    ghost fits: { written ≤ SIZE },
}

impl Page {
    pub fn new() -> Page {
        Page {
            bytes: [0; SIZE],
            written: 0,
        }
    }

    pub fn byte(&mut self, b: u8) {
        if self.written == SIZE {
            self.write();
        }
        self.bytes[self.written] = b;
        self.written += 1;
    }

    pub fn put(&mut self, bytes: &[u8]) {
        for b in bytes {
            self.byte(*b);
        }
    }

    // "Numbers are decimal".
    pub fn number(&mut self, n: impl Into<u64>) {
        let mut digits = [0u8; 20];
        let k = io::decimal(n.into(), &mut digits);
        self.put(&digits[..k]);
    }

    // "fields are parted by one blank".
    pub fn field(&mut self, n: impl Into<u64>) {
        self.byte(b' ');
        self.number(n);
    }

    // "a line feed ends every line".
    pub fn line(&mut self) {
        self.byte(b'\n');
    }

    // What stands on the page goes out, and the page is empty.
    pub fn write(&mut self)
        ensures { self.new.written ≡ 0 }
    {
        io::write_all(1, &self.bytes[..self.written]);
        self.written = 0;
    }
}
