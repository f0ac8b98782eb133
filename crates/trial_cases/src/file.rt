// A kept file: a list of at most 65,535 bytes, changed where it stands.
use crate::Stopped;
use crate::command::{Change, Come};

pub const SIZE: usize = 65536;

#[derive(Clone, Copy)]
pub struct File {
    bytes: [u8; SIZE],
    len: u16,
}

impl File {
    pub fn empty() -> File {
        File::new([0; SIZE], 0)
    }

    // The first so many of the bytes.
    pub fn new(bytes: [u8; SIZE], len: u16) -> File {
        File { bytes, len }
    }

    pub fn bytes(&self) -> &[u8] {
        &self.bytes[..self.len as usize]
    }

    // The file becomes the first so many of the bytes.
    pub fn hold(&mut self, bytes: &[u8; SIZE], len: u16) {
        put_bytes(&mut self.bytes, &bytes[..usize::from(len)]);
        self.len = len;
    }

    // "the byte at the place becomes this".
    pub fn set(&mut self, place: u16, byte: u8) -> Result<(), Stopped> {
        if self.len <= place {
            return Err(Stopped);
        }
        self.bytes[usize::from(place)] = byte;
        Ok(())
    }

    // "what stood behind follows".
    pub fn change(&mut self, change: Change) -> Result<(), Stopped> {
        let place = usize::from(change.place);
        let behind = place + usize::from(change.out);
        let len = self.len as usize;
        let follow = len.checked_sub(behind).ok_or(Stopped)?;
        let after = place.saturating_add(change.come.len());
        self.len = u16::try_from(after.saturating_add(follow)).map_err(|_| Stopped)?;
        self.bytes.copy_within(behind..len, after);
        change.come.put(&mut self.bytes[place..]);
        Ok(())
    }
}

impl Come<'_> {
    // How many bytes of the file they are.
    fn len(self) -> usize {
        match self {
            Come::Bytes(bytes) => bytes.len(),
            Come::Numbers(bytes) => 2 * bytes.len(),
        }
    }

    fn put(self, file: &mut [u8]) {
        match self {
            Come::Bytes(bytes) => put_bytes(file, bytes),
            Come::Numbers(bytes) => put_numbers(file, bytes),
        }
    }
}

fn put_bytes(file: &mut [u8], bytes: &[u8]) {
    for (place, b) in file.iter_mut().zip(bytes) {
        *place = *b;
    }
}

fn put_numbers(file: &mut [u8], bytes: &[u8]) {
    for (places, b) in file.chunks_exact_mut(2).zip(bytes) {
        places.copy_from_slice(&u16::from(*b).to_be_bytes());
    }
}
