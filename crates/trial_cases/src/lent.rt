// A buffer that is lent to a call: filled before it, so that a byte left alone can be told from one written, and hashed whole after it, so
// that one number tells every byte.

// "its byte at place p is (7p + 5) mod 256".
pub fn fill(out: &mut [u8]) {
    for (p, b) in out.iter_mut().enumerate() {
        *b = ((p % 256 * 7 + 5) % 256) as u8;
    }
}

// "that of every byte of the buffer after the call: it starts at 0".
pub fn hash(out: &[u8]) -> u32 {
    out.iter().fold(0, |sum, b| hashed(sum, *b))
}

// "for each byte in turn it becomes (hash * 65599 + byte + 1) mod 2^32".
pub fn hashed(sum: u32, b: u8) -> u32 {
    sum.wrapping_mul(65599).wrapping_add(u32::from(b) + 1)
}
