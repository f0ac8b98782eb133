// Numbers read at a place. What is asked for outside reads as 0.

// "unsigned, most significant byte first".
pub fn two(b: &[u8], at: usize) -> u16 {
    from(b, at)
        .first_chunk()
        .map_or(0, |two| u16::from_be_bytes(*two))
}

pub fn four(b: &[u8], at: usize) -> u32 {
    from(b, at)
        .first_chunk()
        .map_or(0, |four| u32::from_be_bytes(*four))
}

// What stands from the place on.
pub fn from(b: &[u8], at: usize) -> &[u8] {
    b.get(at..).unwrap_or_default()
}
