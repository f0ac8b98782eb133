// Two- and four-byte numbers, "unsigned, most significant byte first", read from slices and written into lent ones.
// Every file of this library is read and written through these; what a write leaves of a buffer is said by `sets`.
#![tactic(auto)]

ghost use Rattle.std.specs.Prelude.{◌≡◌, ◌+◌, ◌*◌, ◌≤◌, length};
ghost use Rattle.std.proofs.lemmas.List.Edits.{sets};
ghost use Rattle.meaning.specs.Bytes.{num2, num4, put2, put4, pack};

pub fn two(b: &[u8], at: usize) -> u16
    requires { at + 2 ≤ length b.now }
    ensures { result ≡ num2 b.now at }
{
    let high = b[at] as u16;
    let low = b[at + 1] as u16;
    high * 256 + low
}

pub fn four(b: &[u8], at: usize) -> u32
    requires { at + 4 ≤ length b.now }
    ensures { result ≡ num4 b.now at }
{
    (two(b, at) as u32) * 65536 + (two(b, at + 2) as u32)
}

pub fn put_two(out: &mut [u8], at: usize, v: u16)
    requires { at + 2 ≤ length out.old }
    ensures { out.new ≡ sets out.old at (put2 v) }
{
    out[at] = (v / 256 % 256) as u8;
    out[at + 1] = (v % 256) as u8;
}

pub fn put_four(out: &mut [u8], at: usize, v: u32)
    requires { at + 4 ≤ length out.old }
    ensures { out.new ≡ sets out.old at (put4 v) }
{
    put_two(out, at, (v / 65536) as u16);
    put_two(out, at + 2, (v % 65536) as u16);
}

// The numbers of t, one after another.
pub fn put_numbers(out: &mut [u8], at: usize, t: &[u16])
    requires { at + 2 * length t.now ≤ length out.old }
    ensures { out.new ≡ sets out.old at (pack put2 t.now) }
{
    for (k, v) in t.iter().enumerate() {
        put_two(out, at + 2 * k, *v);
    }
}
