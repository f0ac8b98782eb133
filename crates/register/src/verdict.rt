// Bytes judged: an accepted register, or the first thing wrong with them.
ghost use Rattle.std.specs.Prelude.{◌≡◌, ◌≤◌, ◌&&◌, leb, length, IfOk};
ghost use Rattle.meaning.specs.Bytes.{num2};
ghost use Rattle.meaning.specs.RegisterFile.{headed, verdict};
ghost use Rattle.register.specs.Told.{told};

use crate::Register;
use meaning::Refusal;

// "Limits: n ≤ 1,024, m ≤ 2,048, labels 0 to 15."
const MOST_ITEMS: usize = 1024;

const MOST_LINKS: usize = 2048;

// "Register checks: under 12 bytes (1), then 2, then the rest of 1, then 3."
pub fn judge(reg: &[u8]) -> Result<Register<'_>, Refusal>
    ensures says { told result ≡ verdict reg.now }
    ensures holds { IfOk result (λ r. r.bytes.now ≡ reg.now) }
{
    if reg.len() < 12 {
        return Err(Refusal::Header);
    }
    let n = wire::two(reg, 0) as usize;
    let m = wire::two(reg, 2) as usize;
    if !few(n, m) {
        return Err(Refusal::Size);
    }
    if !right_head(reg, n, m) {
        return Err(Refusal::Header);
    }
    if !links::fine(reg, 12 + 4 * n, m, n) {
        return Err(Refusal::Link);
    }
    let register = Register {
        bytes: reg,
        items: n,
        links: m,
    };
    Ok(register)
}

// Not "n > 1,024 or m > 2,048".
fn few(n: usize, m: usize) -> bool
    ensures { result ≡ leb n 1024 && leb m 2048 }
{
    n <= MOST_ITEMS && m <= MOST_LINKS
}

// "offset of marks (12), offset of links (12 + 4n), total length (12 + 4n + 6m), zero": and the file is exactly so long.
fn right_head(reg: &[u8], n: usize, m: usize) -> bool
    requires { (12 ≤ length reg.now) × (n ≡ num2 reg.now 0) × (m ≡ num2 reg.now 2) × (n ≤ 1024) × (m ≤ 2048) }
    ensures { result ≡ headed reg.now }
{
    let links = 12 + 4 * n;
    let total = links + 6 * m;
    wire::two(reg, 4) == 12
        && wire::two(reg, 6) as usize == links
        && wire::two(reg, 8) as usize == total
        && wire::two(reg, 10) == 0
        && reg.len() == total
}
