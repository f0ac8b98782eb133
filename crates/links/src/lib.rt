// "Source item, label, target item, strictly ascending in that order of fields": links of six bytes, one after another, judged
// where they stand. The same records are a register's links and a summary's class links. Leans on wire for the bytes.
#![tactic(auto)]

ghost use Rattle.std.specs.Prelude.{◌≡◌, ◌+◌, ◌*◌, ◌/◌, ◌%◌, ◌≤◌, ◌<◌, min, length};
ghost use Rattle.meaning.specs.Count.{tab};
ghost use Rattle.meaning.specs.RegisterFile.{link_at};
ghost use Rattle.links.specs.Order.{in_order, rest_in};

// "labels 0 to 15": label and target as one number are below this.
const RESTS: u32 = 1048576;

// Whether each of the m links from a place on has its ends below n and its label below 16, and each comes after the one before. Links
// that ascend have the greatest source last, so that this one alone is compared with n. Label and target, as one number, are judged
// when the next link is at hand: so they are read at once, and not byte by byte.
pub fn fine(b: &[u8], at: usize, m: usize, n: usize) -> bool
    requires { at + 6 * m ≤ length b.now }
    ensures { result ≡ in_order n (tab (λ k. link_at b.now (at + 6 * k)) m) }
{
    if m == 0 {
        return true;
    }
    let mut source = wire::two(b, at);
    let mut rest = rest_at(b, at);
    let mut key = source as u64 * 4294967296 + rest as u64;
    for k in 0..m - 1 {
        if !rest_fine(rest, n) {
            return false;
        }
        let place = at + 6 * (k + 1);
        source = wire::two(b, place);
        rest = rest_at(b, place);
        let next = source as u64 * 4294967296 + rest as u64;
        if next <= key {
            return false;
        }
        key = next;
    }
    if n <= source as usize {
        return false;
    }
    rest_fine(rest, n)
}

// Label and target of the link at a place as one number, so that with the source before it "ascending in that order of fields" is one
// comparison.
fn rest_at(b: &[u8], at: usize) -> u32
    requires { at + 6 ≤ length b.now }
    ensures { (result ≡ (link_at b.now at).label * 65536 + (link_at b.now at).target)
        × ((link_at b.now at).target < 65536) }
{
    let label = wire::two(b, at + 2);
    let target = wire::two(b, at + 4);
    label as u32 * 65536 + target as u32
}

// Not "its label > 15", nor its target ≥ n. One comparison says both: a label above 15 leaves a number above every target.
fn rest_fine(rest: u32, n: usize) -> bool
    ensures { result ≡ rest_in n rest }
{
    rest % 65536 + rest / RESTS * RESTS < bound(n)
}

// What a target has to be below: n, or, where that is more, what two bytes hold.
fn bound(n: usize) -> u32
    ensures { result ≡ min n 65536 }
{
    if n < 65536 { n as u32 } else { 65536 }
}
