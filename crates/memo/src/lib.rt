// What was found of an entry of a question at a place where it is asked (an item of a register, a group of a summary), and how it is kept:
// once for each entry and place, so that links that lead to one place from many sides cost no more. Leans on question for the trees.
#![tactic(auto)]

ghost use Rattle.std.specs.Prelude.{◌≡◌, ◌<◌, get_or, set};
ghost use Rattle.memo.specs.Kept.{tell, slot};
ghost use Rattle.memo.specs.Kept as kept;

use meaning::{Kind, Refusal};

// "and, or, two operands": whether the first one's answer is the whole's, so that the second need not be asked. A
// refused first operand decides too.
pub fn decides(kind: Kind, first: Result<bool, Refusal>) -> bool
    ensures { result ≡ kept.settles kind first }
{
    let Ok(yes) = first else {
        return true;
    };
    match kind {
        Kind::Or => yes,
        _ => !yes,
    }
}

// Where it is kept what entry `at` says at a place; beyond entry 63 nothing is.
pub fn slot_of(at: usize, place: u16) -> usize
    requires { place < 1024 }
    ensures { result ≡ slot at place }
{
    if at < 64 {
        1024 * at + place as usize
    } else {
        65536
    }
}

// Whether it holds there, where that is known; beyond the end nothing is.
pub fn recalled(known: &[u8], slot: usize) -> Option<bool>
    ensures { result ≡ kept.recalled (get_or known.now slot 0) }
{
    if known.len() <= slot {
        return None;
    }
    match known[slot] {
        0 => None,
        told => Some(told == 2),
    }
}

// Kept, where there is room.
pub fn remember(known: &mut [u8], slot: usize, yes: bool)
    ensures { known.new ≡ set known.old slot (tell yes) }
{
    if slot < known.len() {
        known[slot] = code_of(yes);
    }
}

// What stands for a truth; 0 is for what is not known.
fn code_of(yes: bool) -> u8
    ensures { result ≡ tell yes }
{
    if yes { 2 } else { 1 }
}
