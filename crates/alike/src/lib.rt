// The class lists of a register, level by level. A step reads the finished list of one level and writes the list of the next to another
// array: the rows of the items, then numbers by signature. Leans on marked for level 0, on surround for the rows, on signature.
#![tactic(auto)]

ghost use Rattle.std.specs.Prelude.{◌≡◌, true, ◌*◌, ◌≤◌, ◌<◌, length};
ghost use Rattle.meaning.specs.Count.{tab};
ghost use Rattle.meaning.specs.Level.{number, alike_next, class_count};
ghost use Rattle.meaning.specs.RegisterFile.{register_in};
ghost use Rattle.surround.specs.Surroundings.{OfClasses, RowsStand};
ghost use Rattle.alike.specs.Step.{Room as RoomFor, Reached};

use radix::Room;
use register::Register;
use signature::Signatures;

// "alike at level j + 1 when they are alike at level j and, for each direction, label and level-j class, they have equal numbers of
// neighbours in that class, capped at µ": from the class list of level j that of level j + 1, and how many classes it has. The rows that
// were compared stay in rows and starts.
pub fn step(
    reg: &Register,
    mu: u8,
    cs: &[u16],
    out: &mut [u16],
    rows: &mut [u64],
    starts: &mut [u16],
    room: Room,
) -> usize
    requires given { OfClasses cs.now reg.now.items × (length cs.now ≡ reg.now.items) × (mu ≤ 7) × (length out.old ≡ reg.now.items) }
    requires room { RoomFor reg.now.items reg.now.links (length rows.old) (length starts.old)
        (length room.keys.now) (length room.other.now) }
    ensures { (result ≡ class_count (tab (number (alike_next (register_in reg.now.bytes.now) mu cs.now)) reg.now.items))
        × (out.new ≡ tab (number (alike_next (register_in reg.now.bytes.now) mu cs.now)) reg.now.items)
        × RowsStand (register_in reg.now.bytes.now) mu cs.now reg.now.items starts.new rows.new }
{
    let Room { keys, other } = room;
    let lent = Room {
        keys: &mut *keys,
        other: &mut *other,
    };
    surround::put_item_rows(reg, mu, cs, rows, starts, lent);
    let signatures = Signatures {
        groups: cs,
        starts,
        rows,
    };
    signatures.number(out, Room { keys, other })
}

fn copy_classes(from: &[u16], to: &mut [u16])
    requires { length to.old ≡ length from.now }
    ensures { to.new ≡ from.now }
{
    for (x, class) in from.iter().enumerate() {
        to[x] = *class;
    }
}

// Whether two lists give the items the same classes.
fn same_classes(lower: &[u16], upper: &[u16]) -> bool
    requires { length upper.now ≡ length lower.now }
    ensures { result ≡ true → lower.now ≡ upper.now }
{
    for (x, class) in lower.iter().enumerate() {
        if *class != upper[x] {
            return false;
        }
    }
    true
}

// "The classes of a summary are those of level i; its groups are those of level i − 1": how many there are of each.
#[derive(Clone, Copy)]
pub struct Counts {
    pub groups: usize,
    pub classes: usize,
}

// The class lists of level i − 1, in lower, and of level i, in upper, with their class counts; and the rows of the items against the
// former, in rows and starts. Each step reads the one list, finished, and writes the other. A step that changes nothing is the last that
// could.
pub fn levels(
    reg: &Register,
    mu: u8,
    i: usize,
    lower: &mut [u16],
    upper: &mut [u16],
    rows: &mut [u64],
    starts: &mut [u16],
) -> Counts
    requires given { (mu ≤ 7) × (1 ≤ i) × (length lower.old ≡ reg.now.items) × (length upper.old ≡ reg.now.items) }
    requires room { (2 * reg.now.links ≤ length rows.old) × (reg.now.items < length starts.old) }
    ensures { Reached (register_in reg.now.bytes.now) mu reg.now.items i lower.new upper.new
        result.groups result.classes starts.new rows.new }
{
    let mut keys = [0u64; 4096];
    let mut other = [0u64; 4096];
    let room = Room {
        keys: &mut keys,
        other: &mut other,
    };
    let mut classes = marked::by_marks(reg, upper, room);
    let mut groups = classes;
    for _ in 0..i {
        copy_classes(upper, lower);
        groups = classes;
        let room = Room {
            keys: &mut keys,
            other: &mut other,
        };
        classes = step(reg, mu, lower, upper, rows, starts, room);
        if same_classes(lower, upper) {
            break;
        }
    }
    Counts { groups, classes }
}
