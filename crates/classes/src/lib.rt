// The class records of a summary: "Class, eight bytes: marks (four), group, item count capped at ν." The items of each class are counted
// first; then the items are gone through in order, and the first of a class gives it its record. Leans on capped for the counts.
#![tactic(auto)]

ghost use Rattle.std.specs.Prelude.{◌≡◌, ◌<◌, length};
ghost use Rattle.meaning.specs.Register.{marks_of};
ghost use Rattle.meaning.specs.RegisterFile.{register_in};
ghost use Rattle.classes.specs.Counted.{Sorted, Enters, Numbered};

use capped::Capped;
use names::{Class, Group, Item};
use register::Register;

// The records of the classes, four numbers each. `groups` is the class list of the level before: its classes are the groups.
pub fn records(reg: &Register, groups: &[u16], classes: &[u16], nu: u8) -> [u16; 4096]
    requires { Sorted reg.now.items groups.now classes.now }
    ensures { Numbered result (register_in reg.now.bytes.now) groups.now classes.now nu }
{
    let counts = capped::by_class(classes, nu);
    let mut out = [0u16; 4096];
    for (x, class) in classes.iter().enumerate() {
        let count = counts[*class as usize];
        let group = Class(groups[x]).as_group();
        enter(reg, Item(x as u16), group, Class(*class), count, &mut out);
    }
    out
}

// An item of a class of so many: the first of a class gives it its record, with its own marks and group.
fn enter(reg: &Register, x: Item, group: Group, class: Class, count: Capped, out: &mut [u16])
    requires { (x.0 < reg.now.items) × (class.0 < 1024) × (length out.old ≡ 4096) }
    ensures { Enters out.old out.new class.0 (marks_of (register_in reg.now.bytes.now) x.0) group.0 count.number }
{
    let at = 4 * class.index();
    let number = out[at + 3];
    if 0 < number {
        return;
    }
    let marks = reg.marks(x);
    out[at] = (marks / 65536) as u16;
    out[at + 1] = (marks % 65536) as u16;
    out[at + 2] = group.0;
    out[at + 3] = count.number;
}
