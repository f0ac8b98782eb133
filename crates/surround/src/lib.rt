// The surroundings of items: for every item its neighbours counted by direction, label and class, capped, as rows. Each link is two keys,
// one a direction; the keys are sorted, and equal ones counted. Leans on register for the links, on radix and rows.
#![tactic(auto)]

ghost use Rattle.std.specs.Prelude.{◌≡◌, ◌++◌, ◌+◌, ◌*◌, ◌<◌, ◌≤◌, length, drop};
ghost use Rattle.meaning.specs.Count.{tab, join};
ghost use Rattle.meaning.specs.Register.{link_of};
ghost use Rattle.meaning.specs.WellFormed.{way as way_number};
ghost use Rattle.meaning.specs.RegisterFile.{register_in};
ghost use Rattle.order.specs.Sorted.{sorted};
ghost use Rattle.surround.specs.Surroundings.{OfClasses, key_of, all_keys, item_rows as item_rows_word, item_start};

use meaning::Direction;
use radix::Room;
use register::Register;

// "direction times 16 plus label (out 0, in 1)".
fn way_number(way: Direction, label: u8) -> u64
    requires { label < 16 }
    ensures { (result ≡ way_number way label) × (result < 32) }
{
    match way {
        Direction::Outgoing => label as u64,
        Direction::Incoming => 16 + label as u64,
    }
}

// Link k as it is seen that way, in one number: the item, the way with its label, and the class to which it leads.
fn key(reg: &Register, k: usize, cs: &[u16], way: Direction) -> u64
    requires { (k < reg.now.links) × OfClasses cs.now reg.now.items }
    ensures { result ≡ key_of way cs.now (link_of (register_in reg.now.bytes.now) k) }
{
    let near = reg.near(k, way).index() as u64;
    let label = way_number(way, reg.label(k));
    let class = cs[reg.far(k, way).index()] as u64;
    near * 32768 + label * 1024 + class
}

// The keys of all links as seen that way.
fn put_keys(reg: &Register, cs: &[u16], way: Direction, keys: &mut [u64])
    requires { OfClasses cs.now reg.now.items × (length keys.old ≡ reg.now.links) }
    ensures { keys.new ≡ tab (λ k. key_of way cs.now (link_of (register_in reg.now.bytes.now) k)) reg.now.links }
{
    for k in 0..reg.links {
        keys[k] = key(reg, k, cs, way);
    }
}

// The keys of all links both ways, in order.
fn sort_keys(reg: &Register, cs: &[u16], keys: &mut [u64], other: &mut [u64])
    requires { OfClasses cs.now reg.now.items × (length keys.old ≡ 2 * reg.now.links) × (2 * reg.now.links ≤ length other.old) }
    ensures { keys.new ≡ sorted (all_keys (register_in reg.now.bytes.now) cs.now reg.now.links) (2 * reg.now.links) }
{
    let m = reg.links;
    put_keys(reg, cs, Direction::Outgoing, &mut keys[..m]);
    put_keys(reg, cs, Direction::Incoming, &mut keys[m..]);
    radix::sort(keys, other);
}

// The rows of all items against a class list: those of item x stand in rows from starts[x] on, and end where those of x + 1 start.
pub fn put_item_rows(
    reg: &Register,
    mu: u8,
    cs: &[u16],
    rows: &mut [u64],
    starts: &mut [u16],
    room: Room,
)
    requires given { OfClasses cs.now reg.now.items × (length cs.now ≡ reg.now.items) × (mu ≤ 7) }
    requires room { (2 * reg.now.links ≤ length rows.old) × (reg.now.items < length starts.old)
        × (2 * reg.now.links ≤ length room.keys.now) × (2 * reg.now.links ≤ length room.other.now) }
    ensures { (rows.new ≡ join (item_rows_word (register_in reg.now.bytes.now) mu cs.now) reg.now.items
        ++ drop (item_start (register_in reg.now.bytes.now) mu cs.now reg.now.items) rows.old)
        × (starts.new ≡ tab (item_start (register_in reg.now.bytes.now) mu cs.now) (reg.now.items + 1)
        ++ drop (reg.now.items + 1) starts.old) }
{
    let Room { keys, other } = room;
    let keys = &mut keys[..2 * reg.links];
    sort_keys(reg, cs, keys, other);
    rows::put_rows(keys, reg.items, mu, rows, starts);
}
