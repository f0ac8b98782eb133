// One class, one row and the map of a summary held against what its header says. Leans on reader for the file's numbers and on range for
// the counts, which are 1 to the cap and one more.
#![tactic(auto)]

ghost use Rattle.std.specs.Prelude.{◌≡◌, true, ◌+◌, ◌≤◌, ◌<◌, ltb, length};
ghost use Rattle.meaning.specs.Count.{each};
ghost use Rattle.meaning.specs.Summary.{class_of, row_of, class_at};
ghost use Rattle.meaning.specs.WellFormed.{class_in, row_in, row_key};
ghost use Rattle.meaning.specs.Bytes.{num2};
ghost use Rattle.meaning.specs.SummaryFile.{row_is, summary_in};
ghost use Rattle.meaning.specs.SummaryFile as file;
ghost use Rattle.header.specs.Limits.{Sized};
ghost use Rattle.fields.specs.Most.{most};
ghost use Rattle.fields.specs.Places.{row_test, key_at};

use names::Class;
use reader::Summary;

// The class's group is one of the groups, and its count is "1 to ν + 1".
#[tactic(auto, unfolding(meaning::specs::WellFormed::class_in))]
pub fn class_fine(s: &Summary, k: Class) -> bool
    requires { Sized s.now.bytes.now × (k.0 < length (summary_in s.now.bytes.now).classes) }
    ensures { result ≡ class_in (summary_in s.now.bytes.now) (class_of (summary_in s.now.bytes.now) k.0) }
{
    s.group(k).0 < s.groups() && range::within(1, s.count(k), s.class_cap() + 1)
}

// The rows, and what the header says of them, read once for all: where they stand, how many classes and groups there are, and µ.
#[derive(Clone, Copy)]
pub struct Rows<'a> {
    pub bytes: &'a [u8],
    at: usize,
    classes: usize,
    groups: u16,
    near_cap: u16,
    ghost exact: { file.exact bytes.now ≡ true },
    ghost at_is: { at ≡ num2 bytes.now 18 },
    ghost classes_are: { classes ≡ length (summary_in bytes.now).classes },
    ghost groups_are: { groups ≡ (summary_in bytes.now).groups },
    ghost near_cap_is: { near_cap ≡ (summary_in bytes.now).near_cap },
    ghost near_low: { near_cap ≤ 7 },
}

impl Rows<'_> {
    #[tactic(auto, using(reader::proofs::Laws::laid))]
    pub fn of<'a>(s: &Summary<'a>) -> Rows<'a>
        requires { Sized s.now.bytes.now }
        ensures { result.bytes.now ≡ s.now.bytes.now }
    {
        Rows {
            bytes: s.bytes,
            at: wire::two(s.bytes, 18) as usize,
            classes: s.classes(),
            groups: s.groups(),
            near_cap: s.near_cap(),
        }
    }

    // Where row j starts.
    fn place(&self, j: usize) -> usize
        requires { j < length (summary_in self.now.bytes.now).rows }
        ensures { (row_of (summary_in self.now.bytes.now) j ≡ row_is self.now.bytes.now result)
            × (result + 8 ≤ length self.now.bytes.now) }
    {
        self.at + 8 * j
    }

    // Row j's class, direction with label, and group are in range, and its count is "1 to µ + 1".
    #[tactic(auto, using(crate::proofs::Laws::label_same), unfolding(crate::specs::Places::row_test, meaning::specs::WellFormed::row_in, meaning::specs::SummaryFile::row_is))]
    pub fn fine(&self, j: usize) -> bool
        requires { j < length (summary_in self.now.bytes.now).rows }
        ensures { result ≡ row_in (summary_in self.now.bytes.now) (row_of (summary_in self.now.bytes.now) j) }
    {
        row_fine(
            self.bytes,
            self.place(j),
            self.classes,
            self.groups,
            self.near_cap,
        )
    }

    // Row j's class, direction with label, and group side by side: rows ascend by this number.
    #[tactic(auto, using(reader::proofs::Laws::way_again), unfolding(crate::specs::Places::key_at, meaning::specs::WellFormed::row_key, meaning::specs::SummaryFile::row_is))]
    pub fn key(&self, j: usize) -> u64
        requires { j < length (summary_in self.now.bytes.now).rows }
        ensures { (result ≡ row_key (row_of (summary_in self.now.bytes.now) j)) × (result < 281474976710656) }
    {
        row_key(self.bytes, self.place(j))
    }
}

// The row at a place, held against what the header says: classes, groups, and the cap of its count.
#[tactic(auto, unfolding(crate::specs::Places::row_test))]
pub fn row_fine(s: &[u8], at: usize, c: usize, g: u16, cap: u16) -> bool
    requires { (at + 8 ≤ length s.now) × (cap ≤ 7) }
    ensures { result ≡ row_test c g cap s.now at }
{
    (wire::two(s, at) as usize) < c
        && wire::two(s, at + 2) < 32
        && wire::two(s, at + 4) < g
        && range::within(1, wire::two(s, at + 6), cap + 1)
}

// The class, the way and the group of the row at a place side by side: rows ascend by this number.
#[tactic(auto, unfolding(crate::specs::Places::key_at))]
pub fn row_key(s: &[u8], at: usize) -> u64
    requires { at + 8 ≤ length s.now }
    ensures { (result ≡ key_at s.now at) × (result < 281474976710656) }
{
    let class = wire::two(s, at) as u64;
    let way = wire::two(s, at + 2) as u64;
    let group = wire::two(s, at + 4) as u64;
    (class * 65536 + way) * 65536 + group
}

// The map's numbers are classes: the greatest of them is.
#[tactic(auto, using(crate::proofs::Most::map_most))]
pub fn map_fine(s: &Summary) -> bool
    ensures { result ≡ each (λ k. ltb k (length (summary_in s.now.bytes.now).classes)) (summary_in s.now.bytes.now).map }
{
    if s.items() == 0 {
        return true;
    }
    (greatest(s) as usize) < s.classes()
}

// The greatest of the map's numbers, or 0.
#[tactic(auto, using(crate::proofs::Most::greatest))]
fn greatest(s: &Summary) -> u16
    ensures { result ≡ most (class_at (summary_in s.now.bytes.now)) (length (summary_in s.now.bytes.now).map) }
{
    let at = wire::two(s.bytes, 22) as usize;
    let mut top = 0;
    for x in 0..s.items() {
        let class = wire::two(s.bytes, at + 2 * x);
        if top < class {
            top = class;
        }
    }
    top
}
