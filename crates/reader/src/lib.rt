// A summary file whose offsets and length are right, read through accessors that speak of its picture and hand out a Class, a Group or
// an Item where the file has such a number. Each part is found by its offset in the header. Leans on wire for the bytes.
#![tactic(auto, using(crate::proofs::Laws::places), unfolding(meaning::specs::SummaryFile::summary_in, meaning::specs::SummaryFile::class_is, meaning::specs::SummaryFile::row_is, meaning::specs::RegisterFile::link_at))]

ghost use Rattle.std.specs.Prelude.{◌≡◌, true, ◌+◌, ◌≤◌, ◌<◌, length};
ghost use Rattle.meaning.specs.Summary.{class_of as class_of_word, row_of, class_at};
ghost use Rattle.meaning.specs.WellFormed.{way};
ghost use Rattle.meaning.specs.Bytes.{num2};
ghost use Rattle.meaning.specs.RegisterFile.{link_at};
ghost use Rattle.meaning.specs.SummaryFile.{class_size, class_is, row_is, summary_in};
ghost use Rattle.meaning.specs.SummaryFile as file;
ghost use Rattle.reader.specs.Sized.{edge_of};

use names::{Class, Group, Item};

// Where the header has the four offsets: "classes .., rows .., class links .., map".
const CLASSES_AT: usize = 16;

const ROWS_AT: usize = 18;

const LINKS_AT: usize = 20;

const MAP_AT: usize = 22;

// The bytes of a summary: "there are 24 bytes or more; offsets and length are exact".
#[derive(Clone, Copy)]
pub struct Summary<'a> {
    pub bytes: &'a [u8],
    ghost exact: { file.exact bytes.now ≡ true },
}

impl Summary<'_> {
    // A number of the header.
    fn head(&self, at: usize) -> u16
        requires { at + 2 ≤ 24 }
        ensures { result ≡ num2 self.now.bytes.now at }
    {
        wire::two(self.bytes, at)
    }

    // "Header of 24 bytes: i, µ, ν, class count c, group count g, row count r, class-link count e, item count n".
    pub fn level(&self) -> u16
        ensures { result ≡ (summary_in self.now.bytes.now).level }
    {
        self.head(0)
    }

    pub fn near_cap(&self) -> u16
        ensures { result ≡ (summary_in self.now.bytes.now).near_cap }
    {
        self.head(2)
    }

    pub fn class_cap(&self) -> u16
        ensures { result ≡ (summary_in self.now.bytes.now).class_cap }
    {
        self.head(4)
    }

    pub fn classes(&self) -> usize
        ensures { (result ≡ length (summary_in self.now.bytes.now).classes) × (result < 65536) }
    {
        self.head(6) as usize
    }

    pub fn groups(&self) -> u16
        ensures { result ≡ (summary_in self.now.bytes.now).groups }
    {
        self.head(8)
    }

    pub fn rows(&self) -> usize
        ensures { (result ≡ length (summary_in self.now.bytes.now).rows) × (result < 65536) }
    {
        self.head(10) as usize
    }

    pub fn links(&self) -> usize
        ensures { (result ≡ length (summary_in self.now.bytes.now).links) × (result < 65536) }
    {
        self.head(12) as usize
    }

    pub fn items(&self) -> usize
        ensures { (result ≡ length (summary_in self.now.bytes.now).map) × (result < 65536) }
    {
        self.head(14) as usize
    }

    // Where the record of class k starts.
    fn class_place(&self, k: Class) -> usize
        requires { k.0 < length (summary_in self.now.bytes.now).classes }
        ensures { (class_of_word (summary_in self.now.bytes.now) k.0 ≡ class_is self.now.bytes.now result)
            × (result + class_size ≤ length self.now.bytes.now) }
    {
        self.head(CLASSES_AT) as usize + 2 * summary::CLASS * k.index()
    }

    // "Class: marks (four), group, item count capped at ν."
    pub fn marks(&self, k: Class) -> u32
        requires { k.0 < length (summary_in self.now.bytes.now).classes }
        ensures { result ≡ (class_of_word (summary_in self.now.bytes.now) k.0).marks }
    {
        wire::four(self.bytes, self.class_place(k))
    }

    pub fn group(&self, k: Class) -> Group
        requires { k.0 < length (summary_in self.now.bytes.now).classes }
        ensures { result.0 ≡ (class_of_word (summary_in self.now.bytes.now) k.0).group }
    {
        Group(wire::two(self.bytes, self.class_place(k) + 4))
    }

    pub fn count(&self, k: Class) -> u16
        requires { k.0 < length (summary_in self.now.bytes.now).classes }
        ensures { result ≡ (class_of_word (summary_in self.now.bytes.now) k.0).count }
    {
        wire::two(self.bytes, self.class_place(k) + 6)
    }

    // Where row j starts.
    fn row_place(&self, j: usize) -> usize
        requires { j < length (summary_in self.now.bytes.now).rows }
        ensures { (row_of (summary_in self.now.bytes.now) j ≡ row_is self.now.bytes.now result)
            × (result + 8 ≤ length self.now.bytes.now) }
    {
        self.head(ROWS_AT) as usize + 2 * summary::ROW * j
    }

    // "Row: class, direction times 16 plus label (out 0, in 1), group, neighbour count capped at µ."
    pub fn row_way(&self, j: usize) -> u16
        requires { j < length (summary_in self.now.bytes.now).rows }
        ensures { result ≡ way (row_of (summary_in self.now.bytes.now) j).direction (row_of (summary_in self.now.bytes.now) j).label }
    {
        wire::two(self.bytes, self.row_place(j) + 2)
    }

    pub fn row_group(&self, j: usize) -> Group
        requires { j < length (summary_in self.now.bytes.now).rows }
        ensures { result.0 ≡ (row_of (summary_in self.now.bytes.now) j).group }
    {
        Group(wire::two(self.bytes, self.row_place(j) + 4))
    }

    pub fn row_count(&self, j: usize) -> u16
        requires { j < length (summary_in self.now.bytes.now).rows }
        ensures { result ≡ (row_of (summary_in self.now.bytes.now) j).count }
    {
        wire::two(self.bytes, self.row_place(j) + 6)
    }

    // Where class link j starts.
    fn link_place(&self, j: usize) -> usize
        requires { j < length (summary_in self.now.bytes.now).links }
        ensures { (edge_of (summary_in self.now.bytes.now) j ≡ link_at self.now.bytes.now result)
            × (result + 6 ≤ length self.now.bytes.now) }
    {
        self.head(LINKS_AT) as usize + 2 * summary::EDGE * j
    }

    // "Class link: source class, label, target class".
    pub fn link_source(&self, j: usize) -> Class
        requires { j < length (summary_in self.now.bytes.now).links }
        ensures { result.0 ≡ (edge_of (summary_in self.now.bytes.now) j).source }
    {
        Class(wire::two(self.bytes, self.link_place(j)))
    }

    pub fn link_label(&self, j: usize) -> u16
        requires { j < length (summary_in self.now.bytes.now).links }
        ensures { result ≡ (edge_of (summary_in self.now.bytes.now) j).label }
    {
        wire::two(self.bytes, self.link_place(j) + 2)
    }

    pub fn link_target(&self, j: usize) -> Class
        requires { j < length (summary_in self.now.bytes.now).links }
        ensures { result.0 ≡ (edge_of (summary_in self.now.bytes.now) j).target }
    {
        Class(wire::two(self.bytes, self.link_place(j) + 4))
    }

    // "Map: the class of each item."
    pub fn class_of(&self, x: Item) -> Class
        requires { x.0 < length (summary_in self.now.bytes.now).map }
        ensures { result.0 ≡ class_at (summary_in self.now.bytes.now) x.0 }
    {
        Class(wire::two(self.bytes, self.head(MAP_AT) as usize + 2 * x.index()))
    }
}
