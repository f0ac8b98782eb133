// Rows and class links held against one another: each class link asks for two rows, and the rows asked for have to be the rows that stand.
// Leans on reader for the file's numbers and on seek for keys in order.
#![tactic(auto)]

ghost use Rattle.std.specs.Prelude.{◌≡◌, true, ◌+◌, ◌*◌, ◌≤◌, ◌<◌, length};
ghost use Rattle.meaning.specs.Count.{ascends};
ghost use Rattle.meaning.specs.Summary.{class_of};
ghost use Rattle.meaning.specs.WellFormed.{numbers, row_key, rows_match as rows_match_word};
ghost use Rattle.meaning.specs.SummaryFile.{summary_in};
ghost use Rattle.lists.specs.Writes.{Writes};
ghost use Rattle.header.specs.Keyed.{Keyed};
ghost use Rattle.header.specs.Limits.{Sized};
ghost use Rattle.matching.specs.Keys.{asked_key as asked_key_word};

use meaning::Direction;
use names::Class;
use reader::Summary;
use seek::Ascending;

// A summary whose numbers are in range and whose rows ascend, and the keys of its rows.
#[derive(Clone, Copy)]
pub struct Ordered<'a> {
    pub summary: Summary<'a>,
    pub keys: &'a [u64],
    ghost sized: { Sized summary.bytes.now },
    ghost in_range: { numbers (summary_in summary.bytes.now) ≡ true },
    ghost rising: { ascends row_key (summary_in summary.bytes.now).rows ≡ true },
    ghost few_groups: { (summary_in summary.bytes.now).groups ≤ 1024 },
    ghost long: { length keys.now ≡ 4096 },
    ghost keyed: { Keyed true (summary_in summary.bytes.now) keys.now },
}

impl Ordered<'_> {
    // "a row stands for a class, direction, label and group exactly when a class link joins that class to some class of the group that way".
    pub fn rows_match(&self) -> bool
        ensures { result ≡ rows_match_word (summary_in self.now.summary.bytes.now) }
    {
        if self.summary.links() <= 64 {
            let mut few = [0u64; 128];
            return self.matched(&mut few);
        }
        let mut asked = [0u64; 4096];
        self.matched(&mut asked)
    }

    // The same, with room lent for the keys that are asked for: where they are few, little has to be cleared.
    fn matched(&self, asked: &mut [u64]) -> bool
        requires { (2 * length (summary_in self.now.summary.bytes.now).links ≤ length asked.old) × (length asked.old ≤ 4096) }
        ensures { result ≡ rows_match_word (summary_in self.now.summary.bytes.now) }
    {
        let e = self.summary.links();
        self.put_asked(Direction::Outgoing, asked, 0);
        self.put_asked(Direction::Incoming, asked, e);
        let rows = Ascending {
            keys: &self.keys[..self.summary.rows()],
        };
        rows.same_members(&asked[..2 * e])
    }

    // The keys of the rows that the class links ask for, seen that way, from a place on.
    fn put_asked(&self, way: Direction, asked: &mut [u64], at: usize)
        requires { (at + length (summary_in self.now.summary.bytes.now).links ≤ length asked.old) × (length asked.old ≤ 4096) }
        ensures { Writes asked.old asked.new at (length (summary_in self.now.summary.bytes.now).links)
            (asked_key_word (summary_in self.now.summary.bytes.now) way) }
    {
        for j in 0..self.summary.links() {
            asked[at + j] = self.asked_key(way, j);
        }
    }

    // The key of the row that class link j asks for, seen that way.
    #[tactic(auto, using(crate::proofs::Match::link_at_law, crate::proofs::Laws::asked_out, crate::proofs::Laws::asked_in))]
    fn asked_key(&self, way: Direction, j: usize) -> u64
        requires { j < length (summary_in self.now.summary.bytes.now).links }
        ensures { result ≡ asked_key_word (summary_in self.now.summary.bytes.now) way j }
    {
        let source = self.summary.link_source(j);
        let label = self.summary.link_label(j);
        let target = self.summary.link_target(j);
        match way {
            Direction::Outgoing => self.key_for(source, label, target),
            Direction::Incoming => self.key_for(target, 16 + label, source),
        }
    }

    // Class, direction with label, and the group of the class to which the link leads, side by side.
    fn key_for(&self, near: Class, way: u16, far: Class) -> u64
        requires { far.0 < length (summary_in self.now.summary.bytes.now).classes }
        ensures { result ≡ (near.0 * 65536 + way) * 65536 + (class_of (summary_in self.now.summary.bytes.now) far.0).group }
    {
        let group = self.summary.group(far);
        (near.0 as u64 * 65536 + way as u64) * 65536 + group.0 as u64
    }
}
