// What a question on a summary looks up: the class's own rows in a direction and label, and "the group's lowest-numbered class". Leans on
// reader for the file's numbers, on header for the keys of its rows, and on seek for the rows.
#![tactic(auto)]

ghost use Rattle.std.specs.Prelude.{◌≡◌, true, ℕ, ◌<◌, length, get_or};
ghost use Rattle.meaning.specs.Summary.{lowest_class};
ghost use Rattle.meaning.specs.WellFormed as meant;
ghost use Rattle.meaning.specs.SummaryFile.{summary_in, well_formed_file};
ghost use Rattle.window.specs.Own.{Own};

use header::WellFormed;
use meaning::Direction;
use names::{Class, Group};
use reader::Summary;

// The rows from `low` up to `high`.
#[derive(Clone, Copy)]
pub struct Rows {
    pub low: usize,
    pub high: usize,
}

// "the group's lowest-numbered class", for each group. From the last class to the first, each is entered at its group, so that the lowest
// is the last to be.
#[tactic(auto, using(crate::proofs::Lowest::lowest))]
pub fn put_lowest(s: &Summary, lowest: &mut [u16])
    requires { (well_formed_file s.now.bytes.now ≡ true) × (length lowest.old ≡ 1024) }
    ensures { (length lowest.new ≡ 1024) × ((g : ℕ) → g < (summary_in s.now.bytes.now).groups →
        get_or lowest.new g 0 ≡ lowest_class (summary_in s.now.bytes.now) g) }
{
    for k in (0..s.classes() as u16).rev() {
        let class = Class(k);
        lowest[s.group(class).index()] = class.0;
    }
}

// The class that is entered at the group.
pub fn lowest_of(lowest: &[u16], group: Group) -> Class
    requires { group.0 < length lowest.now }
    ensures { result.0 ≡ get_or lowest.now group.0 0 }
{
    Class(lowest[group.index()])
}

// "direction times 16 plus label (out 0, in 1)".
#[tactic(auto, unfolding(meaning::specs::WellFormed::way))]
fn way(direction: Direction, label: u8) -> u16
    requires { label < 16 }
    ensures { result ≡ meant.way direction label }
{
    match direction {
        Direction::Outgoing => label as u16,
        Direction::Incoming => 16 + label as u16,
    }
}

// "the class's rows in that direction and label": keys that begin alike stand together.
pub fn rows_of(s: &WellFormed, class: Class, direction: Direction, label: u8) -> Rows
    requires { label < 16 }
    ensures { Own (summary_in s.now.summary.bytes.now) class.0 direction label result.low result.high }
{
    let begin = class.0 as u64 * 65536 + way(direction, label) as u64;
    let low = s.keys.find(begin * 65536);
    let high = s.keys.find((begin + 1) * 65536);
    Rows { low, high }
}
