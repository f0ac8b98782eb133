// The rows of items held against the rows of their classes, row by row. Leans on reader for the summary, on surround for the rows of items,
// on seek for keys in order.
#![tactic(auto)]

ghost use Rattle.std.specs.Prelude.{◌≡◌, ◌&&◌, ◌+◌, ◌≤◌, ◌<◌, eqb, length, get_or};
ghost use Rattle.meaning.specs.Count.{tab, all};
ghost use Rattle.meaning.specs.declared.Direction.TheVariants.{Outgoing, Incoming};
ghost use Rattle.meaning.specs.Summary.{row_of, class_at, group_at};
ghost use Rattle.meaning.specs.Check.{row_right};
ghost use Rattle.meaning.specs.RegisterFile.{register_in};
ghost use Rattle.meaning.specs.SummaryFile.{summary_in};
ghost use Rattle.surround.specs.Surroundings.{word_of};
ghost use Rattle.rowwise.specs.Started.{Started};
ghost use Rattle.rowwise.specs.Rows.{class_rows, same_words};

use header::WellFormed;
use names::{Class, Item};
use radix::Room;
use reader::Summary;
use register::Register;

// So many keys of rows a class may have: a key has a way and a group below 65,536 each.
const CLASS_KEYS: u64 = 4294967296;

// The group of each item's class.
#[tactic(auto, using(crate::proofs::Items::groups), unfolding(meaning::specs::Summary::group_at))]
fn put_groups(s: &WellFormed, groups: &mut [u16])
    requires { length groups.old ≡ length (summary_in s.now.summary.bytes.now).map }
    ensures { groups.new ≡ tab (group_at (summary_in s.now.summary.bytes.now)) (length (summary_in s.now.summary.bytes.now).map) }
{
    for (x, group) in groups.iter_mut().enumerate() {
        let class = s.summary.class_of(Item(x as u16));
        *group = s.summary.group(class).0;
    }
}

// Row j, but for its class, in one word: so surround has the rows of items.
#[tactic(auto, unfolding(surround::specs::Surroundings::word_of))]
fn word(s: &Summary, j: usize) -> u64
    requires { j < length (summary_in s.now.bytes.now).rows }
    ensures { result ≡ word_of (row_of (summary_in s.now.bytes.now) j) }
{
    let way = s.row_way(j) as u64;
    let group = s.row_group(j);
    let count = s.row_count(j) as u64;
    (way * 1024 + group.0 as u64) * 16 + count
}

// Whether the words from a place on are those of so many rows from row `low` on.
#[tactic(auto, using(crate::proofs::Items::compared))]
fn words_equal(s: &WellFormed, low: usize, count: usize, words: &[u64], from: usize) -> bool
    requires { (low + count ≤ length (summary_in s.now.summary.bytes.now).rows) × (from + count ≤ length words.now) }
    ensures { result ≡ all (λ j. eqb (get_or words.now (from + j) 0) (word_of (row_of (summary_in s.now.summary.bytes.now) (low + j)))) count }
{
    for j in 0..count {
        if words[from + j] != word(&s.summary, low + j) {
            return false;
        }
    }
    true
}

// Whether the words between two places are those of the class's rows, which are found by their keys.
fn class_rows_equal(s: &WellFormed, class: Class, words: &[u64], from: usize, to: usize) -> bool
    requires { (from ≤ to) × (to ≤ length words.now) }
    ensures { result ≡ same_words words.now from to (class_rows class.0 (summary_in s.now.summary.bytes.now).rows) }
{
    let least = class.0 as u64 * CLASS_KEYS;
    let low = s.keys.find(least);
    let high = s.keys.find(least + CLASS_KEYS);
    if high - low != to - from {
        return false;
    }
    words_equal(s, low, to - from, words, from)
}

// Whether each item has the rows of its class.
#[tactic(auto, using(crate::proofs::Items::compared))]
fn item_rows_equal(n: usize, s: &WellFormed, starts: &[u16], words: &[u64]) -> bool
    requires { (length (summary_in s.now.summary.bytes.now).map ≡ n) × Started starts.now n (length words.now) }
    ensures { result ≡ all (λ x. same_words words.now (get_or starts.now x 0) (get_or starts.now (x + 1) 0)
        (class_rows (class_at (summary_in s.now.summary.bytes.now) x) (summary_in s.now.summary.bytes.now).rows)) n }
{
    for x in 0..n {
        let class = s.summary.class_of(Item(x as u16));
        let from = starts[x] as usize;
        let to = starts[x + 1] as usize;
        if !class_rows_equal(s, class, words, from, to) {
            return false;
        }
    }
    true
}

// "for every item, direction, label and group the number of neighbours whose class lies in that group, capped at µ, equals the row (zero
// where there is none)": the rows of all items against the groups of their classes, held against the rows of their classes.
pub fn rows_equal(reg: &Register, s: &WellFormed, mu: u8) -> bool
    requires { (length (summary_in s.now.summary.bytes.now).map ≡ reg.now.items) × (mu ≡ (summary_in s.now.summary.bytes.now).near_cap) }
    ensures { result ≡ all (λ x. all (λ l. all (λ q.
        row_right (register_in reg.now.bytes.now) (summary_in s.now.summary.bytes.now) x l q Outgoing
        && row_right (register_in reg.now.bytes.now) (summary_in s.now.summary.bytes.now) x l q Incoming)
        (summary_in s.now.summary.bytes.now).groups) 16) reg.now.items }
{
    let mut groups = [0u16; 1024];
    rows_held(reg, s, mu, &mut groups[..reg.items])
}

// The same, with room lent for the group of each item.
fn rows_held(reg: &Register, s: &WellFormed, mu: u8, groups: &mut [u16]) -> bool
    requires { (length (summary_in s.now.summary.bytes.now).map ≡ reg.now.items) × (mu ≡ (summary_in s.now.summary.bytes.now).near_cap)
        × (length groups.old ≡ reg.now.items) }
    ensures { result ≡ all (λ x. all (λ l. all (λ q.
        row_right (register_in reg.now.bytes.now) (summary_in s.now.summary.bytes.now) x l q Outgoing
        && row_right (register_in reg.now.bytes.now) (summary_in s.now.summary.bytes.now) x l q Incoming)
        (summary_in s.now.summary.bytes.now).groups) 16) reg.now.items }
{
    let mut words = [0u64; 4096];
    let mut starts = [0u16; 1025];
    let mut keys = [0u64; 4096];
    let mut other = [0u64; 4096];
    put_groups(s, groups);
    surround::put_item_rows(
        reg,
        mu,
        groups,
        &mut words,
        &mut starts,
        Room {
            keys: &mut keys,
            other: &mut other,
        },
    );
    item_rows_equal(reg.items, s, &starts, &words)
}
