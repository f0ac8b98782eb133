// Level 0: items numbered "in order of their lowest item", by their marks, in about linear time. Each item's marks and number go into one
// word, and the words are sorted: the first of a run is the lowest item with those marks. Leans on register for the marks, on radix.
#![tactic(auto)]

ghost use Rattle.std.specs.Prelude.{◌≡◌, ℕ, ◌+◌, ◌*◌, ◌<◌, ◌≤◌, length, get_or};
ghost use Rattle.meaning.specs.Count.{tally, tab};
ghost use Rattle.meaning.specs.Register.{marks_of};
ghost use Rattle.meaning.specs.Level.{first, number, class_list, class_count};
ghost use Rattle.meaning.specs.RegisterFile.{register_in};
ghost use Rattle.marked.specs.Lowest.{own, number_of, Lows, pack, Listed, same_marks};

use names::Item;
use radix::Room;
use register::Register;

// "Two items are alike at level 0 when their marks fields are equal": the class list of level 0, and how many classes it has.
pub fn by_marks(reg: &Register, out: &mut [u16], room: Room) -> usize
    requires { (length out.old ≡ reg.now.items) × (reg.now.items ≤ length room.keys.now) × (reg.now.items ≤ length room.other.now) }
    ensures { (µ : ℕ) → (result ≡ class_count (class_list (register_in reg.now.bytes.now) µ 0))
        × (out.new ≡ class_list (register_in reg.now.bytes.now) µ 0) }
{
    let mut marks = [0u32; 1024];
    let marks = &mut marks[..reg.items];
    read_marks(reg, marks);
    let Room { keys, other } = room;
    number_by_marks(marks, out, keys, other)
}

// The marks fields of all items.
fn read_marks(reg: &Register, marks: &mut [u32])
    requires { length marks.old ≡ reg.now.items }
    ensures { (x : ℕ) → x < reg.now.items → get_or marks.new x 0 ≡ marks_of (register_in reg.now.bytes.now) x }
{
    for x in 0..reg.items {
        marks[x] = reg.marks(Item(x as u16));
    }
}

// Each item's number by its marks.
fn number_by_marks(marks: &[u32], out: &mut [u16], keys: &mut [u64], other: &mut [u64]) -> usize
    requires { (length marks.now ≤ 1024) × (length out.old ≡ length marks.now)
        × (length marks.now ≤ length keys.old) × (length marks.now ≤ length other.old) }
    ensures { (result ≡ class_count (tab (number (same_marks marks.now)) (length marks.now)))
        × (out.new ≡ tab (number (same_marks marks.now)) (length marks.now)) }
{
    let n = marks.len();
    let words = &mut keys[..n];
    put_marks(marks, words);
    radix::sort(words, other);
    let mut firsts = [0u16; 1024];
    let firsts = &mut firsts[..n];
    find_marked(marks, words, firsts);
    number_firsts(firsts, out)
}

// Each item with its marks, in one word.
fn put_marks(marks: &[u32], out: &mut [u64])
    requires { (length marks.now ≤ 1024) × (length out.old ≡ length marks.now) }
    ensures { out.new ≡ tab (pack (λ x. get_or marks.now x 0)) (length marks.now) }
{
    for (x, own) in marks.iter().enumerate() {
        out[x] = *own as u64 * 1024 + x as u64;
    }
}

// The lowest item with the marks of each item: the first of its run.
fn find_marked(marks: &[u32], s: &[u64], firsts: &mut [u16])
    requires few { length marks.now ≤ 1024 }
    requires listed { Listed (λ x. get_or marks.now x 0) (length marks.now) s.now }
    requires as_many { (length s.now ≡ length marks.now) × (length firsts.old ≡ length marks.now) }
    ensures { (x : ℕ) → x < length marks.now → get_or firsts.new x 0 ≡ first (same_marks marks.now) x }
{
    let mut r = 0;
    for p in 0..s.len() {
        if s[p] / 1024 != s[r] / 1024 {
            r = p;
        }
        let x = (s[p] % 1024) as usize;
        firsts[x] = (s[r] % 1024) as u16;
    }
}

// Each item's number, from the lowest item alike each; and how many numbers there are.
pub fn number_firsts(firsts: &[u16], out: &mut [u16]) -> usize
    requires as_many { length out.old ≡ length firsts.now }
    requires few { length firsts.now < 65536 }
    requires lowest { Lows firsts.now (length firsts.now) }
    ensures { (result ≡ tally (own firsts.now) (length firsts.now))
        × (out.new ≡ tab (number_of firsts.now) (length firsts.now)) }
{
    let mut k = 0;
    for (i, j) in firsts.iter().enumerate() {
        let j = *j as usize;
        if j == i {
            out[i] = k as u16;
            k += 1;
        } else {
            out[i] = out[j];
        }
    }
    k
}
