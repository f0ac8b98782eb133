// The rows of a summary's classes as numbers, in file order. A class's rows are those of its lowest item; the level step left the rows of
// all items as words, and here they are taken apart with the class in front. Leans on rows for the words and on summary for the numbers.
#![tactic(auto)]

ghost use Rattle.std.specs.Prelude.{◌≡◌, List, ℕ, ◌+◌, ◌*◌, ◌<◌, ◌≤◌, length, take};
ghost use Rattle.std.proofs.lemmas.List.Edits.{sets};
ghost use Rattle.meaning.specs.Register.{Register};
ghost use Rattle.meaning.specs.Bytes.{pack};
ghost use Rattle.summary.specs.Numbers.{row_numbers as row_numbers_word};
ghost use Rattle.filed.specs.Copied.{word_numbers, copied, Words, class_rows, Given};

// Row number at: the class and what the word says.
fn put_row(class: u16, word: u64, at: usize, out: &mut [u16])
    requires { (word < 524288) × (at < 4096) × (length out.old ≡ 16384) }
    ensures { out.new ≡ sets out.old (4 * at) (word_numbers class word) }
{
    let first = 4 * at;
    out[first] = class;
    out[first + 1] = (word / 16384) as u16;
    out[first + 2] = (word / 16 % 1024) as u16;
    out[first + 3] = (word % 16) as u16;
}

// The m words from a place on, as rows of the class, from row number at on.
fn copy_rows(class: u16, rows: &[u64], from: usize, m: usize, at: usize, out: &mut [u16])
    requires { Words rows.now from m × (at + m ≤ 4096) × (length out.old ≡ 16384) }
    ensures { out.new ≡ sets out.old (4 * at) (copied rows.now class from m) }
{
    for j in 0..m {
        put_row(class, rows[from + j], at + j, out);
    }
}

// The rows of all classes, four numbers each, and how many rows there are. Classes are "numbered from 0 in order of their lowest item", so
// an item is the lowest of its class exactly when its class is the number of classes seen before it.
pub fn row_numbers(classes: &[u16], starts: &[u16], rows: &[u64], out: &mut [u16]) -> usize
    requires { ((R : Register) × (µ : ℕ) × (gs : List ℕ) × Given R µ gs classes.now starts.now rows.now) × (length out.old ≡ 16384) }
    ensures { (R : Register) (µ : ℕ) (gs : List ℕ) → Given R µ gs classes.now starts.now rows.now
        → (result ≡ length (class_rows R µ gs classes.now))
        × (take (4 * result) out.new ≡ pack row_numbers_word (class_rows R µ gs classes.now)) }
{
    let mut seen = 0;
    let mut at = 0;
    for (x, class) in classes.iter().enumerate() {
        if *class as usize == seen {
            let from = starts[x] as usize;
            let m = starts[x + 1] as usize - from;
            copy_rows(*class, rows, from, m, at, out);
            seen += 1;
            at += m;
        }
    }
    at
}
