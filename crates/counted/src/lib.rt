// Items counted and marks compared: "each item's marks equal its class's, each class's stated count equals its number of items capped at
// ν". Leans on reader and proposed for the files, on capped for a count up to a cap.
#![tactic(auto)]

ghost use Rattle.std.specs.Prelude.{◌≡◌, ℕ, ◌<◌, eqb, length, get_or};
ghost use Rattle.meaning.specs.Count.{tally, all};
ghost use Rattle.meaning.specs.Cap.{cap};
ghost use Rattle.meaning.specs.Register.{marks_of};
ghost use Rattle.meaning.specs.Summary.{class_of as class_of_word, class_at};
ghost use Rattle.meaning.specs.RegisterFile.{register_in};
ghost use Rattle.meaning.specs.SummaryFile.{summary_in};
ghost use Rattle.proposed.specs.Proposed.{Proposed};

use names::{Class, Item};
use proposed::Proposal;
use reader::Summary;

// "each item's marks equal its class's".
pub fn marks_equal(p: &Proposal) -> bool
    ensures { result ≡ all (λ x. eqb (marks_of (register_in p.now.register.bytes.now) x)
        (class_of_word (summary_in p.now.summary.bytes.now) (class_at (summary_in p.now.summary.bytes.now) x)).marks) p.now.register.items }
{
    for x in 0..p.register.items {
        let item = Item(x as u16);
        let class = p.summary.class_of(item);
        if p.register.marks(item) != p.summary.marks(class) {
            return false;
        }
    }
    true
}

// The class of each item.
fn put_classes(n: usize, s: &Summary, classes: &mut [u16])
    requires { Proposed s.now.bytes.now n × (length classes.old ≡ n) }
    ensures { (x : ℕ) → x < n → get_or classes.new x 0 ≡ class_at (summary_in s.now.bytes.now) x }
{
    for x in 0..n {
        let class = s.class_of(Item(x as u16));
        classes[x] = class.0;
    }
}

// "each class's stated count equals its number of items capped at ν".
pub fn counts_equal(n: usize, s: &Summary, nu: u8) -> bool
    requires { Proposed s.now.bytes.now n × (nu ≡ (summary_in s.now.bytes.now).class_cap) }
    ensures { result ≡ all (λ k. eqb (class_of_word (summary_in s.now.bytes.now) k).count
        (cap (summary_in s.now.bytes.now).class_cap
        (tally (λ x. eqb (class_at (summary_in s.now.bytes.now) x) k) n)))
        (length (summary_in s.now.bytes.now).classes) }
{
    let mut classes = [0u16; 1024];
    counts_stated(n, s, nu, &mut classes[..n])
}

// The same, with room lent for the class of each item.
fn counts_stated(n: usize, s: &Summary, nu: u8, classes: &mut [u16]) -> bool
    requires { (nu ≡ (summary_in s.now.bytes.now).class_cap) × Proposed s.now.bytes.now n × (length classes.old ≡ n) }
    ensures { result ≡ all (λ k. eqb (class_of_word (summary_in s.now.bytes.now) k).count
        (cap (summary_in s.now.bytes.now).class_cap
        (tally (λ x. eqb (class_at (summary_in s.now.bytes.now) x) k) n)))
        (length (summary_in s.now.bytes.now).classes) }
{
    put_classes(n, s, classes);
    let counts = capped::by_class(classes, nu);
    for k in 0..s.classes() {
        let counted = counts[k];
        if s.count(Class(k as u16)) != counted.number {
            return false;
        }
    }
    true
}
