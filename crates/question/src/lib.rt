// A question: the tree that stands at an entry, and the whole judged, with number 5 where it is malformed. Leans on entry for
// what is read of four bytes, and on meaning for the kinds and the refusals.
#![tactic(auto)]

ghost use Rattle.std.specs.Prelude.{◌≡◌, ◌<◌, max};
ghost use Rattle.question.specs.Read.{Spans, verdict, told};
ghost use Rattle.question.specs.Read as read;

use meaning::{Kind, Refusal};

// "A question is 1 to 64 entries of four bytes".
const MOST_ENTRIES: usize = 64;

// The tree that stands at an entry: its depth, its greatest threshold, and the entry after it.
#[derive(Clone, Copy)]
pub struct Tree {
    pub depth: usize,
    pub threshold: usize,
    pub next: usize,
}

// What a question needs of a summary: its depth and its greatest threshold.
#[derive(Clone, Copy)]
pub struct Needs {
    pub depth: usize,
    pub threshold: usize,
}

fn greater(a: usize, b: usize) -> usize
    ensures { result ≡ max a b }
{
    if a < b { b } else { a }
}

// "the others have the greatest of their operands' depths".
fn joined(first: Tree, second: Tree) -> Tree
    ensures { result ≡ read.joined first second }
{
    Tree {
        depth: greater(first.depth, second.depth),
        threshold: greater(first.threshold, second.threshold),
        next: second.next,
    }
}

// "The depth of an at-least entry is one more than its operand's depth".
fn raised(least: usize, operand: Tree) -> Tree
    requires { operand.depth < operand.next }
    ensures { result ≡ read.raised least operand }
{
    Tree {
        depth: operand.depth + 1,
        threshold: greater(least, operand.threshold),
        next: operand.next,
    }
}

// The tree that stands at entry `at`, "root first, each operator followed by its operands". The entries left fall.
pub fn span(q: &[u8], at: usize) -> Result<Tree, Refusal>
    ensures { Spans q.now at result }
{
    let Some(kind) = entry::read(q, at) else {
        return Err(Refusal::Question);
    };
    match kind {
        Kind::True | Kind::Literal(_) => Ok(Tree {
            depth: 0,
            threshold: 0,
            next: at + 1,
        }),
        Kind::Not => span(q, at + 1),
        Kind::And | Kind::Or => {
            let Ok(first) = span(q, at + 1) else {
                return Err(Refusal::Question);
            };
            let Ok(second) = span(q, first.next) else {
                return Err(Refusal::Question);
            };
            Ok(joined(first, second))
        }
        Kind::AtLeast { threshold, .. } => {
            let Ok(operand) = span(q, at + 1) else {
                return Err(Refusal::Question);
            };
            Ok(raised(threshold as usize, operand))
        }
    }
}

// "1 to 64 entries of four bytes, root first, each operator followed by its operands; nothing may remain."
pub fn judge(q: &[u8]) -> Result<Needs, Refusal>
    ensures { told result ≡ verdict q.now }
{
    let entries = q.len() / 4;
    if q.len() % 4 != 0 {
        return Err(Refusal::Question);
    }
    if MOST_ENTRIES < entries {
        return Err(Refusal::Question);
    }
    let Ok(tree) = span(q, 0) else {
        return Err(Refusal::Question);
    };
    if tree.next != entries {
        return Err(Refusal::Question);
    }
    let needs = Needs {
        depth: tree.depth,
        threshold: tree.threshold,
    };
    Ok(needs)
}
