// Whether a question holds at a class of a summary: "whether an entry holds asks for a count of neighbours, and that count asks whether the
// operand holds". Leans on entry and question for what is asked, on header for the well-formed summary, on window for a class's rows and a
// group's lowest class, and on memo for what was said.
#![tactic(auto, using(crate::proofs::Laws::consulted))]

ghost use Rattle.std.specs.Prelude.{◌≡◌, ℕ, cond, ◌+◌, ◌≤◌, ◌<◌, length, get_or};
ghost use Rattle.meaning.specs.Summary.{lowest_class};
ghost use Rattle.meaning.specs.SummaryFile.{summary_in};
ghost use Rattle.consult.specs.Consulted.{Holds, Counts, Answers, Remembers};

use header::WellFormed;
use meaning::{Kind, Refusal};
use names::{Class, Group};
use window::Rows;

// A question, the summary of which it is asked, and "the group's lowest-numbered class" for each group.
#[derive(Clone, Copy)]
struct Consulted<'a> {
    question: &'a [u8],
    read: WellFormed<'a>,
    lowest: &'a [u16],
    ghost lowest_long: { length lowest.now ≡ 1024 },
    ghost lowest_are: { (g : ℕ) → g < (summary_in read.summary.bytes.now).groups
        → get_or lowest.now g 0 ≡ lowest_class (summary_in read.summary.bytes.now) g },
}

// Whether the question, which has that depth, holds at the class.
pub fn ask(q: &[u8], depth: usize, s: &WellFormed, class: Class) -> Result<bool, Refusal>
    requires { class.0 < length (summary_in s.now.summary.bytes.now).classes }
    ensures { Holds q.now 0 (summary_in s.now.summary.bytes.now) class.0 result }
{
    let mut answer = [false; 1];
    let Ok(()) = put_answers(q, depth, s, class, &mut answer) else {
        return Err(Refusal::Question);
    };
    Ok(answer[0])
}

// Whether it holds at each class from the first on, as many as there is room for: "A question at an item of a summary is asked at its mapped
// class", so each class is asked once. Where no at-least stands inside another, nothing is worth keeping; and a question of 16 entries needs
// less room, which is quicker cleared.
pub fn put_answers(
    q: &[u8],
    depth: usize,
    s: &WellFormed,
    first: Class,
    answers: &mut [bool],
) -> Result<(), Refusal>
    requires { first.0 + length answers.old ≤ length (summary_in s.now.summary.bytes.now).classes }
    ensures { Answers q.now (summary_in s.now.summary.bytes.now) first.0 result answers.new }
{
    let mut lowest = [0u16; 1024];
    window::put_lowest(&s.summary, &mut lowest);
    let consulted = Consulted {
        question: q,
        read: *s,
        lowest: &lowest,
    };
    if depth < 2 {
        let mut nothing = [0u8; 1];
        return consulted.put_each(&mut nothing, first, answers);
    }
    if q.len() <= 64 {
        let mut little = [0u8; 16384];
        return consulted.put_each(&mut little, first, answers);
    }
    let mut known = [0u8; 65536];
    consulted.put_each(&mut known, first, answers)
}

impl Consulted<'_> {
    // Class by class.
    fn put_each(&self, known: &mut [u8], first: Class, answers: &mut [bool]) -> Result<(), Refusal>
        requires { Remembers self.now.question.now (summary_in self.now.read.summary.bytes.now) known.old
            × (first.0 + length answers.old ≤ length (summary_in self.now.read.summary.bytes.now).classes) }
        ensures { Answers self.now.question.now (summary_in self.now.read.summary.bytes.now) first.0 result answers.new }
    {
        for i in 0..answers.len() {
            let Ok(yes) = self.holds(0, known, Class(first.0 + i as u16)) else {
                return Err(Refusal::Question);
            };
            answers[i] = yes;
        }
        Ok(())
    }

    // Whether the tree at entry `at` holds at the class.
    #[cycle(group_holds_holds_neighbour_count)]
    fn holds(&self, at: usize, known: &mut [u8], class: Class) -> Result<bool, Refusal>
        requires { Remembers self.now.question.now (summary_in self.now.read.summary.bytes.now) known.old
            × (class.0 < length (summary_in self.now.read.summary.bytes.now).classes) }
        ensures holds { Holds self.now.question.now at (summary_in self.now.read.summary.bytes.now) class.0 result }
        ensures known { Remembers self.now.question.now (summary_in self.now.read.summary.bytes.now) known.new }
    {
        let Some(kind) = entry::read(self.question, at) else {
            return Err(Refusal::Question);
        };
        match kind {
            Kind::True => Ok(true),
            Kind::Literal(literal) => Ok(entry::shows(self.read.summary.marks(class), literal)),
            Kind::Not => {
                let Ok(yes) = self.holds(at + 1, known, class) else {
                    return Err(Refusal::Question);
                };
                Ok(!yes)
            }
            Kind::And | Kind::Or => {
                let Ok(first) = self.holds(at + 1, known, class) else {
                    return Err(Refusal::Question);
                };
                if memo::decides(kind, Ok(first)) {
                    return Ok(first);
                }
                let Ok(operand) = question::span(self.question, at + 1) else {
                    return Err(Refusal::Question);
                };
                self.holds(operand.next, known, class)
            }
            Kind::AtLeast {
                direction,
                label,
                threshold,
            } => {
                let rows = window::rows_of(&self.read, class, direction, label);
                let Ok(neighbours) = self.neighbour_count(at + 1, known, rows) else {
                    return Err(Refusal::Question);
                };
                Ok(threshold as u32 <= neighbours)
            }
        }
    }

    // The sum of the rows over the groups where the operand at entry `at` holds. No row adds nothing. A loop and not one more call a row, so
    // that a class with many rows takes no more stack than one with few.
    #[cycle(group_holds_holds_neighbour_count)]
    fn neighbour_count(&self, at: usize, known: &mut [u8], rows: Rows) -> Result<u32, Refusal>
        requires { Remembers self.now.question.now (summary_in self.now.read.summary.bytes.now) known.old × (rows.low ≤ rows.high)
            × (rows.high ≤ length (summary_in self.now.read.summary.bytes.now).rows) }
        ensures counts { Counts self.now.question.now at (summary_in self.now.read.summary.bytes.now) rows.low rows.high result }
        ensures known { Remembers self.now.question.now (summary_in self.now.read.summary.bytes.now) known.new }
    {
        let mut sum = 0;
        for row in rows.low..rows.high {
            let group = self.read.summary.row_group(row);
            let Ok(yes) = self.group_holds(at, known, group) else {
                return Err(Refusal::Question);
            };
            sum = added(sum, yes, self.read.summary.row_count(row));
        }
        Ok(sum)
    }

    // "an operand holds at a group when it holds at the group's lowest-numbered class": worked out once for each entry and group, so that
    // rows that lead to one group from many sides cost no more.
    #[cycle(group_holds_holds_neighbour_count)]
    fn group_holds(&self, at: usize, known: &mut [u8], group: Group) -> Result<bool, Refusal>
        requires { Remembers self.now.question.now (summary_in self.now.read.summary.bytes.now) known.old
            × (group.0 < (summary_in self.now.read.summary.bytes.now).groups) }
        ensures holds { Holds self.now.question.now at (summary_in self.now.read.summary.bytes.now)
            (lowest_class (summary_in self.now.read.summary.bytes.now) group.0) result }
        ensures known { Remembers self.now.question.now (summary_in self.now.read.summary.bytes.now) known.new }
    {
        let slot = memo::slot_of(at, group.0);
        if let Some(yes) = memo::recalled(known, slot) {
            return Ok(yes);
        }
        let class = window::lowest_of(self.lowest, group);
        let Ok(yes) = self.holds(at, known, class) else {
            return Err(Refusal::Question);
        };
        memo::remember(known, slot, yes);
        Ok(yes)
    }
}

// The row's count, where the operand holds.
fn added(sum: u32, yes: bool, count: u16) -> u32
    requires { sum + count ≤ 65536 }
    ensures { result ≡ sum + cond yes count 0 }
{
    if yes { sum + count as u32 } else { sum }
}
