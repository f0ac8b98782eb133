// A question asked at one item of a register, from the item downwards: an operand is asked only where the answer hangs on it, and once an
// item. Leans on entry and question for what is asked, on nearby for an item's links and on memo for what was said before.
// What was not said is passed on by `match`: `?` has code in std that the crate linked could not name.
#![tactic(auto)]

ghost use Rattle.std.specs.Prelude.{◌≡◌, ◌+◌, ◌≤◌, ◌<◌, cond, length, get_or};
ghost use Rattle.meaning.specs.Question as meant;
ghost use Rattle.meaning.specs.RegisterFile.{register_in};
ghost use Rattle.memo.specs.Kept.{Remembers};
ghost use Rattle.memo.specs.Kept as kept;
ghost use Rattle.nearby.specs.Nearby.{Outs, Ins};
ghost use Rattle.descent.specs.Tells.{register_of, Tells, reaching, leading, Cleared};

use meaning::{Direction, Kind, Refusal};
use names::Item;
use nearby::Links;
use register::{Along, Register};

// So many operands are asked one by one; a question that needs more is better asked at all items at once.
const MOST_STEPS: u16 = 4096;

// Why it was not said whether a question holds. Out of steps is no refusal: who asked asks at all items at once.
#[derive(Clone, Copy)]
pub enum Unsaid {
    OutOfSteps,
    Refused(Refusal),
}

// What is asked, and of what.
#[derive(Clone, Copy)]
struct Asked<'q, 'r> {
    question: &'q [u8],
    links: Links<'r>,
}

// What operands were found to say, and how many may yet be asked.
#[derive(Drop)]
struct Memory<'a> {
    known: &'a mut [u8],
    steps: u16,
}

impl Memory<'_> {
    fn recalled(&self, slot: usize) -> Option<bool>
        ensures { result ≡ kept.recalled (get_or self.now.known.now slot 0) }
    {
        memo::recalled(self.known, slot)
    }
}

// Whether the question, which has that depth, holds at the item, if that is soon said. Where no at-least stands inside another, nothing is
// worth keeping.
pub fn ask(reg: &Register, q: &[u8], depth: usize, x: Item) -> Result<bool, Unsaid>
    requires { x.0 < reg.now.items }
    ensures { Tells q.now 0 (λ t. meant.holds (register_in reg.now.bytes.now) t x.0) result }
{
    if depth < 2 {
        let links = Links {
            register: *reg,
            outs: &[],
            ins: &[],
        };
        let asked = Asked { question: q, links };
        return ask_kept(&asked, &mut [], x);
    }
    let Ok(incoming) = asks_incoming(q) else {
        return Err(Unsaid::Refused(Refusal::Question));
    };
    let mut outs = [0u16; 1024];
    let mut ins = [0u16; 3072];
    let links = Links {
        register: *reg,
        outs: outs_made(reg, q, &mut outs),
        ins: ins_made(reg, incoming, &mut ins),
    };
    ask_deep(&Asked { question: q, links }, x)
}

// A question of 16 entries needs less room for what is kept, which is quicker cleared.
fn ask_deep(asked: &Asked, x: Item) -> Result<bool, Unsaid>
    requires { x.0 < asked.now.links.register.items }
    ensures { Tells asked.now.question.now 0 (λ t. meant.holds (register_of asked.now) t x.0) result }
{
    if asked.question.len() <= 64 {
        let mut little = [0u8; 16384];
        return ask_kept(asked, &mut little, x);
    }
    let mut known = [0u8; 65536];
    ask_kept(asked, &mut known, x)
}

// From entry 0, with nothing known yet.
fn ask_kept(asked: &Asked, known: &mut [u8], x: Item) -> Result<bool, Unsaid>
    requires { (x.0 < asked.now.links.register.items) × (length known.old ≤ 65536) × Cleared known.old }
    ensures { Tells asked.now.question.now 0 (λ t. meant.holds (register_of asked.now) t x.0) result }
{
    let mut memory = Memory {
        known,
        steps: MOST_STEPS,
    };
    holds(asked, 0, &mut memory, x)
}

// Where each item's outgoing links end, made where a question is so long that it pays.
fn outs_made<'a>(reg: &Register, q: &[u8], outs: &'a mut [u16]) -> &'a [u16]
    requires { (length outs.old ≡ 1024) × Cleared outs.old }
    ensures { Outs (register_in reg.now.bytes.now) result.now }
{
    if q.len() <= 64 {
        return &[];
    }
    nearby::put_outs(reg, outs);
    outs
}

// The incoming links of each item, made where the question asks for incoming neighbours.
fn ins_made<'a>(reg: &Register, incoming: bool, ins: &'a mut [u16]) -> &'a [u16]
    requires { (length ins.old ≡ 3072) × Cleared ins.old }
    ensures { Ins (register_in reg.now.bytes.now) result.now }
{
    if !incoming {
        return &[];
    }
    nearby::put_ins(reg, ins);
    ins
}

// Whether some entry is one of "the same, incoming": entry by entry, up to the first that is.
fn asks_incoming(q: &[u8]) -> Result<bool, Refusal> {
    let mut incoming = false;
    for j in 0..q.len() / 4 {
        let Some(kind) = entry::read(q, j) else {
            return Err(Refusal::Question);
        };
        incoming = matches!(
            kind,
            Kind::AtLeast {
                direction: Direction::Incoming,
                ..
            }
        );
        if incoming {
            break;
        }
    }
    Ok(incoming)
}

// Whether the tree at entry `at` holds at the item.
#[cycle(holds_leads_reaches)]
fn holds(asked: &Asked, at: usize, memory: &mut Memory, x: Item) -> Result<bool, Unsaid>
    requires { Remembers asked.now.question.now (meant.holds (register_of asked.now)) memory.old.known.now
        × (x.0 < asked.now.links.register.items) }
    ensures tells { Tells asked.now.question.now at (λ t. meant.holds (register_of asked.now) t x.0) result }
    ensures known { Remembers asked.now.question.now (meant.holds (register_of asked.now)) memory.new.known.now }
{
    let Some(kind) = entry::read(asked.question, at) else {
        return Err(Unsaid::Refused(Refusal::Question));
    };
    match kind {
        Kind::True => Ok(true),
        Kind::Literal(literal) => Ok(entry::shows(asked.links.register.marks(x), literal)),
        Kind::Not => match holds(asked, at + 1, memory, x) {
            Ok(yes) => Ok(!yes),
            Err(unsaid) => Err(unsaid),
        },
        Kind::And | Kind::Or => {
            let first = match holds(asked, at + 1, memory, x) {
                Ok(yes) => yes,
                Err(unsaid) => return Err(unsaid),
            };
            if memo::decides(kind, Ok(first)) {
                return Ok(first);
            }
            let Ok(operand) = question::span(asked.question, at + 1) else {
                return Err(Unsaid::Refused(Refusal::Question));
            };
            holds(asked, operand.next, memory, x)
        }
        Kind::AtLeast {
            direction,
            label,
            threshold,
        } => {
            let along = Along {
                way: direction,
                label,
            };
            reaches(asked, at + 1, memory, along, threshold, x)
        }
    }
}

// "at least t .. neighbours .. satisfy the operand", which stands at entry `at`: the item's links from the last to the first, up to the t-th
// that leads to such a neighbour. The loop is `while`: each place is found from the one before.
#[cycle(holds_leads_reaches)]
fn reaches(
    asked: &Asked,
    at: usize,
    memory: &mut Memory,
    along: Along,
    threshold: u8,
    x: Item,
) -> Result<bool, Unsaid>
    requires { Remembers asked.now.question.now (meant.holds (register_of asked.now)) memory.old.known.now
        × (1 ≤ threshold) × (threshold ≤ 8) × (x.0 < asked.now.links.register.items) }
    ensures tells { Tells asked.now.question.now at
        (reaching (register_of asked.now) along.way along.label threshold x.0) result }
    ensures known { Remembers asked.now.question.now (meant.holds (register_of asked.now)) memory.new.known.now }
{
    let mut met = 0;
    let mut place = asked.links.last(along.way, x);
    while 0 < place {
        let yes = match leads(asked, at, memory, along, place - 1) {
            Ok(yes) => yes,
            Err(unsaid) => return Err(unsaid),
        };
        met = added(met, yes);
        if met == threshold {
            return Ok(true);
        }
        place = asked.links.before(along.way, x, place);
    }
    Ok(false)
}

// One more, where the operand holds.
fn added(met: u8, yes: bool) -> u8
    requires { met < 255 }
    ensures { result ≡ met + cond yes 1 0 }
{
    if yes { met + 1 } else { met }
}

// Whether the link has that label and leads, that way, to a neighbour that satisfies the operand at entry `at`.
#[cycle(holds_leads_reaches)]
fn leads(
    asked: &Asked,
    at: usize,
    memory: &mut Memory,
    along: Along,
    link: usize,
) -> Result<bool, Unsaid>
    requires { Remembers asked.now.question.now (meant.holds (register_of asked.now)) memory.old.known.now
        × (link < asked.now.links.register.links) }
    ensures tells { Tells asked.now.question.now at
        (leading (register_of asked.now) along.way along.label link) result }
    ensures known { Remembers asked.now.question.now (meant.holds (register_of asked.now)) memory.new.known.now }
{
    if asked.links.register.label(link) != along.label {
        return Ok(false);
    }
    let neighbour = asked.links.register.far(link, along.way);
    let slot = memo::slot_of(at, neighbour.0);
    if let Some(yes) = memory.recalled(slot) {
        return Ok(yes);
    }
    if memory.steps == 0 {
        return Err(Unsaid::OutOfSteps);
    }
    memory.steps -= 1;
    match holds(asked, at, memory, neighbour) {
        Ok(yes) => {
            memo::remember(memory.known, slot, yes);
            Ok(yes)
        }
        Err(unsaid) => Err(unsaid),
    }
}
