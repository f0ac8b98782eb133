// A question asked of a register: from the item downwards, where few items have to be asked, and else of all items at once. Then, from the
// last entry to the first, it is kept for every entry and item whether the entry holds there, so that a question costs no more than about
// n + m steps an entry. Leans on descent for the first and on table for the second.
#![tactic(auto)]

ghost use Rattle.std.specs.Prelude.{◌≡◌, ◌+◌, ◌/◌, ◌≤◌, ◌<◌, leb, nat_abs, length};
ghost use Rattle.std.proofs.Math.Option.{some};
ghost use Rattle.meaning.specs.Register.{marks_of, neighbours};
ghost use Rattle.meaning.specs.Question.{shows};
ghost use Rattle.meaning.specs.RegisterFile.{register_in};
ghost use Rattle.meaning.specs.QuestionFile.{question};
ghost use Rattle.entry.specs.Entries.{entry_at};
ghost use Rattle.table.specs.Row.{Room, row, Writes};
ghost use Rattle.inquiry.specs.Known.{Whole, Known, Fills, pair_kind, asked};

use meaning::{Kind, Refusal};
use names::Item;
use register::{Along, Register};

// "On a register, neighbours are counted exactly and any depth is allowed." What a descent leaves unsaid, for want of steps, is asked of all
// items.
pub fn ask(reg: &Register, q: &[u8], depth: usize, x: Item) -> Result<bool, Refusal>
    requires { Whole q.now × (x.0 < reg.now.items) }
    ensures { result ≡ Ok (asked (register_in reg.now.bytes.now) (question q.now) x.0) }
{
    if let Ok(yes) = descent::ask(reg, q, depth, x) {
        return Ok(yes);
    }
    ask_all(reg, q, x)
}

// Of all items, with no bound but that of the question's length.
fn ask_all(reg: &Register, q: &[u8], x: Item) -> Result<bool, Refusal>
    requires { Whole q.now × (x.0 < reg.now.items) }
    ensures { result ≡ Ok (asked (register_in reg.now.bytes.now) (question q.now) x.0) }
{
    let mut table = [false; 65536];
    let Ok(()) = fill(&mut table, reg, q) else {
        return Err(Refusal::Question);
    };
    let at = x.index();
    Ok(table[at])
}

// The rows of all entries, from the last to the first.
fn fill(table: &mut [bool], reg: &Register, q: &[u8]) -> Result<(), Refusal>
    requires { (length table.old ≡ 65536) × Whole q.now }
    ensures { Fills result (register_in reg.now.bytes.now) q.now reg.now.items table.new 0 }
{
    for j in (0..q.len() / 4).rev() {
        let Ok(()) = put_entry(table, reg, q, j) else {
            return Err(Refusal::Question);
        };
    }
    Ok(())
}

// Row j, where the rows behind it stand.
fn put_entry(table: &mut [bool], reg: &Register, q: &[u8], j: usize) -> Result<(), Refusal>
    requires { Room table.old reg.now.items j × Whole q.now × (j < length q.now / 4)
        × Known (register_in reg.now.bytes.now) q.now reg.now.items table.old (j + 1) }
    ensures { Fills result (register_in reg.now.bytes.now) q.now reg.now.items table.new j }
{
    let Some(kind) = entry::read(q, j) else {
        return Err(Refusal::Question);
    };
    match kind {
        Kind::True => {
            table::put_true(table, reg.items, j);
            Ok(())
        }
        Kind::Literal(literal) => {
            put_literal(table, reg, j, literal);
            Ok(())
        }
        Kind::Not => {
            table::put_not(table, reg.items, j);
            Ok(())
        }
        Kind::And => put_operands(table, reg, q, j, false),
        Kind::Or => put_operands(table, reg, q, j, true),
        Kind::AtLeast {
            direction,
            label,
            threshold,
        } => {
            let along = Along {
                way: direction,
                label,
            };
            put_at_least(table, reg, j, along, threshold);
            Ok(())
        }
    }
}

// "and, or, two operands": the first stands at entry j + 1, the second where the first ends.
fn put_operands(
    table: &mut [bool],
    reg: &Register,
    q: &[u8],
    j: usize,
    any: bool,
) -> Result<(), Refusal>
    requires { Room table.old reg.now.items j × Whole q.now × (entry_at q.now j ≡ some (pair_kind any))
        × Known (register_in reg.now.bytes.now) q.now reg.now.items table.old (j + 1) }
    ensures { Fills result (register_in reg.now.bytes.now) q.now reg.now.items table.new j }
{
    let Ok(operand) = question::span(q, j + 1) else {
        return Err(Refusal::Question);
    };
    table::put_pair(table, reg.items, j, operand.next, any);
    Ok(())
}

// "k means mark k is on the item, −k that it is absent".
fn put_literal(table: &mut [bool], reg: &Register, j: usize, literal: i8)
    requires { Room table.old reg.now.items j × (1 ≤ nat_abs literal) × (nat_abs literal ≤ 32) }
    ensures { Writes table.old table.new reg.now.items j
        (λ x. shows (marks_of (register_in reg.now.bytes.now) x) literal) }
{
    for x in 0..reg.items {
        let marks = reg.marks(Item(x as u16));
        table[1024 * j + x] = entry::shows(marks, literal);
    }
}

// "at least t .. neighbours .. satisfy the operand", which stands at entry j + 1.
fn put_at_least(table: &mut [bool], reg: &Register, j: usize, along: Along, threshold: u8)
    requires { Room table.old reg.now.items (j + 1) }
    ensures { Writes table.old table.new reg.now.items j
        (λ x. leb threshold (neighbours (register_in reg.now.bytes.now) along.way along.label (row table.old (j + 1)) x)) }
{
    let counts = table::count(table, j + 1, reg, along);
    table::put_reached(table, reg.items, j, &counts, threshold as u16);
}
