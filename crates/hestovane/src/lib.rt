// The public calls. Each takes any input, judges it for itself and refuses with document 01's numbers in document 01's order; its
// contract is an equation with the call's one definition in meaning's Answers. The last five, which hestovane_c exports to C, give the
// same as one number. A refusal is passed on by `match`: `?` has code in std that the crate linked could not name.
#![tactic(auto)]

ghost use Rattle.std.specs.Prelude.{◌≡◌, length};
ghost use Rattle.meaning.specs.QuestionFile.{question};
ghost use Rattle.meaning.specs.SummaryFile.{summary_in};
ghost use Rattle.meaning.specs.Answers.{returned, code, left, ask_tree};
ghost use Rattle.meaning.specs.Answers as answers;
ghost use Rattle.inquiry.specs.Known.{Whole};
ghost use Rattle.hestovane.specs.Reached.{Reached};
ghost use Rattle.said.specs.Told.{told};
ghost use Rattle.said.specs.Written.{Gives};

use condense::Wanted;
use header::WellFormed;
use meaning::Refusal;
use names::{Class, Item};
use question::Needs;
use register::Register;

// Whether the question holds at the item of the register: "ask a register 1, 2, 3, 5, 8".
pub fn ask_register(reg: &[u8], q: &[u8], item: u16) -> Result<bool, Refusal>
    ensures { told result ≡ returned (answers.ask_register reg.now q.now item) }
{
    match register::judge(reg) {
        Ok(register) => ask_accepted(&register, q, item),
        Err(refusal) => Err(refusal),
    }
}

// The register is accepted: 5.
fn ask_accepted(reg: &Register, q: &[u8], item: u16) -> Result<bool, Refusal>
    ensures { told result ≡ returned (ask_tree reg.now.bytes.now item (question q.now)) }
{
    match question::judge(q) {
        Ok(needs) => ask_whole(reg, q, needs.depth, item),
        Err(five) => Err(five),
    }
}

// And the question is well formed: 8, and then the answer.
fn ask_whole(reg: &Register, q: &[u8], depth: usize, item: u16) -> Result<bool, Refusal>
    requires { Whole q.now }
    ensures { told result ≡ returned (ask_tree reg.now.bytes.now item (question q.now)) }
{
    if reg.items <= item as usize {
        return Err(Refusal::Item);
    }
    inquiry::ask(reg, q, depth, Item(item))
}

// The summary of the register, into the lent buffer: "condense 1, 2, 3 as above, 4, 9".
pub fn condense(reg: &[u8], i: u16, mu: u16, nu: u16, out: &mut [u8]) -> Result<usize, Refusal>
    ensures { Gives result out.old out.new (answers.condense i mu nu reg.now (length out.old)) }
{
    match register::judge(reg) {
        Ok(register) => condense_accepted(&register, i, mu, nu, out),
        Err(fault) => Err(fault),
    }
}

// The register is accepted: "4: i, µ or ν out of range", judged before anything is narrowed to a byte.
fn condense_accepted(
    reg: &Register,
    i: u16,
    mu: u16,
    nu: u16,
    out: &mut [u8],
) -> Result<usize, Refusal>
    ensures { Gives result out.old out.new (answers.condense i mu nu reg.now.bytes.now (length out.old)) }
{
    if range::in_range(i, mu, nu) {
        let wanted = Wanted {
            level: i,
            near_cap: mu as u8,
            class_cap: nu as u8,
        };
        return condense::condense(reg, wanted, out);
    }
    Err(Refusal::Range)
}

// Whether the proposed summary is an abstraction of the register: "check 1, 2, 3, 6".
pub fn check(reg: &[u8], s: &[u8]) -> Result<bool, Refusal>
    ensures { told result ≡ returned (answers.check reg.now s.now) }
{
    match register::judge(reg) {
        Ok(register) => check_accepted(&register, s),
        Err(refusal) => Err(refusal),
    }
}

// The register is accepted: "6: summary not well formed", and then the answer.
fn check_accepted(reg: &Register, s: &[u8]) -> Result<bool, Refusal>
    ensures { told result ≡ returned (answers.check reg.now.bytes.now s.now) }
{
    let mut keys = [0u64; 4096];
    match wellformed::judge(s, &mut keys) {
        Ok(read) => Ok(proposal::check(reg, &read)),
        Err(six) => Err(six),
    }
}

// Whether the question holds at the item of the summary: "ask a summary 6, 5, 7, 8".
pub fn ask_summary(s: &[u8], q: &[u8], item: u16) -> Result<bool, Refusal>
    ensures { told result ≡ returned (answers.ask_summary s.now q.now item) }
{
    let mut keys = [0u64; 4096];
    match wellformed::judge(s, &mut keys) {
        Ok(read) => ask_read(&read, q, item),
        Err(refusal) => Err(refusal),
    }
}

// The summary is well formed: 5, and 7.
fn ask_read(s: &WellFormed, q: &[u8], item: u16) -> Result<bool, Refusal>
    ensures { told result ≡ returned (answers.ask_summary s.now.summary.bytes.now q.now item) }
{
    match question::judge(q) {
        Ok(needs) => {
            if reach::beyond(&s.summary, needs) {
                return Err(Refusal::Beyond);
            }
            ask_reached(s, q, needs, item)
        }
        Err(refusal) => Err(refusal),
    }
}

// And the question is within what the summary can answer: 8, and then the answer.
fn ask_reached(s: &WellFormed, q: &[u8], needs: Needs, item: u16) -> Result<bool, Refusal>
    requires { Reached s.now.summary.bytes.now q.now needs }
    ensures { told result ≡ returned (answers.ask_summary s.now.summary.bytes.now q.now item) }
{
    if s.summary.items() <= item as usize {
        return Err(Refusal::Item);
    }
    consult::ask(q, needs.depth, s, s.summary.class_of(Item(item)))
}

// The items of the summary where the question holds, into the lent buffer: "list from a summary 6, 5, 7, 9".
pub fn list(s: &[u8], q: &[u8], out: &mut [u8]) -> Result<usize, Refusal>
    ensures { Gives result out.old out.new (answers.list s.now q.now (length out.old)) }
{
    let mut keys = [0u64; 4096];
    match wellformed::judge(s, &mut keys) {
        Ok(read) => list_read(&read, q, out),
        Err(refusal) => Err(refusal),
    }
}

// The summary is well formed: 5, and 7.
fn list_read(s: &WellFormed, q: &[u8], out: &mut [u8]) -> Result<usize, Refusal>
    ensures { Gives result out.old out.new (answers.list s.now.summary.bytes.now q.now (length out.old)) }
{
    match question::judge(q) {
        Ok(needs) => {
            if reach::beyond(&s.summary, needs) {
                Err(Refusal::Beyond)
            } else {
                list_reached(s, q, needs, out)
            }
        }
        Err(refusal) => Err(refusal),
    }
}

// And the question is within what the summary can answer: the items, a class asked once and not once an item, and 9.
fn list_reached(s: &WellFormed, q: &[u8], needs: Needs, out: &mut [u8]) -> Result<usize, Refusal>
    requires { Reached s.now.summary.bytes.now q.now needs }
    ensures { Gives result out.old out.new (answers.list s.now.summary.bytes.now q.now (length out.old)) }
{
    let c = s.summary.classes();
    let mut held = [false; 1024];
    list_answered(s, q, needs, &mut held[..c], out)
}

// The same, with room lent for the answer of each class.
fn list_answered(
    s: &WellFormed,
    q: &[u8],
    needs: Needs,
    held: &mut [bool],
    out: &mut [u8],
) -> Result<usize, Refusal>
    requires { Reached s.now.summary.bytes.now q.now needs × (length held.old ≡ length (summary_in s.now.summary.bytes.now).classes) }
    ensures { Gives result out.old out.new (answers.list s.now.summary.bytes.now q.now (length out.old)) }
{
    let Ok(()) = consult::put_answers(q, needs.depth, s, Class(0), held) else {
        return Err(Refusal::Question);
    };
    let mut named = [0u16; 1024];
    let r = listed::put_items(&s.summary, held, &mut named);
    listed::put_list(&named[..r], out)
}

pub fn hestovane_condense(i: u16, mu: u16, nu: u16, reg: &[u8], out: &mut [u8]) -> i32
    ensures value { result ≡ code (returned (answers.condense i mu nu reg.now (length out.old))) }
    ensures out_after { out.new ≡ left (answers.condense i mu nu reg.now (length out.old)) out.old }
{
    said::measured(condense(reg, i, mu, nu, out))
}

pub fn hestovane_check(reg: &[u8], s: &[u8]) -> i32
    ensures { result ≡ code (returned (answers.check reg.now s.now)) }
{
    said::coded(check(reg, s))
}

pub fn hestovane_ask_register(reg: &[u8], q: &[u8], item: u16) -> i32
    ensures { result ≡ code (returned (answers.ask_register reg.now q.now item)) }
{
    said::coded(ask_register(reg, q, item))
}

pub fn hestovane_ask_summary(s: &[u8], q: &[u8], item: u16) -> i32
    ensures { result ≡ code (returned (answers.ask_summary s.now q.now item)) }
{
    said::coded(ask_summary(s, q, item))
}

pub fn hestovane_list(s: &[u8], q: &[u8], out: &mut [u8]) -> i32
    ensures value { result ≡ code (returned (answers.list s.now q.now (length out.old))) }
    ensures out_after { out.new ≡ left (answers.list s.now q.now (length out.old)) out.old }
{
    said::measured(list(s, q, out))
}
