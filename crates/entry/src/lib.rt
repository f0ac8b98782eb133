// An entry of a question: four bytes read as one of six kinds, or malformed; and the literal, asked of an item's marks. Leans on
// meaning for the kinds and the table of entries.
#![tactic(auto)]

ghost use Rattle.std.specs.Prelude.{IfSome, length, ◌/◌, ◌<◌, ◌≡◌, ◌≤◌, ◌-◌, nat_abs, eqb};
ghost use Rattle.meaning.specs.WellFormed.{within};
ghost use Rattle.meaning.specs.Question.{bit};
ghost use Rattle.meaning.specs.Question as trees;
ghost use Rattle.meaning.specs.declared.Kind.TheVariants as kinds;
ghost use Rattle.meaning.specs.QuestionFile.{when, kind};
ghost use Rattle.meaning.specs.QuestionFile as file;
ghost use Rattle.entry.specs.Entries.{kind_of, entry_at};

use meaning::{Direction, Kind};

// "signed": the byte as a number from −128 to 127.
#[tactic(auto, unfolding(meaning::specs::QuestionFile::signed))]
fn signed(b: u8) -> i8
    ensures { result ≡ file.signed b }
{
    if b < 128 {
        b as i8
    } else {
        -1 - ((255 - b) as i8)
    }
}

// "k is 1 to 32", or −k: 0 and −128 are refused first, and −128 has no k.
#[tactic(auto, unfolding(meaning::specs::QuestionFile::when, meaning::specs::WellFormed::within))]
fn literal(k: i8) -> Option<Kind>
    ensures { kind_of result ≡ when (within 1 (nat_abs k) 32) (kinds.Literal k) }
{
    if k == 0 {
        return None;
    }
    if k == -128 {
        return None;
    }
    if k < -32 {
        return None;
    }
    if k <= 32 {
        Some(Kind::Literal(k))
    } else {
        None
    }
}

// True, not, and, or: the second byte is 0.
#[tactic(auto, unfolding(meaning::specs::QuestionFile::when))]
fn plain(kind: Kind, second: u8) -> Option<Kind>
    ensures { kind_of result ≡ when (eqb second 0) kind }
{
    if second == 0 { Some(kind) } else { None }
}

// "t, 1 to 8".
#[tactic(auto, unfolding(meaning::specs::QuestionFile::when, meaning::specs::WellFormed::within))]
fn at_least(direction: Direction, label: u8, threshold: u8) -> Option<Kind>
    ensures { kind_of result ≡ when (within 1 threshold 8) (kinds.AtLeast direction label threshold) }
{
    if threshold < 1 {
        return None;
    }
    if threshold <= 8 {
        Some(Kind::AtLeast {
            direction,
            label,
            threshold,
        })
    } else {
        None
    }
}

// "at least t outgoing neighbours by label (byte − 16) satisfy the operand": by the first byte, and "All else is malformed."
#[tactic(auto, unfolding(meaning::specs::QuestionFile::kind, meaning::specs::WellFormed::within))]
fn by_code(code: u8, second: u8) -> Option<Kind>
    ensures { kind_of result ≡ kind code second }
{
    match code {
        0 => plain(Kind::True, second),
        1 => literal(signed(second)),
        2 => plain(Kind::Not, second),
        3 => plain(Kind::And, second),
        4 => plain(Kind::Or, second),
        16..=31 => at_least(Direction::Outgoing, code - 16, second),
        32..=47 => at_least(Direction::Incoming, code - 32, second),
        _ => None,
    }
}

// Entry number `at`, "read as one of six kinds with its parameters", or none where it is malformed: "Bytes three and four are 0."
#[tactic(auto, unfolding(crate::specs::Entries::entry_at))]
pub fn read(q: &[u8], at: usize) -> Option<Kind>
    ensures entry { kind_of result ≡ entry_at q.now at }
    ensures within { IfSome result (λ k. at < length q.now / 4) }
{
    if q.len() / 4 <= at {
        return None;
    }
    let i = 4 * at;
    if q[i + 2] != 0 {
        return None;
    }
    if q[i + 3] != 0 {
        return None;
    }
    by_code(q[i], q[i + 1])
}

// "mark k, 1 to 32, is the bit worth 2^(k−1)".
#[tactic(auto, unfolding(meaning::specs::Question::bit))]
fn mark(marks: u32, k: u32) -> bool
    requires { (1 ≤ k) × (k ≤ 32) }
    ensures { result ≡ bit marks (k - 1) }
{
    (marks >> (k - 1)) % 2 == 1
}

// "k means mark k is on the item, −k that it is absent". Only −32 to −1 is negated.
#[tactic(auto, unfolding(meaning::specs::Question::shows))]
pub fn shows(marks: u32, literal: i8) -> bool
    requires { (1 ≤ nat_abs literal) × (nat_abs literal ≤ 32) }
    ensures { result ≡ trees.shows marks literal }
{
    if literal < 0 {
        !mark(marks, (-literal) as u32)
    } else {
        mark(marks, literal as u32)
    }
}
