// Which entry of a question holds at which item: a table of truth values, a row of 1,024 for each of 64 entries, filled from the last
// entry to the first. A writer of row j reads the rows behind it and leaves them as they are. Leans on register for marks and links.
#![tactic(auto)]

ghost use Rattle.std.specs.Prelude.{◌≡◌, true, not, ◌+◌, ◌≤◌, ◌<◌, leb, get_or};
ghost use Rattle.meaning.specs.Register.{leads, link_of};
ghost use Rattle.meaning.specs.RegisterFile.{register_in};
ghost use Rattle.table.specs.Row.{Room, row, Writes, paired, Counts, Below, Adds};

use register::{Along, Register};

// True at every item.
pub fn put_true(table: &mut [bool], n: usize, j: usize)
    requires { Room table.old n j }
    ensures { Writes table.old table.new n j (λ x. true) }
{
    for x in 0..n {
        table[1024 * j + x] = true;
    }
}

// "not, one operand": row j + 1, negated.
pub fn put_not(table: &mut [bool], n: usize, j: usize)
    requires { Room table.old n (j + 1) }
    ensures { Writes table.old table.new n j (λ x. not (row table.old (j + 1) x)) }
{
    for x in 0..n {
        table[1024 * j + x] = !table[1024 * (j + 1) + x];
    }
}

// "and, or, two operands": rows j + 1 and k, both or, where `any` says so, either.
pub fn put_pair(table: &mut [bool], n: usize, j: usize, k: usize, any: bool)
    requires { Room table.old n k × (j + 1 ≤ k) }
    ensures { Writes table.old table.new n j
        (λ x. paired any (row table.old (j + 1) x) (row table.old k x)) }
{
    for x in 0..n {
        let first = table[1024 * (j + 1) + x];
        let second = table[1024 * k + x];
        table[1024 * j + x] = joined(any, first, second);
    }
}

fn joined(any: bool, first: bool, second: bool) -> bool
    ensures { result ≡ paired any first second }
{
    if any {
        first || second
    } else {
        first && second
    }
}

// "at least t .. neighbours .. satisfy the operand": where the counts reach t.
pub fn put_reached(table: &mut [bool], n: usize, j: usize, counts: &[u16; 1024], t: u16)
    requires { Room table.old n j }
    ensures { Writes table.old table.new n j (λ x. leb t (get_or counts.now x 0)) }
{
    for x in 0..n {
        table[1024 * j + x] = t <= counts[x];
    }
}

// How many neighbours each item has, along such links, at which row j holds.
pub fn count(table: &[bool], j: usize, reg: &Register, along: Along) -> [u16; 1024]
    requires { Room table.now reg.now.items j }
    ensures { Counts result reg.now.bytes.now reg.now.items along.way along.label (row table.now j) }
{
    let mut counts = [0u16; 1024];
    for k in 0..reg.links {
        count_link(table, j, reg, k, along, &mut counts);
    }
    counts
}

// Link k counts one at the item from which it leads that way, by that label, to a neighbour at which row j holds.
fn count_link(
    table: &[bool],
    j: usize,
    reg: &Register,
    k: usize,
    along: Along,
    counts: &mut [u16; 1024],
)
    requires { Room table.now reg.now.items j × (k < reg.now.links) × Below counts.old 2048 }
    ensures { Adds counts.old counts.new
        (λ x. leads along.way along.label (row table.now j) x (link_of (register_in reg.now.bytes.now) k)) }
{
    if reg.label(k) == along.label && table[1024 * j + reg.far(k, along.way).index()] {
        counts[reg.near(k, along.way).index()] += 1;
    }
}
