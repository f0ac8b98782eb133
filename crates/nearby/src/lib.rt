// The links of one item of an accepted register, one way, found one after another from the last to the first: by places kept in a list,
// or, where no list was made, by search. What is used depends on the list's length alone. Leans on register for the links.
#![tactic(auto)]

ghost use Rattle.std.specs.Prelude.{◌≡◌, ℕ, ◌-◌, ◌≤◌, ◌<◌, length, get_or};
ghost use Rattle.meaning.specs.Register.{link_of, near};
ghost use Rattle.meaning.specs.declared.Direction.TheVariants.{Outgoing, Incoming};
ghost use Rattle.meaning.specs.RegisterFile.{register_in};
ghost use Rattle.nearby.specs.Nearby.{Last, Outs, Ins, UpTo, Parts};

use meaning::Direction;
use names::Item;
use register::Register;

// A register, and the places where its items' links end, as far as they were made.
#[derive(Clone, Copy)]
pub struct Links<'a> {
    pub register: Register<'a>,
    pub outs: &'a [u16],
    pub ins: &'a [u16],
    pub ghost outs_are: { Outs (register_in register.bytes.now) outs.now },
    pub ghost ins_are: { Ins (register_in register.bytes.now) ins.now },
}

// For each item the place behind its last outgoing link, in one pass: a later link's entry stands in place of an earlier one's.
pub fn put_outs(reg: &Register, outs: &mut [u16])
    requires { (length outs.old ≡ 1024) × ((i : ℕ) → get_or outs.old i 0 ≡ 0) }
    ensures { (length outs.new ≡ 1024) × Outs (register_in reg.now.bytes.now) outs.new }
{
    for k in 0..reg.links {
        outs[reg.source(k).index()] = (k + 1) as u16;
    }
}

// For each item the place behind its last incoming link, and for each link that of the link before it with the same target.
pub fn put_ins(reg: &Register, ins: &mut [u16])
    requires { (length ins.old ≡ 3072) × ((i : ℕ) → get_or ins.old i 0 ≡ 0) }
    ensures { (length ins.new ≡ 3072) × Ins (register_in reg.now.bytes.now) ins.new }
{
    for k in 0..reg.links {
        let at = reg.target(k).index();
        ins[1024 + k] = ins[at];
        ins[at] = (k + 1) as u16;
    }
}

impl Links<'_> {
    // The place behind the last link of the item that way.
    pub fn last(&self, way: Direction, x: Item) -> usize
        requires { x.0 < self.now.register.items }
        ensures { Last (register_in self.now.register.bytes.now) way x.0 self.now.register.links result }
    {
        match way {
            Direction::Outgoing => self.last_out(x),
            Direction::Incoming => self.last_in(x),
        }
    }

    fn last_out(&self, x: Item) -> usize
        requires { x.0 < self.now.register.items }
        ensures { Last (register_in self.now.register.bytes.now) Outgoing x.0 self.now.register.links result }
    {
        if self.outs.len() == 1024 {
            return self.outs[x.index()] as usize;
        }
        ending(&self.register, past(&self.register, x), x)
    }

    fn last_in(&self, x: Item) -> usize
        requires { x.0 < self.now.register.items }
        ensures { Last (register_in self.now.register.bytes.now) Incoming x.0 self.now.register.links result }
    {
        if self.ins.len() == 3072 {
            return self.ins[x.index()] as usize;
        }
        down(&self.register, self.register.links, x)
    }

    // The same, of the links below the one that stands before place p, which is the item's.
    pub fn before(&self, way: Direction, x: Item, p: usize) -> usize
        requires { (x.0 < self.now.register.items) × (1 ≤ p) × (p ≤ self.now.register.links)
            × (near way (link_of (register_in self.now.register.bytes.now) (p - 1)) ≡ x.0) }
        ensures { Last (register_in self.now.register.bytes.now) way x.0 (p - 1) result }
    {
        match way {
            Direction::Outgoing => ending(&self.register, p - 1, x),
            Direction::Incoming => self.before_in(x, p),
        }
    }

    fn before_in(&self, x: Item, p: usize) -> usize
        requires { (1 ≤ p) × (p ≤ self.now.register.links)
            × ((link_of (register_in self.now.register.bytes.now) (p - 1)).target ≡ x.0) }
        ensures { Last (register_in self.now.register.bytes.now) Incoming x.0 (p - 1) result }
    {
        if self.ins.len() == 3072 {
            return self.ins[1024 + (p - 1)] as usize;
        }
        down(&self.register, p - 1, x)
    }
}

// "strictly ascending": links stand by source, so the first link of a later source is found by halves. The
// loop is `while`: its range is halved, and std's search by halves takes a slice, which a register's links are not.
fn past(reg: &Register, x: Item) -> usize
    ensures { Parts (register_in reg.now.bytes.now) x.0 result result × (result ≤ reg.now.links) }
{
    let mut low = 0;
    let mut high = reg.links;
    while low < high {
        let middle = low + (high - low) / 2;
        if reg.source(middle).0 <= x.0 {
            low = middle + 1;
        } else {
            high = middle;
        }
    }
    low
}

// Where no link below place j has a later source than x, x's own end at j, or there are none.
fn ending(reg: &Register, j: usize, x: Item) -> usize
    requires { (j ≤ reg.now.links) × UpTo (register_in reg.now.bytes.now) x.0 j }
    ensures { Last (register_in reg.now.bytes.now) Outgoing x.0 j result }
{
    if 0 < j && reg.source(j - 1).0 == x.0 {
        j
    } else {
        0
    }
}

// Links do not stand by target: one after another, from the last below place j.
fn down(reg: &Register, j: usize, x: Item) -> usize
    requires { j ≤ reg.now.links }
    ensures { Last (register_in reg.now.bytes.now) Incoming x.0 j result }
{
    for k in (0..j).rev() {
        if reg.target(k).0 == x.0 {
            return k + 1;
        }
    }
    0
}
