// The register file: judged, with document 01's numbers 1, 2 and 3 in their order, and read through accessors that speak of its
// picture and hand out an Item where the file has an item number. Leans on wire for the bytes and on links for their order.
#![tactic(auto)]

ghost use Rattle.std.specs.Prelude.{◌≡◌, ◌+◌, ◌*◌, ◌≤◌, ◌<◌, length};
ghost use Rattle.meaning.specs.Register.{marks_of, link_of, near as near_end, far as far_end};
ghost use Rattle.meaning.specs.Bytes.{num2};
ghost use Rattle.meaning.specs.RegisterFile.{links_offset, register_size, register_in};
ghost use Rattle.register.specs.Accepted.{OfRegister};

use meaning::Direction;
use names::Item;

mod verdict;

pub use verdict::judge;

// An accepted register: its bytes, and how many items and how many links they have.
#[derive(Clone, Copy)]
pub struct Register<'a> {
    pub bytes: &'a [u8],
    pub items: usize,
    pub links: usize,
    pub ghost accepted: { OfRegister bytes.now items links },
    pub ghost few_items: { items ≤ 1024 },
    pub ghost few_links: { links ≤ 2048 },
    pub ghost long: { length bytes.now ≡ register_size items links },
}

// Links by that label, seen that way.
#[derive(Clone, Copy)]
pub struct Along {
    pub way: Direction,
    pub label: u8,
}

impl Register<'_> {
    pub fn marks(&self, x: Item) -> u32
        requires { x.0 < self.now.items }
        ensures { result ≡ marks_of (register_in self.now.bytes.now) x.0 }
    {
        wire::four(self.bytes, 12 + 4 * x.index())
    }

    pub fn source(&self, k: usize) -> Item
        requires { k < self.now.links }
        ensures { (result.0 ≡ (link_of (register_in self.now.bytes.now) k).source) × (result.0 < self.now.items) }
    {
        Item(self.field(k, 0))
    }

    pub fn label(&self, k: usize) -> u8
        requires { k < self.now.links }
        ensures { (result ≡ (link_of (register_in self.now.bytes.now) k).label) × (result < 16) }
    {
        self.field(k, 1) as u8
    }

    pub fn target(&self, k: usize) -> Item
        requires { k < self.now.links }
        ensures { (result.0 ≡ (link_of (register_in self.now.bytes.now) k).target) × (result.0 < self.now.items) }
    {
        Item(self.field(k, 2))
    }

    // The item at which link k is seen that way, and the neighbour to which it leads.
    pub fn near(&self, k: usize, way: Direction) -> Item
        requires { k < self.now.links }
        ensures { (result.0 ≡ near_end way (link_of (register_in self.now.bytes.now) k)) × (result.0 < self.now.items) }
    {
        match way {
            Direction::Outgoing => self.source(k),
            Direction::Incoming => self.target(k),
        }
    }

    pub fn far(&self, k: usize, way: Direction) -> Item
        requires { k < self.now.links }
        ensures { (result.0 ≡ far_end way (link_of (register_in self.now.bytes.now) k)) × (result.0 < self.now.items) }
    {
        match way {
            Direction::Outgoing => self.target(k),
            Direction::Incoming => self.source(k),
        }
    }

    // Field f of link k: 0 its source, 1 its label, 2 its target.
    fn field(&self, k: usize, f: usize) -> u16
        requires { (k < self.now.links) × (f < 3) }
        ensures { result ≡ num2 self.now.bytes.now (links_offset self.now.items + 6 * k + 2 * f) }
    {
        wire::two(self.bytes, 12 + 4 * self.items + 6 * k + 2 * f)
    }
}
