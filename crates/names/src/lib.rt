// "Item, class and group numbers are three separate counts, as in source document 000, where nodes, shape nodes and groups differ;
// none is ever compared with or stored as another." A number is wrapped where it is read and unwrapped where it is an index or
// is written; the one way from one kind to another is `Class::as_group`.
#![tactic(auto)]

ghost use Rattle.std.specs.Prelude.{◌≡◌};

// An item of a register: a node of the source.
#[derive(Clone, Copy)]
pub struct Item(pub u16);

// A class of a summary: a shape node.
#[derive(Clone, Copy)]
pub struct Class(pub u16);

// A group of a summary: a set of shape nodes.
#[derive(Clone, Copy)]
pub struct Group(pub u16);

impl Item {
    pub fn index(self) -> usize
        ensures { result ≡ self.0 }
    {
        self.0 as usize
    }
}

impl Class {
    pub fn index(self) -> usize
        ensures { result ≡ self.0 }
    {
        self.0 as usize
    }

    // "The classes of a summary are those of level i; its groups are those of level i − 1": a class of level j is a group of the summary
    // of level j + 1.
    pub fn as_group(self) -> Group
        ensures { result.0 ≡ self.0 }
    {
        Group(self.0)
    }
}

impl Group {
    pub fn index(self) -> usize
        ensures { result ≡ self.0 }
    {
        self.0 as usize
    }
}
