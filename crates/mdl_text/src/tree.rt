use fx_io::{Sequence, Text};

/// The sections and parameters of a text, in its order.
pub type Items = Sequence<Item>;

/// What an MDL text stands for. A section holds the items after it up to the next one that is not
/// deeper than itself.
#[derive(Drop)]
pub struct Tree {
    pub items: Items,
}

impl Tree {
    /// Frees the tree, so that crates above needn't prove how.
    pub fn discard(self) {
        drop(self);
    }
}

/// A section or a parameter.
#[derive(Drop)]
pub struct Item {
    /// How many sections hold it: 0 at the top.
    pub depth: u32,
    /// One or more letters, digits, `_`, `.` and `$`.
    pub name: Text,
    pub value: Value,
}

/// What an item has after its name, with its content.
#[derive(Drop)]
pub enum Value {
    /// It is a section, whose items follow.
    Section,
    /// The bytes to the end of the line, without the blanks around them.
    Bare(Text),
    /// The bytes from `[` to `]`, brackets and newlines among them.
    List(Text),
    /// All quoted strings joined, with their escapes read.
    Quoted(Text),
}
