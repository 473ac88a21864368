use crate::expressions::{Expr, Sized};
use fx_io::{Sequence, Text};

/// Attributes in the order of the text.
pub type Attrs = Sequence<Attr>;
/// Ports in the order of the text.
pub type Ports = Sequence<Port>;
/// Items in the order of the text.
pub type ModItems = Sequence<ModItem>;

/// A module of the subset (IEEE 1364-2005, 12.1 and 12.3): one clock, one synchronous reset, nets and
/// registers of one dimension. Equality is that of the forms, names, numbers and lists in order.
#[derive(Drop)]
pub struct Module {
    pub name: Text,
    pub attrs: Attrs,
    pub ports: Ports,
    pub items: ModItems,
}

impl Module {
    /// Frees the module, so that crates above needn't prove how.
    pub fn discard(self) {
        drop(self);
    }
}

/// An attribute with its number, as `fx_period = 4` (IEEE 1364-2005, 3.8).
#[derive(Drop)]
pub struct Attr {
    pub name: Text,
    pub value: u64,
}

/// A port, which is a wire (IEEE 1364-2005, 12.3.3).
#[derive(Drop)]
pub struct Port {
    pub attrs: Attrs,
    /// Whether the port is an input; else it is an output.
    pub input: bool,
    pub signed: bool,
    /// How many bits the port has.
    pub width: u32,
    pub name: Text,
}

/// An item of a module's body.
#[derive(Drop)]
pub enum ModItem {
    /// The declaration of a wire of `width` bits (IEEE 1364-2005, 4.2.1).
    Wire {
        signed: bool,
        width: u32,
        name: Text,
    },
    /// The declaration of a register of `width` bits (IEEE 1364-2005, 4.2.2).
    Reg {
        signed: bool,
        width: u32,
        name: Text,
    },
    /// A continuous assignment (IEEE 1364-2005, 6.1).
    Assign {
        name: Text,
        value: Expr,
    },
    /// What a register takes at a rising edge of `clk` (IEEE 1364-2005, 9.9.2 and 9.2.2): `first` where
    /// `reset` is 1, else `value` where the condition isn't 0 or there is none, else what it has.
    Always {
        name: Text,
        first: Sized,
        condition: Option<Expr>,
        value: Expr,
    },
}

impl ModItem {
    ghost use Rattle.std.specs.Prelude.{◌≡◌};
    ghost use Rattle.vl_ast.specs.Conditions.{item_name};

    /// The name that the item declares or drives.
    pub fn name(&self) -> &[u8]
        ensures { result.now ≡ item_name self.now }
    {
        match self {
            ModItem::Wire { name, .. }
            | ModItem::Reg { name, .. }
            | ModItem::Assign { name, .. }
            | ModItem::Always { name, .. } => name.bytes(),
        }
    }
}
