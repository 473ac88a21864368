ghost use Rattle.std.specs.Prelude.{◌≡◌, ◌∷◌, [], false, map, if◌then◌else◌, IfOk};
ghost use Rattle.vl_ast.specs.Nets.{condition_names, item_mentions, mentions, names_read, Declares, Drives, InputPort, OutputPort, Reads};
ghost use Rattle.vl_check.specs.inner.Mentions.{Puts, kind_of, mention_of, net_declared, shown};

use crate::names::put;
use fx_io::OutOfMemory;
use std::alloc::Global;
use vl_ast::{Expr, ModItem, Module, Port};

/// What a name is declared as.
#[derive(Clone, Copy)]
pub enum Kind {
    InputPort,
    OutputPort,
    PlainWire,
    Register,
}

/// The declaration of a name.
#[derive(Clone, Copy)]
pub struct Declared<'a> {
    pub name: &'a [u8],
    pub kind: Kind,
    /// How many bits the net has.
    pub width: u32,
    pub signed: bool,
}

/// One place of a net's name in the text of a module.
#[derive(Clone, Copy)]
pub enum Mention<'a> {
    Declares(Declared<'a>),
    /// The left side of a clocked item, or else of an assignment.
    Drives { clocked: bool, name: &'a [u8] },
    Reads(&'a [u8]),
    /// The `clk` and the `reset` of a clocked item.
    Clocks,
}

/// The places of names that were put, and whether memory was wanting for some of them.
#[derive(Drop)]
pub struct Mentions<'a> {
    pub all: Vec<Mention<'a>>,
    pub wanting: bool,
}

fn push<'a>(mentions: &mut Mentions<'a>, mention: Mention<'a>)
    ensures { Puts mentions.old mentions.new (mention_of mention.entry ∷ []) }
{
    if let Err(_refused) = put(&mut mentions.all, mention) {
        mentions.wanting = true;
    }
}

/// Puts the places of the names that an expression reads, from the left. The recursion is as deep as
/// the expression nests.
pub fn push_names<'a>(mentions: &mut Mentions<'a>, e: &'a Expr)
    ensures { Puts mentions.old mentions.new (map Reads (names_read e.now)) }
{
    match e {
        Expr::Name(name) | Expr::Bit(name, _) => push(mentions, Mention::Reads(name.bytes())),
        Expr::Part(name, _high, _low) => push(mentions, Mention::Reads(name.bytes())),
        Expr::Literal(_number) => {}
        Expr::Concat(parts) => {
            for part in parts.as_slice() {
                push_names(mentions, part);
            }
        }
        Expr::Repeat(_, part)
        | Expr::AsSigned(part)
        | Expr::AsUnsigned(part)
        | Expr::Unary(_, part)
        | Expr::Shift(_, part, _) => push_names(mentions, part.get()),
        Expr::Binary(_op, left, right) => {
            push_names(mentions, left.get());
            push_names(mentions, right.get());
        }
        Expr::Choose(test, chosen, other) => {
            push_names(mentions, test.get());
            push_names(mentions, chosen.get());
            push_names(mentions, other.get());
        }
    }
}

fn push_condition<'a>(mentions: &mut Mentions<'a>, condition: &'a Option<Expr>)
    ensures { Puts mentions.old mentions.new (map Reads (condition_names condition.now)) }
{
    match condition {
        None => {}
        Some(condition) => push_names(mentions, condition),
    }
}

fn port_kind(port: &Port) -> Kind
    ensures { kind_of result ≡ (if port.now.input then InputPort else OutputPort) }
{
    if port.input {
        Kind::InputPort
    } else {
        Kind::OutputPort
    }
}

/// Puts the declaration of a net.
fn push_net<'a>(mentions: &mut Mentions<'a>, kind: Kind, name: &'a [u8], width: u32, signed: bool)
    ensures { Puts mentions.old mentions.new
        (Declares (net_declared (kind_of kind) name.now width signed) ∷ []) }
{
    let declared = Declared {
        name,
        kind,
        width,
        signed,
    };
    push(mentions, Mention::Declares(declared));
}

/// Puts the name that an item drives.
fn push_driven<'a>(mentions: &mut Mentions<'a>, clocked: bool, name: &'a [u8])
    ensures { Puts mentions.old mentions.new (Drives clocked name.now ∷ []) }
{
    push(mentions, Mention::Drives { clocked, name });
}

fn push_item<'a>(mentions: &mut Mentions<'a>, item: &'a ModItem)
    ensures { Puts mentions.old mentions.new (item_mentions item.now) }
{
    match item {
        ModItem::Wire {
            signed,
            width,
            name,
        } => push_net(mentions, Kind::PlainWire, name.bytes(), *width, *signed),
        ModItem::Reg {
            signed,
            width,
            name,
        } => push_net(mentions, Kind::Register, name.bytes(), *width, *signed),
        ModItem::Assign { name, value } => {
            push_driven(mentions, false, name.bytes());
            push_names(mentions, value);
        }
        ModItem::Always {
            name,
            first: _,
            condition,
            value,
        } => {
            push(mentions, Mention::Clocks);
            push_driven(mentions, true, name.bytes());
            push_condition(mentions, condition);
            push_names(mentions, value);
        }
    }
}

/// The places that were put, if memory was there for all of them.
pub fn all_of<'a>(mentions: Mentions<'a>) -> Result<Vec<Mention<'a>>, OutOfMemory>
    ensures { IfOk result (λ all. (mentions.entry.wanting ≡ false)
        × (all.items ≡ mentions.entry.all.items)) }
{
    let Mentions { all, wanting } = mentions;
    // allocation: the list's, at the place where it first failed
    if wanting { Err(OutOfMemory) } else { Ok(all) }
}

/// The places of names in a module's text, in its order.
pub fn mentions_of(alloc: Global, source: &Module) -> Result<Vec<Mention<'_>>, OutOfMemory>
    ensures { IfOk result (λ all. shown all.items ≡ mentions source.now) }
{
    let mut mentions = Mentions {
        all: Vec::new(alloc),
        wanting: false,
    };
    for port in source.ports.as_slice() {
        push_net(
            &mut mentions,
            port_kind(port),
            port.name.bytes(),
            port.width,
            port.signed,
        );
    }
    for item in source.items.as_slice() {
        push_item(&mut mentions, item);
    }
    all_of(mentions)
}
