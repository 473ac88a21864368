//! Expressions, items, ports and modules from their parts, each of which may have wanted memory.
ghost use Rattle.std.specs.Prelude.{◌≡◌, ◌∷◌, [], ℕ, List, Option, Some, IfOk};
ghost use Rattle.std.specs.Prelude.{codes, if◌then◌else◌};
ghost use Rattle.vl_ast.specs.declared.expressions.Expr.{Expr};
ghost use Rattle.vl_ast.specs.declared.expressions.Expr.TheVariants.{Name, Concat, Unary, Binary, Choose};
ghost use Rattle.vl_ast.specs.declared.expressions.Sized.{Sized};
ghost use Rattle.vl_ast.specs.declared.modules.Attr.{Attr};
ghost use Rattle.vl_ast.specs.declared.modules.ModItem.{ModItem};
ghost use Rattle.vl_ast.specs.declared.modules.ModItem.TheVariants.{Always, Assign, Reg, Wire};
ghost use Rattle.vl_ast.specs.declared.modules.Port.{Port};
ghost use Rattle.vl_ast.specs.Header.{DataPort, attribute_of, bit_port, input_port, module_with, output_port};
ghost use Rattle.vl_ast.specs.Listing.{Holds, Lists};

use crate::expressions::{BinOp, Expr, Sized, UnOp};
use crate::modules::{Attr, Attrs, ModItem, Module, Port};
use fx_io::{Boxed, OutOfMemory, Sequence, Text};
use std::alloc::Global;

/// What is made of parts, where no memory was wanting.
pub type Made<T> = Result<T, OutOfMemory>;

/// A list that grows at its end, and whether memory was wanting for some of it.
#[derive(Drop)]
pub struct Listing<T> {
    pub list: Sequence<T>,
    pub wanting: bool,
}

/// An empty list. It takes no memory.
pub fn begin<T>(alloc: Global) -> Listing<T>
    ensures { Holds result [] }
{
    Listing {
        list: Sequence::new(alloc),
        wanting: false,
    }
}

/// Puts an element behind the others.
pub fn put<T: Drop>(out: &mut Listing<T>, made: Made<T>)
    ensures { (element : T) → IfOk made (λ it. it ≡ element)
        → Lists out.old out.new (element ∷ []) }
{
    match made {
        Ok(element) => {
            if let Err(_wanting) = out.list.push(element) {
                out.wanting = true;
            }
        }
        Err(_wanting) => out.wanting = true,
    }
}

/// The list. The only error is want of memory.
pub fn finish<T: Drop>(out: Listing<T>) -> Made<Sequence<T>>
    ensures { (all : List T) → Holds out all → IfOk result (λ list. list ≡ all) }
{
    let Listing { list, wanting } = out;
    // allocation: an element's, or the list's where it first failed
    if wanting { Err(OutOfMemory) } else { Ok(list) }
}

/// Both of two parts, where no memory was wanting for either.
pub fn both<A: Drop, B: Drop>(one: Made<A>, other: Made<B>) -> Made<(A, B)>
    ensures { (first : A) (second : B) → IfOk one (λ made. made ≡ first)
        → IfOk other (λ made. made ≡ second) → IfOk result (λ pair. pair ≡ (first, second)) }
{
    Ok((one?, other?))
}

/// An expression in its box. The only error is want of memory.
pub fn in_box(alloc: Global, made: Made<Expr>) -> Made<Boxed<Expr>>
    ensures { (is : Expr) → IfOk made (λ e. e ≡ is) → IfOk result (λ e. e ≡ is) }
{
    Boxed::new(alloc, made?)
}

/// A name. The only error is want of memory.
pub fn named(name: Made<Text>) -> Made<Expr>
    ensures { (text : List ℕ) → IfOk name (λ made. made ≡ text)
        → IfOk result (λ e. e ≡ Name text) }
{
    Ok(Expr::Name(name?))
}

/// Puts an expression behind the others.
pub fn put_expression(out: &mut Listing<Expr>, made: Made<Expr>)
    ensures { (is : Expr) → IfOk made (λ e. e ≡ is) → Lists out.old out.new (is ∷ []) }
{
    put(out, made);
}

/// Expressions side by side. The only error is want of memory.
pub fn concat(parts: Listing<Expr>) -> Made<Expr>
    ensures { (all : List Expr) → Holds parts all → IfOk result (λ e. e ≡ Concat all) }
{
    Ok(Expr::Concat(finish(parts)?))
}

/// `op part`. The only error is want of memory.
pub fn unary(alloc: Global, op: UnOp, part: Made<Expr>) -> Made<Expr>
    ensures { (is : Expr) → IfOk part (λ e. e ≡ is) → IfOk result (λ e. e ≡ Unary op is) }
{
    Ok(Expr::Unary(op, in_box(alloc, part)?))
}

/// `left op right` of operands in boxes. The only error is want of memory.
pub fn binary_of(op: BinOp, left: Made<Boxed<Expr>>, right: Made<Boxed<Expr>>) -> Made<Expr>
    ensures { (one other : Expr) → IfOk left (λ e. e ≡ one) → IfOk right (λ e. e ≡ other)
        → IfOk result (λ e. e ≡ Binary op one other) }
{
    let (left, right) = both(left, right)?;
    Ok(Expr::Binary(op, left, right))
}

/// `left op right`. The only error is want of memory.
pub fn binary(alloc: Global, op: BinOp, left: Made<Expr>, right: Made<Expr>) -> Made<Expr>
    ensures { (one other : Expr) → IfOk left (λ e. e ≡ one) → IfOk right (λ e. e ≡ other)
        → IfOk result (λ e. e ≡ Binary op one other) }
{
    binary_of(op, in_box(alloc, left), in_box(alloc, right))
}

/// `test ? chosen : other` of operands in boxes. The only error is want of memory.
pub fn choose_of(
    test: Made<Boxed<Expr>>,
    chosen: Made<Boxed<Expr>>,
    other: Made<Boxed<Expr>>,
) -> Made<Expr>
    ensures { (first second third : Expr) → IfOk test (λ e. e ≡ first)
        → IfOk chosen (λ e. e ≡ second) → IfOk other (λ e. e ≡ third)
        → IfOk result (λ e. e ≡ Choose first second third) }
{
    let ((test, chosen), other) = both(both(test, chosen), other)?;
    Ok(Expr::Choose(test, chosen, other))
}

/// `test ? chosen : other`. The only error is want of memory.
pub fn choose(alloc: Global, test: Made<Expr>, chosen: Made<Expr>, other: Made<Expr>) -> Made<Expr>
    ensures { (first second third : Expr) → IfOk test (λ e. e ≡ first)
        → IfOk chosen (λ e. e ≡ second) → IfOk other (λ e. e ≡ third)
        → IfOk result (λ e. e ≡ Choose first second third) }
{
    choose_of(
        in_box(alloc, test),
        in_box(alloc, chosen),
        in_box(alloc, other),
    )
}

/// The declaration of a register, or else of a wire.
fn net(is_reg: bool, signed: bool, width: u32, name: Made<Text>) -> Made<ModItem>
    ensures { (text : List ℕ) → IfOk name (λ made. made ≡ text)
        → IfOk result (λ item. item
        ≡ (if is_reg then Reg signed width text else Wire signed width text)) }
{
    let name = name?;
    if is_reg {
        Ok(ModItem::Reg {
            signed,
            width,
            name,
        })
    } else {
        Ok(ModItem::Wire {
            signed,
            width,
            name,
        })
    }
}

/// Puts the declaration of a register, or else of a wire, behind the others.
pub fn put_declaration(
    out: &mut Listing<ModItem>,
    is_reg: bool,
    signed: bool,
    width: u32,
    name: Made<Text>,
)
    ensures { (text : List ℕ) → IfOk name (λ made. made ≡ text)
        → Lists out.old out.new
        ((if is_reg then Reg signed width text else Wire signed width text) ∷ []) }
{
    put(out, net(is_reg, signed, width, name));
}

fn assignment(name: Made<Text>, value: Made<Expr>) -> Made<ModItem>
    ensures { (text : List ℕ) (shown : Expr) → IfOk name (λ made. made ≡ text)
        → IfOk value (λ made. made ≡ shown) → IfOk result (λ item. item ≡ Assign text shown) }
{
    let (name, value) = both(name, value)?;
    Ok(ModItem::Assign { name, value })
}

/// Puts what assigns a value to a name behind the others.
pub fn put_assignment(out: &mut Listing<ModItem>, name: Made<Text>, value: Made<Expr>)
    ensures { (text : List ℕ) (shown : Expr) → IfOk name (λ made. made ≡ text)
        → IfOk value (λ made. made ≡ shown) → Lists out.old out.new (Assign text shown ∷ []) }
{
    put(out, assignment(name, value));
}

fn clocked_item(
    name: Made<Text>,
    first: Sized,
    condition: Made<Option<Expr>>,
    value: Made<Expr>,
) -> Made<ModItem>
    ensures { (text : List ℕ) (test : Option Expr) (taken : Expr)
        → IfOk name (λ made. made ≡ text) → IfOk condition (λ made. made ≡ test)
        → IfOk value (λ made. made ≡ taken)
        → IfOk result (λ item. item ≡ Always text first test taken) }
{
    let ((name, condition), value) = both(both(name, condition), value)?;
    Ok(ModItem::Always {
        name,
        first,
        condition,
        value,
    })
}

/// Puts what a register takes, and on which condition, if there is one, behind the others.
pub fn put_clocked(
    out: &mut Listing<ModItem>,
    name: Made<Text>,
    first: Sized,
    condition: Made<Option<Expr>>,
    value: Made<Expr>,
)
    ensures { (text : List ℕ) (number : Sized) (test : Option Expr) (taken : Expr)
        → first ≡ number → IfOk name (λ made. made ≡ text)
        → IfOk condition (λ made. made ≡ test) → IfOk value (λ made. made ≡ taken)
        → Lists out.old out.new (Always text number test taken ∷ []) }
{
    put(out, clocked_item(name, first, condition, value));
}

/// A condition that there is. The only error is want of memory.
pub fn some_condition(condition: Made<Expr>) -> Made<Option<Expr>>
    ensures { (test : Expr) → IfOk condition (λ made. made ≡ test)
        → IfOk result (λ made. made ≡ Some test) }
{
    Ok(Some(condition?))
}

/// Puts what a register takes on a condition behind the others.
pub fn put_register(
    out: &mut Listing<ModItem>,
    name: Made<Text>,
    first: Sized,
    condition: Made<Expr>,
    value: Made<Expr>,
)
    ensures { (text : List ℕ) (number : Sized) (test taken : Expr) → first ≡ number
        → IfOk name (λ made. made ≡ text) → IfOk condition (λ made. made ≡ test)
        → IfOk value (λ made. made ≡ taken)
        → Lists out.old out.new (Always text number (Some test) taken ∷ []) }
{
    put_clocked(out, name, first, some_condition(condition), value);
}

fn attribute(alloc: Global, name: &[u8], value: u64) -> Made<Attr>
    ensures { IfOk result (λ attr. attr ≡ attribute_of name.now value) }
{
    let name = Text::copy(alloc, name)?;
    Ok(Attr { name, value })
}

fn port(name: Made<Text>, attrs: Made<Attrs>, input: bool, word: (u32, bool)) -> Made<Port>
    ensures { (text : List ℕ) (all : List Attr) → IfOk name (λ made. made ≡ text)
        → IfOk attrs (λ made. made ≡ all)
        → IfOk result (λ port. port ≡ record {
          attrs = all;
          input = input;
          signed = word.1;
          width = word.0;
          name = text;
        }) }
{
    let (name, attrs) = both(name, attrs)?;
    Ok(Port {
        attrs,
        input,
        signed: word.1,
        width: word.0,
        name,
    })
}

/// Puts an unsigned port of one bit without attributes behind the others.
pub fn put_bit_port(alloc: Global, out: &mut Listing<Port>, name: &[u8], input: bool)
    ensures { Lists out.old out.new (bit_port input name.now ∷ []) }
{
    let own = Text::copy(alloc, name);
    put(out, port(own, Ok(Attrs::new(alloc)), input, (1, false)));
}

/// The period of a port, and of an output its latency.
fn timing(alloc: Global, input: bool, period: u64, latency: u64) -> Made<Attrs>
    ensures { IfOk result (λ attrs. attrs ≡ attribute_of (codes "fx_period") period
        ∷ (if input then [] else attribute_of (codes "fx_latency") latency ∷ [])) }
{
    let mut out = begin(alloc);
    put(&mut out, attribute(alloc, b"fx_period", period));
    if input {
        return finish(out);
    }
    put(&mut out, attribute(alloc, b"fx_latency", latency));
    finish(out)
}

/// Puts a port that carries numbers behind the others. Its word is its width and whether it has a
/// sign; its period is that of `fx_period`, and its latency that of `fx_latency`, which an input
/// lacks.
pub fn put_data_port(
    alloc: Global,
    out: &mut Listing<Port>,
    name: &[u8],
    input: bool,
    word: (u32, bool),
    period: u64,
    latency: u64,
)
    ensures { let port : DataPort = record {
      name = name.now;
      width = word.0;
      signed = word.1;
      period = period;
      latency = latency;
    } in Lists out.old out.new ((if input then input_port port else output_port port) ∷ []) }
{
    let own = Text::copy(alloc, name);
    let attrs = timing(alloc, input, period, latency);
    put(out, port(own, attrs, input, word));
}

/// A module of this name, a base sample of which has so many clocks. The only error is want of
/// memory.
pub fn whole_module(
    alloc: Global,
    name: &[u8],
    cycles: u64,
    ports: Listing<Port>,
    items: Listing<ModItem>,
) -> Made<Module>
    ensures { (all : List Port) (listed : List ModItem) → Holds ports all → Holds items listed
        → IfOk result (λ made. made ≡ module_with name.now cycles all listed) }
{
    let mut attrs = begin(alloc);
    put(&mut attrs, attribute(alloc, b"fx_cycles", cycles));
    let head = both(Text::copy(alloc, name), finish(attrs));
    let ((name, attrs), (ports, items)) = both(head, both(finish(ports), finish(items)))?;
    Ok(Module {
        name,
        attrs,
        ports,
        items,
    })
}
