use crate::words::Bits128;
use fx_io::{Boxed, Sequence, Text};

/// The operands of a concatenation, the most significant first.
pub type Exprs = Sequence<Expr>;

/// A based number, as `16'sd7` (IEEE 1364-2005, 3.5.1).
#[derive(Clone, Copy)]
pub struct Sized {
    /// How many bits the number has.
    pub width: u32,
    /// Whether the number is written with an `s`, and so is signed.
    pub signed: bool,
    /// The digits' number, read without sign.
    pub bits: Bits128,
}

/// An operator before its operand (IEEE 1364-2005, 5.1).
#[derive(Clone, Copy, Debug)]
pub enum UnOp {
    /// `-`, two's complement.
    Negate,
    /// `~`, each bit inverted.
    Invert,
    /// `!`, 1 where the operand is 0.
    IsZero,
}

/// An operator between its operands (IEEE 1364-2005, 5.1).
#[derive(Clone, Copy, Debug)]
pub enum BinOp {
    /// `+`
    Add,
    /// `-`
    Subtract,
    /// `*`
    Multiply,
    /// `&`, bit by bit.
    And,
    /// `|`, bit by bit.
    Or,
    /// `^`, bit by bit.
    Xor,
    /// `==`
    Equal,
    /// `!=`
    NotEqual,
    /// `<`
    Less,
    /// `<=`
    LessEqual,
    /// `>`
    Greater,
    /// `>=`
    GreaterEqual,
    /// `&&`, 1 where neither operand is 0.
    Both,
    /// `||`, 1 where an operand isn't 0.
    Either,
}

/// A shift by a number (IEEE 1364-2005, 5.1.12).
#[derive(Clone, Copy, Debug)]
pub enum ShiftOp {
    /// `<<`, zeros from the right.
    Left,
    /// `>>`, zeros from the left.
    Right,
    /// `>>>`, the sign bit from the left where the whole is signed, else zeros.
    RightSigned,
}

/// An expression (IEEE 1364-2005, clause 5), one variant for each form of the subset, with its parts
/// in the order of the text and an operator before its operands.
#[derive(Drop)]
pub enum Expr {
    /// `q`
    Name(Text),
    /// `q [3]`
    Bit(Text, u32),
    /// `q [7:4]`, the upper bound first.
    Part(Text, u32, u32),
    /// `8'd5`
    Literal(Sized),
    /// `{a, b}`
    Concat(Exprs),
    /// `{3 {a}}`
    Repeat(u32, Boxed<Expr>),
    /// `$signed (a)`
    AsSigned(Boxed<Expr>),
    /// `$unsigned (a)`
    AsUnsigned(Boxed<Expr>),
    /// `(- a)`
    Unary(UnOp, Boxed<Expr>),
    /// `(a + b)`
    Binary(BinOp, Boxed<Expr>, Boxed<Expr>),
    /// `(a >>> 4'd2)`
    Shift(ShiftOp, Boxed<Expr>, Sized),
    /// `(c ? a : b)`
    Choose(Boxed<Expr>, Boxed<Expr>, Boxed<Expr>),
}

// An expression in a box takes 48 bytes of the allocator, of which 8 are its own.
const _: () = prove!(size_of::<Expr>() == 40);
