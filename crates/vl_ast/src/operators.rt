//! How operators are written, and which operator a text is.
ghost use Rattle.std.specs.Prelude.{◌≡◌};
ghost use Rattle.vl_ast.specs.Operators.{unary_text, binary_text, shift_text, unary_of, infix_of, shift_of};

use crate::expressions::{BinOp, ShiftOp, UnOp};

const UNARY: &[UnOp] = &[UnOp::Negate, UnOp::Invert, UnOp::IsZero];

const BINARY: &[BinOp] = &[
    BinOp::Add,
    BinOp::Subtract,
    BinOp::Multiply,
    BinOp::And,
    BinOp::Or,
    BinOp::Xor,
    BinOp::Equal,
    BinOp::NotEqual,
    BinOp::Less,
    BinOp::LessEqual,
    BinOp::Greater,
    BinOp::GreaterEqual,
    BinOp::Both,
    BinOp::Either,
];

const SHIFTS: &[ShiftOp] = &[ShiftOp::Left, ShiftOp::Right, ShiftOp::RightSigned];

impl UnOp {
    /// How the operator is written (IEEE 1364-2005, 5.1).
    pub fn text(self) -> &'static [u8]
        ensures { result.now ≡ unary_text self }
    {
        match self {
            UnOp::Negate => b"-",
            UnOp::Invert => b"~",
            UnOp::IsZero => b"!",
        }
    }

    /// The operator that is so written, if there is one.
    pub fn of_text(text: &[u8]) -> Option<UnOp>
        ensures { result ≡ unary_of text.now }
    {
        let ops = UNARY;
        for op in ops {
            if text == op.text() {
                return Some(*op);
            }
        }
        None
    }
}

impl BinOp {
    /// How the operator is written (IEEE 1364-2005, 5.1).
    pub fn text(self) -> &'static [u8]
        ensures { result.now ≡ binary_text self }
    {
        match self {
            BinOp::Add => b"+",
            BinOp::Subtract => b"-",
            BinOp::Multiply => b"*",
            BinOp::And => b"&",
            BinOp::Or => b"|",
            BinOp::Xor => b"^",
            BinOp::Equal => b"==",
            BinOp::NotEqual => b"!=",
            BinOp::Less => b"<",
            BinOp::LessEqual => b"<=",
            BinOp::Greater => b">",
            BinOp::GreaterEqual => b">=",
            BinOp::Both => b"&&",
            BinOp::Either => b"||",
        }
    }

    /// The operator that is so written, if there is one.
    #[tactic(auto, unfolding(crate::specs::Operators::infix_of))]
    pub fn of_text(text: &[u8]) -> Option<BinOp>
        ensures { result ≡ infix_of text.now }
    {
        let ops = BINARY;
        for op in ops {
            if text == op.text() {
                return Some(*op);
            }
        }
        None
    }
}

impl ShiftOp {
    /// How the shift is written (IEEE 1364-2005, 5.1.12).
    pub fn text(self) -> &'static [u8]
        ensures { result.now ≡ shift_text self }
    {
        match self {
            ShiftOp::Left => b"<<",
            ShiftOp::Right => b">>",
            ShiftOp::RightSigned => b">>>",
        }
    }

    /// The shift that is so written, if there is one.
    pub fn of_text(text: &[u8]) -> Option<ShiftOp>
        ensures { result ≡ shift_of text.now }
    {
        let ops = SHIFTS;
        for op in ops {
            if text == op.text() {
                return Some(*op);
            }
        }
        None
    }
}
