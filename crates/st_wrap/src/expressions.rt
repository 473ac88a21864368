//! Expressions from their parts, and items from names as bytes.
ghost use Rattle.std.specs.Prelude.{◌≡◌, ◌∷◌, [], IfOk};
ghost use Rattle.vl_ast.specs.declared.expressions.Expr.{Expr};
ghost use Rattle.vl_ast.specs.declared.expressions.Expr.TheVariants.{Name, Binary};
ghost use Rattle.vl_ast.specs.declared.modules.ModItem.TheVariants.{Assign};
ghost use Rattle.vl_ast.specs.Listing.{Lists};
ghost use Rattle.st_wrap.specs.inner.Columns.{moving, plain};
ghost use Rattle.st_wrap.specs.inner.Control.{is_zero, number};

use fx_io::Text;
use std::alloc::Global;
use vl_ast::{
    BinOp, Bits128, Expr, Listing, Made, ModItem, Sized, UnOp, binary, named, put_assignment, unary,
};

/// A name.
pub fn name_of(alloc: Global, name: &[u8]) -> Made<Expr>
    ensures { IfOk result (λ e. e ≡ Name name.now) }
{
    named(Text::copy(alloc, name))
}

/// So many bits without sign.
pub fn plain(width: u32, bits: u64) -> Sized
    ensures { result ≡ plain width bits }
{
    Sized {
        width,
        signed: false,
        bits: Bits128::new(u128::from(bits)),
    }
}

/// So many bits without sign, as an expression.
pub fn number(width: u32, bits: u64) -> Expr
    ensures { result ≡ number width bits }
{
    Expr::Literal(plain(width, bits))
}

/// 1 where the name is 0.
pub fn is_zero(alloc: Global, name: &[u8]) -> Made<Expr>
    ensures { IfOk result (λ e. e ≡ is_zero name.now) }
{
    unary(alloc, UnOp::IsZero, name_of(alloc, name))
}

/// An operator between two names.
pub fn binary_of_names(alloc: Global, op: BinOp, left: &[u8], right: &[u8]) -> Made<Expr>
    ensures { IfOk result (λ e. e ≡ Binary op (Name left.now) (Name right.now)) }
{
    binary(alloc, op, name_of(alloc, left), name_of(alloc, right))
}

/// The row moves, and the name is 1.
pub fn moving(alloc: Global, name: &[u8]) -> Made<Expr>
    ensures { IfOk result (λ e. e ≡ moving name.now) }
{
    binary_of_names(alloc, BinOp::Both, b"fx_core_clk_enable", name)
}

/// Puts the assignment of a value behind the other items.
pub fn assign(alloc: Global, out: &mut Listing<ModItem>, name: &[u8], value: Made<Expr>)
    ensures { (taken : Expr) → IfOk value (λ made. made ≡ taken)
        → Lists out.old out.new (Assign name.now taken ∷ []) }
{
    put_assignment(out, Text::copy(alloc, name), value);
}
