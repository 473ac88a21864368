//! The wrapper's counters, and what it makes of them.
ghost use Rattle.std.specs.Prelude.{◌≡◌, ◌++◌, ◌∷◌, [], false, if◌then◌else◌, IfOk};
ghost use Rattle.vl_ast.specs.declared.expressions.Expr.TheVariants.{Name, Binary};
ghost use Rattle.vl_ast.specs.declared.modules.ModItem.TheVariants.{Wire, Reg};
ghost use Rattle.vl_ast.specs.Listing.{Lists};
ghost use Rattle.st_wrap.specs.inner.Control.{control_declared, control_driven, handshake_driven, signals_driven};
ghost use Rattle.st_wrap.specs.inner.Control.{number, unless};

use crate::expressions::{assign, binary_of_names, is_zero, moving, name_of, number, plain};
use crate::pace::{Counter, Counters};
use fx_io::Text;
use std::alloc::Global;
use vl_ast::{BinOp, Expr, Listing, Made, ModItem, binary, choose, put_declaration, put_register};

/// Declares an unsigned register, or else a wire.
fn declare_net(alloc: Global, out: &mut Listing<ModItem>, is_reg: bool, width: u32, name: &[u8])
    ensures { Lists out.old out.new
        ((if is_reg then Reg false width name.now else Wire false width name.now) ∷ []) }
{
    put_declaration(out, is_reg, false, width, Text::copy(alloc, name));
}

/// Declares the signals and the counters.
pub fn declare(alloc: Global, out: &mut Listing<ModItem>, counters: Counters)
    ensures { Lists out.old out.new (control_declared counters) }
{
    declare_net(alloc, out, false, 1, b"fx_begin");
    declare_net(alloc, out, false, 1, b"fx_end");
    declare_net(alloc, out, false, 1, b"fx_due");
    declare_net(alloc, out, false, 1, b"fx_fed");
    declare_net(alloc, out, false, 1, b"fx_open");
    declare_net(alloc, out, true, counters.phase.width, b"fx_phase");
    declare_net(alloc, out, true, counters.wait.width, b"fx_wait");
}

/// A name and a number, with an operator between them.
fn with_number(alloc: Global, op: BinOp, name: &[u8], width: u32, bits: u64) -> Made<Expr>
    ensures { IfOk result (λ e. e ≡ Binary op (Name name.now) (number width bits)) }
{
    binary(alloc, op, name_of(alloc, name), Ok(number(width, bits)))
}

fn unless(alloc: Global, name: &[u8], signal: &[u8]) -> Made<Expr>
    ensures { IfOk result (λ e. e ≡ unless name.now signal.now) }
{
    let other = is_zero(alloc, name);
    binary(alloc, BinOp::Either, other, name_of(alloc, signal))
}

/// Drives the signals of a row and the handshake.
fn put_signals(alloc: Global, out: &mut Listing<ModItem>, phase: Counter)
    ensures { Lists out.old out.new (signals_driven phase ++ handshake_driven) }
{
    assign(alloc, out, b"fx_begin", is_zero(alloc, b"fx_phase"));
    let last = with_number(alloc, BinOp::Equal, b"fx_phase", phase.width, phase.most);
    assign(alloc, out, b"fx_end", last);
    let waited = is_zero(alloc, b"fx_wait");
    let due = binary(alloc, BinOp::Both, name_of(alloc, b"fx_end"), waited);
    assign(alloc, out, b"fx_due", due);
    let fed = unless(alloc, b"fx_begin", b"in_valid");
    assign(alloc, out, b"fx_fed", fed);
    let open = unless(alloc, b"fx_due", b"out_ready");
    assign(alloc, out, b"fx_open", open);
    let moves = binary_of_names(alloc, BinOp::Both, b"fx_fed", b"fx_open");
    assign(alloc, out, b"fx_core_clk_enable", moves);
    let ready = binary_of_names(alloc, BinOp::Both, b"fx_begin", b"fx_open");
    assign(alloc, out, b"in_ready", ready);
    let valid = binary_of_names(alloc, BinOp::Both, b"fx_due", b"fx_fed");
    assign(alloc, out, b"out_valid", valid);
}

/// Drives the signals, the handshake and the counters.
pub fn drive(alloc: Global, out: &mut Listing<ModItem>, counters: Counters)
    ensures { Lists out.old out.new (control_driven counters) }
{
    let Counters { phase, wait } = counters;
    put_signals(alloc, out, phase);
    let end = name_of(alloc, b"fx_end");
    let more = with_number(alloc, BinOp::Add, b"fx_phase", phase.width, 1);
    put_register(
        out,
        Text::copy(alloc, b"fx_phase"),
        plain(phase.width, 0),
        name_of(alloc, b"fx_core_clk_enable"),
        choose(alloc, end, Ok(number(phase.width, 0)), more),
    );
    let left = name_of(alloc, b"fx_wait");
    let fewer = with_number(alloc, BinOp::Subtract, b"fx_wait", wait.width, 1);
    put_register(
        out,
        Text::copy(alloc, b"fx_wait"),
        plain(wait.width, wait.most),
        moving(alloc, b"fx_end"),
        choose(alloc, left, fewer, Ok(number(wait.width, 0))),
    );
}
