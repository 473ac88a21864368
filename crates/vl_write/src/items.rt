ghost use Rattle.std.specs.Prelude.{◌≡◌, ◌<◌, ◌+◌, ◌^◌, ◌++◌, IfOk, length, flat_map};
ghost use Rattle.vl_ast.specs.Spelling.{item_text, condition_text, expr_text};
ghost use Rattle.vl_write.specs.inner.Puts.{Puts};

use crate::expressions::put_within;
use crate::parts::{Writer, finish, put, put_net, put_sized};
use fx_io::{Gate, OutOfMemory};
use vl_ast::{Expr, ModItem};

fn put_condition(out: &mut Writer, condition: &Option<Expr>)
    ensures { Puts out.old out.new (condition_text condition.now) }
{
    match condition {
        None => {}
        Some(condition) => put_within(out, b"if (", condition, b") "),
    }
}

/// Puts what a name takes, with what stands between them and behind.
fn put_value(out: &mut Writer, name: &[u8], sign: &[u8], value: &Expr, end: &[u8])
    ensures { Puts out.old out.new
        (name.now ++ (sign.now ++ (expr_text value.now ++ end.now))) }
{
    put(out, name);
    put_within(out, sign, value, end);
}

fn put_item(out: &mut Writer, item: &ModItem)
    ensures { Puts out.old out.new (item_text item.now) }
{
    let name = item.name();
    match item {
        ModItem::Wire { signed, width, .. } => {
            put_net(out, b"wire ", *signed, *width, name);
            put(out, b";\n");
        }
        ModItem::Reg { signed, width, .. } => {
            put_net(out, b"reg ", *signed, *width, name);
            put(out, b";\n");
        }
        ModItem::Assign { value, .. } => {
            put(out, b"assign ");
            put_value(out, name, b" = ", value, b";\n");
        }
        ModItem::Always {
            first,
            condition,
            value,
            ..
        } => {
            put(out, b"always @ (posedge clk) begin if (reset) ");
            put(out, name);
            put(out, b" <= ");
            put_sized(out, first);
            put(out, b"; else ");
            put_condition(out, condition);
            put_value(out, name, b" <= ", value, b"; end\n");
        }
    }
}

/// A text with items at its end, each on a line of its own. It passes the gate before each; the first
/// has this place.
pub fn with_lines<G: Gate>(
    text: Vec<u8>,
    items: &[ModItem],
    first: u64,
    gate: &G,
) -> Result<Vec<u8>, OutOfMemory>
    requires { first + length items.now < 2 ^ 64 }
    ensures { IfOk result (λ lines.
        lines.items ≡ text.items ++ flat_map item_text items.now) }
{
    let mut out = Writer {
        text,
        wanting: false,
    };
    let mut place = first;
    for item in items {
        gate.pass(place);
        put_item(&mut out, item);
        place += 1;
    }
    finish(out)
}
