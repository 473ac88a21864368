//! The ports of the wrapper.
ghost use Rattle.std.specs.Prelude.{map};
ghost use Rattle.vl_ast.specs.Listing.{Holds, Lists};
ghost use Rattle.st_wrap.specs.inner.Columns.{port_of};
ghost use Rattle.st_wrap.specs.inner.Wrapper.{ports_of};

use crate::columns::Column;
use std::alloc::Global;
use vl_ast::{Listing, Port, begin, put_bit_port, put_data_port};

/// Puts the port of each column.
fn put_columns(alloc: Global, out: &mut Listing<Port>, columns: &[Column], input: bool)
    ensures { Lists out.old out.new (map (port_of input) columns.now) }
{
    for column in columns {
        let word = (column.width, column.signed);
        put_data_port(alloc, out, column.name.bytes(), input, word, 1, 0);
    }
}

/// The ports of the wrapper.
pub fn ports_of(alloc: Global, inputs: &[Column], outputs: &[Column]) -> Listing<Port>
    ensures { Holds result (ports_of inputs.now outputs.now) }
{
    let mut out = begin(alloc);
    put_bit_port(alloc, &mut out, b"clk", true);
    put_bit_port(alloc, &mut out, b"reset", true);
    put_data_port(alloc, &mut out, b"in_valid", true, (1, false), 1, 0);
    put_columns(alloc, &mut out, inputs, true);
    put_data_port(alloc, &mut out, b"out_ready", true, (1, false), 1, 0);
    put_data_port(alloc, &mut out, b"in_ready", false, (1, false), 1, 0);
    put_data_port(alloc, &mut out, b"out_valid", false, (1, false), 1, 0);
    put_columns(alloc, &mut out, outputs, false);
    out
}
