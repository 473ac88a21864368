ghost use Rattle.std.specs.Prelude.{◌≡◌, codes, if◌then◌else◌};
ghost use Rattle.vl_ast.specs.Spelling.{port_text};

use crate::attributes::put_attrs;
use crate::lists::Part;
use crate::parts::{Writer, put_net};
use vl_ast::Port;

fn direction_words(input: bool) -> &'static [u8]
    ensures { result.now ≡ (if input then codes "  input wire " else codes "  output wire ") }
{
    if input {
        b"  input wire "
    } else {
        b"  output wire "
    }
}

impl Part for Port {
    ghost text_of = { port_text };

    fn spell(&self, out: &mut Writer) {
        put_attrs(out, b"  ", self.attrs.as_slice());
        put_net(
            out,
            direction_words(self.input),
            self.signed,
            self.width,
            self.name.bytes(),
        );
    }
}
