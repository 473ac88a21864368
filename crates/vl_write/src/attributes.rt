ghost use Rattle.vl_ast.specs.Spelling.{attr_text, attrs_text};
ghost use Rattle.vl_write.specs.inner.Puts.{Puts};

use crate::lists::{Part, put_list};
use crate::parts::{Writer, put, put_number};
use vl_ast::Attr;

impl Part for Attr {
    ghost text_of = { attr_text };

    fn spell(&self, out: &mut Writer) {
        put(out, self.name.bytes());
        put(out, b" = ");
        put_number(out, u128::from(self.value));
    }
}

/// Puts a line of attributes, where there are some, after an indent.
pub fn put_attrs(out: &mut Writer, indent: &[u8], attrs: &[Attr])
    ensures { Puts out.old out.new (attrs_text indent.now attrs.now) }
{
    if attrs.is_empty() {
        return;
    }
    put(out, indent);
    put(out, b"(* ");
    put_list(out, attrs, b", ");
    put(out, b" *)\n");
}
