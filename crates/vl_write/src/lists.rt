ghost use Rattle.std.specs.Prelude.{ℕ, List, map};
ghost use Rattle.vl_ast.specs.Spelling.{joined};
ghost use Rattle.vl_write.specs.inner.Puts.{Puts};

use crate::parts::{Writer, put};

/// A part of a list.
pub trait Part {
    /// How it is written.
    ghost text_of: { Self → List ℕ };

    /// Puts the part.
    fn spell(&self, out: &mut Writer)
        ensures { Puts out.old out.new (text_of self.now) };
}

/// Puts the parts of a list, with this between them.
pub fn put_list<P: Part>(out: &mut Writer, parts: &[P], between: &[u8])
    ensures { Puts out.old out.new (joined between.now (map P.text_of parts.now)) }
{
    let mut before: &[u8] = b"";
    for part in parts {
        put(out, before);
        part.spell(out);
        before = between;
    }
}
