ghost use Rattle.std.specs.Prelude.{◌≡◌};
ghost use Rattle.mdl_text.specs.inner.Content.{value_of};

use crate::tree::Value;
use fx_io::Text;

/// What an item is.
#[derive(Clone, Copy)]
pub enum Kind {
    /// It has no content of its own.
    Section,
    Bare,
    List,
    Quoted,
}

impl Kind {
    /// The value of an item of this kind with this content.
    pub fn value_of(self, content: Text) -> Value
        ensures { result ≡ value_of self content }
    {
        match self {
            Kind::Section => Value::Section,
            Kind::Bare => Value::Bare(content),
            Kind::List => Value::List(content),
            Kind::Quoted => Value::Quoted(content),
        }
    }
}
