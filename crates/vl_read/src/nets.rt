ghost use Rattle.std.specs.Prelude.{◌≡◌, true, false, bytes_eq, codes, IfOk, None};
ghost use Rattle.vl_read.specs.declared.scan.Kind.TheVariants.{Fixed};
ghost use Rattle.vl_read.specs.declared.places.NetSpot.TheVariants.{Signed, Ranged, Bound};
ghost use Rattle.vl_read.specs.inner.Lexemes.{kind_of};
ghost use Rattle.vl_read.specs.inner.Places.{More};
ghost use Rattle.vl_read.specs.inner.Plain.{attr_step, has_none, declared, net_step};
ghost use Rattle.vl_read.specs.inner.LexemeSteps.{is_name, goes, on_name};
ghost use Rattle.vl_read.specs.inner.ReaderPlaces.{attr_spot_seen, net_seen, next_of, place_seen};

use crate::numbers::{count_of, is_name};
use crate::places::{AttrSpot, NetKind, NetSpot, Place, Reader, Stepped};
use crate::reader::expected;
use crate::scan::is;
use fx_io::Text;
use std::mem;
use vl_ast::{Attr, Attrs, Port};

/// Whether there are no attributes.
pub fn has_none(attrs: &Attrs) -> bool
    ensures { result ≡ has_none attrs.now }
{
    attrs.as_slice().is_empty()
}

/// Whether a lexeme is the word `signed`, which is no name.
#[tactic(auto, using(crate::proofs::OneKind::signed_is))]
fn is_signed(lexeme: &[u8]) -> bool
    ensures value { result ≡ bytes_eq lexeme.now (codes "signed") }
    ensures reserved { result ≡ true → is_name (kind_of lexeme.now) ≡ false }
{
    is(lexeme, "signed")
}

impl Reader {
    /// A name, which is held.
    pub fn name_step(&mut self, lexeme: &[u8], place: Place) -> Stepped
        ensures { IfOk result (λ next. next_of self.new next
            ≡ on_name (kind_of lexeme.now)
            (goes self.old.draft
            (place_seen (record self.old.held { name = lexeme.now }) place)) None) }
    {
        if !is_name(lexeme) {
            return Ok(None);
        }
        self.held.name = Text::copy(self.alloc, lexeme)?;
        Ok(Some(place))
    }

    /// After an attribute.
    #[tactic(auto, unfolding(crate::specs::inner::Plain::attr_step))]
    fn after_attribute(&mut self, of_port: bool, lexeme: &[u8]) -> Option<Place>
        ensures { next_of self.new result
            ≡ attr_step self.old.draft of_port self.old.held.attrs More Fixed lexeme.now }
    {
        if is(lexeme, ",") {
            let at = AttrSpot::AttrName;
            Some(Place::Attributes { of_port, at })
        } else if of_port {
            expected("*)", lexeme, Place::Port)
        } else {
            mem::swap(&mut self.draft.attrs, &mut self.held.attrs);
            expected("*)", lexeme, Place::Start)
        }
    }

    /// The next lexeme in a list of attributes (IEEE 1364-2005, 3.8).
    #[tactic(auto, unfolding(crate::specs::inner::Plain::attr_step))]
    pub fn attr_step(&mut self, of_port: bool, at: AttrSpot, lexeme: &[u8]) -> Stepped
        ensures { IfOk result (λ next. next_of self.new next
            ≡ attr_step self.old.draft of_port self.old.held.attrs
            (attr_spot_seen self.old.held.name at) (kind_of lexeme.now) lexeme.now) }
    {
        match at {
            AttrSpot::AttrName => {
                let at = AttrSpot::AttrSign;
                self.name_step(lexeme, Place::Attributes { of_port, at })
            }
            AttrSpot::AttrSign => {
                let at = AttrSpot::AttrValue;
                Ok(expected("=", lexeme, Place::Attributes { of_port, at }))
            }
            AttrSpot::AttrValue => match count_of(lexeme) {
                None => Ok(None),
                Some(number) => {
                    let name = self.take_name();
                    let value = u64::from(number);
                    self.held.attrs.push(Attr { name, value })?;
                    let at = AttrSpot::More;
                    Ok(Some(Place::Attributes { of_port, at }))
                }
            },
            AttrSpot::More => Ok(self.after_attribute(of_port, lexeme)),
        }
    }

    /// A declaration is read to its name (IEEE 1364-2005, 4.2.1, 4.2.2 and 12.3.3).
    #[tactic(auto, unfolding(crate::specs::inner::Plain::declared))]
    fn declare(&mut self, net: NetKind, signed: bool, width: u32, name: &[u8]) -> Stepped
        ensures { IfOk result (λ next. next_of self.new next
            ≡ declared self.old.draft (net_seen self.old.held.attrs net) signed width name.now) }
    {
        let name = Text::copy(self.alloc, name)?;
        match net {
            NetKind::OfPort { input } => {
                let attrs = mem::replace(&mut self.held.attrs, Attrs::new(self.alloc));
                self.draft.ports.push(Port {
                    attrs,
                    input,
                    signed,
                    width,
                    name,
                })?;
                Ok(Some(Place::AfterPort))
            }
            NetKind::OfItem { is_reg } => {
                self.held.name = name;
                Ok(Some(Place::AfterNet {
                    is_reg,
                    signed,
                    width,
                }))
            }
        }
    }

    /// The upper bound of a range, whose lower bound is 0.
    #[tactic(auto, unfolding(crate::specs::inner::Plain::net_step))]
    fn bound(&self, net: NetKind, signed: bool, lexeme: &[u8]) -> Option<Place>
        ensures { next_of self.now result
            ≡ net_step self.now.draft (net_seen self.now.held.attrs net) (Bound signed)
            (kind_of lexeme.now) lexeme.now }
    {
        match count_of(lexeme) {
            None => None,
            Some(number) => {
                let width = number + 1;
                let at = NetSpot::Colon { signed, width };
                Some(Place::Net { kind: net, at })
            }
        }
    }

    /// After the kind of a net: `signed`, `[` or the name.
    #[tactic(auto, unfolding(crate::specs::inner::Plain::net_step))]
    fn kind_end(&mut self, net: NetKind, lexeme: &[u8]) -> Stepped
        ensures { IfOk result (λ next. next_of self.new next
            ≡ net_step self.old.draft (net_seen self.old.held.attrs net) Signed
            (kind_of lexeme.now) lexeme.now) }
    {
        if is_signed(lexeme) {
            let at = NetSpot::Ranged { signed: true };
            Ok(Some(Place::Net { kind: net, at }))
        } else {
            self.range_or_name(net, false, lexeme)
        }
    }

    /// `[` or the name.
    #[tactic(auto, unfolding(crate::specs::inner::Plain::net_step))]
    fn range_or_name(&mut self, net: NetKind, signed: bool, lexeme: &[u8]) -> Stepped
        ensures { IfOk result (λ next. next_of self.new next
            ≡ net_step self.old.draft (net_seen self.old.held.attrs net) (Ranged signed)
            (kind_of lexeme.now) lexeme.now) }
    {
        if is_name(lexeme) {
            self.declare(net, signed, 1, lexeme)
        } else {
            Ok(expected(
                "[",
                lexeme,
                Place::Net {
                    kind: net,
                    at: NetSpot::Bound { signed },
                },
            ))
        }
    }

    /// The next lexeme in a declaration.
    #[tactic(auto, unfolding(crate::specs::inner::Plain::net_step))]
    pub fn net_step(&mut self, net: NetKind, at: NetSpot, lexeme: &[u8]) -> Stepped
        ensures { IfOk result (λ next. next_of self.new next
            ≡ net_step self.old.draft (net_seen self.old.held.attrs net) at
            (kind_of lexeme.now) lexeme.now) }
    {
        match at {
            NetSpot::Word => Ok(expected(
                "wire",
                lexeme,
                Place::Net {
                    kind: net,
                    at: NetSpot::Signed,
                },
            )),
            NetSpot::Signed => self.kind_end(net, lexeme),
            NetSpot::Ranged { signed } => self.range_or_name(net, signed, lexeme),
            NetSpot::Bound { signed } => Ok(self.bound(net, signed, lexeme)),
            NetSpot::Colon { signed, width } => {
                let at = NetSpot::Zero { signed, width };
                Ok(expected(":", lexeme, Place::Net { kind: net, at }))
            }
            NetSpot::Zero { signed, width } => {
                let at = NetSpot::Close { signed, width };
                Ok(expected("0", lexeme, Place::Net { kind: net, at }))
            }
            NetSpot::Close { signed, width } => {
                let at = NetSpot::Named { signed, width };
                Ok(expected("]", lexeme, Place::Net { kind: net, at }))
            }
            NetSpot::Named { signed, width } => {
                if is_name(lexeme) {
                    self.declare(net, signed, width, lexeme)
                } else {
                    Ok(None)
                }
            }
        }
    }
}
