ghost use Rattle.std.specs.Prelude.{◌≡◌, false, [], ◌∷◌, ◌++◌, IfOk};
ghost use Rattle.vl_read.specs.inner.Places.{Items};
ghost use Rattle.vl_read.specs.declared.places.Draft.{Draft};
ghost use Rattle.vl_read.specs.declared.places.Held.{Held};
ghost use Rattle.vl_read.specs.inner.Plain.{start, finish};
ghost use Rattle.vl_read.specs.inner.LexemeSteps.{expect};
ghost use Rattle.vl_read.specs.inner.ReaderPlaces.{seen, place_seen, next_of, next_seen, nothing};

use crate::places::{Draft, Goal, Held, Place, Reader, Stepped};
use crate::scan::is;
use fx_io::Text;
use std::alloc::Global;
use std::mem;
use vl_ast::{Attrs, Bits128, Expr, ModItem, ModItems, Module, Ports, Sized};

/// The number that the reader holds where none was read.
fn unread() -> Sized
    ensures { result ≡ record { width = 1; signed = false; bits = 0 } }
{
    Sized {
        width: 1,
        signed: false,
        bits: Bits128::new(0),
    }
}

/// The place, if the lexeme is this word.
pub fn expected(word: &str, lexeme: &[u8], place: Place) -> Option<Place>
    ensures { (draft : Draft) (held : Held) → next_seen draft held result
        ≡ expect word.now lexeme.now draft (place_seen held place) }
{
    if is(lexeme, word) { Some(place) } else { None }
}

impl Draft {
    /// The module, whose items are all read.
    fn module(self) -> Module
        ensures { result ≡ record {
          name = self.name;
          attrs = self.attrs;
          ports = self.ports;
          items = self.items;
        } }
    {
        let Draft {
            name,
            attrs,
            ports,
            items,
            most: _,
        } = self;
        Module {
            name,
            attrs,
            ports,
            items,
        }
    }
}

impl Reader {
    /// Before the first lexeme of a module of at most so many items.
    pub fn new(alloc: Global, most: usize) -> Reader
        ensures { seen result ≡ start most }
    {
        Reader {
            alloc,
            draft: Draft {
                name: Text::new(),
                attrs: Attrs::new(alloc),
                ports: Ports::new(alloc),
                items: ModItems::new(alloc),
                most,
            },
            place: Place::Start,
            held: Held {
                attrs: Attrs::new(alloc),
                name: Text::new(),
                first: unread(),
                condition: None,
                goal: Goal::Assigned,
                frames: Vec::new(alloc),
                operand: Text::new(),
                value: Expr::Literal(unread()),
            },
        }
    }

    /// The module, where it is read whole.
    pub fn finish(self) -> Option<Module>
        ensures { result ≡ finish (seen self) }
    {
        let Reader {
            draft,
            place,
            held,
            alloc: _,
        } = self;
        drop(held);
        if matches!(place, Place::Done) {
            Some(draft.module())
        } else {
            drop(draft);
            None
        }
    }

    /// Hands out the name that is held.
    pub fn take_name(&mut self) -> Text
        ensures name { result ≡ self.old.held.name }
        ensures rest { self.new ≡ record self.old { held = record self.old.held { name = [] } } }
    {
        mem::replace(&mut self.held.name, Text::new())
    }

    /// Hands out the name before `[`.
    pub fn take_operand(&mut self) -> Text
        ensures name { result ≡ self.old.held.operand }
        ensures rest { self.new ≡ record self.old { held = record self.old.held { operand = [] } } }
    {
        mem::replace(&mut self.held.operand, Text::new())
    }

    /// Hands out the operand that was read last.
    pub fn take_value(&mut self) -> Expr
        ensures value { result ≡ self.old.held.value }
        ensures rest { self.new ≡ record self.old {
          held = record self.old.held { value = nothing };
        } }
    {
        mem::replace(&mut self.held.value, Expr::Literal(unread()))
    }

    /// Holds the operand that was read last.
    pub fn hold(&mut self, value: Expr)
        ensures { self.new ≡ record self.old { held = record self.old.held { value = value } } }
    {
        let earlier = mem::replace(&mut self.held.value, value);
        drop(earlier);
    }

    /// Holds the condition of an item with a clock, or that it has none.
    pub fn hold_condition(&mut self, condition: Option<Expr>)
        ensures { self.new ≡ record self.old {
          held = record self.old.held { condition = condition };
        } }
    {
        let earlier = mem::replace(&mut self.held.condition, condition);
        drop(earlier);
    }

    /// Holds the attributes that stand before what is read next.
    pub fn hold_attrs(&mut self, attrs: Attrs)
        ensures { self.new ≡ record self.old { held = record self.old.held { attrs = attrs } } }
    {
        self.held.attrs = attrs;
    }

    /// One more item, if the lexeme is this word.
    pub fn with_item(&mut self, word: &str, lexeme: &[u8], item: ModItem) -> Stepped
        ensures { IfOk result (λ next. next_of self.new next
            ≡ expect word.now lexeme.now (record self.old.draft {
              items = self.old.draft.items
                  ++ item ∷ [];
            }) Items) }
    {
        self.draft.items.push(item)?;
        Ok(expected(word, lexeme, Place::Items))
    }
}
