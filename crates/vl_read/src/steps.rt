ghost use Rattle.std.specs.Prelude.{◌≡◌, [], IfOk};
ghost use Rattle.vl_ast.specs.declared.modules.ModItem.TheVariants.{Always};
ghost use Rattle.vl_read.specs.declared.scan.Kind.TheVariants.{Fixed};
ghost use Rattle.vl_read.specs.inner.Lexemes.{kind_of};
ghost use Rattle.vl_read.specs.inner.Places.{Items, Start, Port, AfterPort, Title, Branch, First, Expression, Operand, End, Semicolon};
ghost use Rattle.vl_read.specs.inner.Plain.{step, step_at, again_step, net_item};
ghost use Rattle.vl_read.specs.inner.LexemeSteps.{expect};
ghost use Rattle.vl_read.specs.inner.ReaderPlaces.{seen, goal_of, next_of};
ghost use Rattle.vl_read.specs.inner.Turns.{stepped};

use crate::nets::has_none;
use crate::numbers::{constant_of, is_name};
use crate::places::{AttrSpot, Goal, HeadSpot, NetKind, NetSpot, Place, Reader, Spot, Stepped};
use crate::reader::expected;
use crate::scan::is;
use fx_io::{OutOfMemory, Text};
use vl_ast::{Attrs, ModItem};

impl Reader {
    /// The first word of an item, or the end.
    #[tactic(auto, unfolding(crate::specs::inner::Plain::step_at, crate::specs::inner::Plain::item_step))]
    fn items_step(&self, lexeme: &[u8]) -> Option<Place>
        ensures { next_of self.now result ≡ step_at self.now.draft Items Fixed lexeme.now }
    {
        let at = NetSpot::Signed;
        if is(lexeme, "endmodule") {
            Some(Place::Done)
        } else if self.draft.items.as_slice().len() >= self.draft.most {
            None
        } else if is(lexeme, "wire") {
            let kind = NetKind::OfItem { is_reg: false };
            Some(Place::Net { kind, at })
        } else if is(lexeme, "reg") {
            let kind = NetKind::OfItem { is_reg: true };
            Some(Place::Net { kind, at })
        } else if is(lexeme, "assign") {
            Some(Place::AssignName)
        } else {
            expected("always", lexeme, Place::Head(HeadSpot::Event))
        }
    }

    /// The attributes of the module, or its first word.
    #[tactic(auto, unfolding(crate::specs::inner::Plain::step_at))]
    fn start_step(&mut self, lexeme: &[u8]) -> Option<Place>
        ensures { next_of self.new result ≡ step_at self.old.draft Start Fixed lexeme.now }
    {
        if is(lexeme, "(*") && has_none(&self.draft.attrs) {
            self.hold_attrs(Attrs::new(self.alloc));
            Some(Place::Attributes {
                of_port: false,
                at: AttrSpot::AttrName,
            })
        } else {
            expected("module", lexeme, Place::Title)
        }
    }

    /// The attributes of a port, or its direction.
    #[tactic(auto, unfolding(crate::specs::inner::Plain::step_at))]
    fn port_step(&mut self, lexeme: &[u8]) -> Option<Place>
        ensures { next_of self.new result
            ≡ step_at self.old.draft (Port self.old.held.attrs) Fixed lexeme.now }
    {
        let at = NetSpot::Word;
        if is(lexeme, "(*") && has_none(&self.held.attrs) {
            self.hold_attrs(Attrs::new(self.alloc));
            Some(Place::Attributes {
                of_port: true,
                at: AttrSpot::AttrName,
            })
        } else if is(lexeme, "input") {
            let kind = NetKind::OfPort { input: true };
            Some(Place::Net { kind, at })
        } else {
            let kind = NetKind::OfPort { input: false };
            expected("output", lexeme, Place::Net { kind, at })
        }
    }

    /// A port begins, if the lexeme is this word.
    fn first_port(&mut self, word: &str, lexeme: &[u8]) -> Option<Place>
        ensures { next_of self.new result
            ≡ expect word.now lexeme.now self.old.draft (Port []) }
    {
        self.hold_attrs(Attrs::new(self.alloc));
        expected(word, lexeme, Place::Port)
    }

    /// After a port.
    #[tactic(auto, unfolding(crate::specs::inner::Plain::step_at))]
    fn after_port(&mut self, lexeme: &[u8]) -> Option<Place>
        ensures { next_of self.new result
            ≡ step_at self.old.draft AfterPort Fixed lexeme.now }
    {
        if is(lexeme, ",") {
            self.first_port(",", lexeme)
        } else {
            expected(")", lexeme, Place::AfterPorts)
        }
    }

    /// An expression begins, if the lexeme is this word.
    fn expression(&mut self, word: &str, lexeme: &[u8], goal: Goal) -> Option<Place>
        ensures { next_of self.new result
            ≡ expect word.now lexeme.now self.old.draft
            (Expression (goal_of self.old goal) [] Operand) }
    {
        self.held.goal = goal;
        self.held.frames.clear();
        expected(word, lexeme, Place::Expression(Spot::Operand))
    }

    /// The name of the module.
    #[tactic(auto, unfolding(crate::specs::inner::Plain::step_at))]
    fn title_step(&mut self, lexeme: &[u8]) -> Stepped
        ensures { IfOk result (λ next. next_of self.new next
            ≡ step_at self.old.draft Title (kind_of lexeme.now) lexeme.now) }
    {
        if !is_name(lexeme) {
            return Ok(None);
        }
        self.draft.name = Text::copy(self.alloc, lexeme)?;
        Ok(Some(Place::Ports))
    }

    /// The same name again.
    fn again_step(&self, lexeme: &[u8]) -> Option<Place>
        ensures { next_of self.now result
            ≡ again_step self.now.draft
            (record {
              name = self.now.held.name;
              first = self.now.held.first;
              condition =
                  self.now.held.condition;
            }) lexeme.now }
    {
        if lexeme == self.held.name.bytes() {
            Some(Place::NextSign)
        } else {
            None
        }
    }

    /// `if`, or the name again.
    #[tactic(auto, unfolding(crate::specs::inner::Plain::step_at))]
    fn branch_step(&mut self, lexeme: &[u8]) -> Option<Place>
        ensures { next_of self.new result
            ≡ step_at self.old.draft (Branch self.old.held.name self.old.held.first)
            (kind_of lexeme.now) lexeme.now }
    {
        if is_name(lexeme) {
            self.hold_condition(None);
            self.again_step(lexeme)
        } else {
            expected("if", lexeme, Place::If)
        }
    }

    /// The value at a reset.
    #[tactic(auto, unfolding(crate::specs::inner::Plain::step_at))]
    fn first_step(&mut self, lexeme: &[u8]) -> Option<Place>
        ensures { next_of self.new result
            ≡ step_at self.old.draft (First self.old.held.name) (kind_of lexeme.now) lexeme.now }
    {
        match constant_of(lexeme) {
            None => None,
            Some(first) => {
                self.held.first = first;
                Some(Place::AfterFirst)
            }
        }
    }

    /// An item with a clock ends.
    #[tactic(auto, unfolding(crate::specs::inner::Plain::step_at))]
    fn clocked_end(&mut self, lexeme: &[u8]) -> Stepped
        ensures { IfOk result (λ next. next_of self.new next
            ≡ step_at self.old.draft
            (End (Always self.old.held.name self.old.held.first self.old.held.condition
            self.old.held.value)) Fixed lexeme.now) }
    {
        let name = self.take_name();
        let value = self.take_value();
        let condition = self.held.condition.take();
        let item = ModItem::Always {
            name,
            first: self.held.first,
            condition,
            value,
        };
        self.with_item("end", lexeme, item)
    }

    /// The declaration of a register, or else of a wire, ends.
    #[tactic(auto, unfolding(crate::specs::inner::Plain::step_at))]
    fn net_end(&mut self, is_reg: bool, signed: bool, width: u32, lexeme: &[u8]) -> Stepped
        ensures { IfOk result (λ next. next_of self.new next
            ≡ step_at self.old.draft
            (Semicolon (net_item is_reg signed width self.old.held.name)) Fixed lexeme.now) }
    {
        let name = self.take_name();
        if is_reg {
            let item = ModItem::Reg {
                signed,
                width,
                name,
            };
            self.with_item(";", lexeme, item)
        } else {
            let item = ModItem::Wire {
                signed,
                width,
                name,
            };
            self.with_item(";", lexeme, item)
        }
    }

    /// Where the reading goes on after the next lexeme. `None` where no module goes on so.
    #[tactic(auto, unfolding(crate::specs::inner::Plain::step, crate::specs::inner::Plain::step_at))]
    fn next(&mut self, lexeme: &[u8]) -> Stepped
        ensures { IfOk result (λ next. next_of self.new next
            ≡ step (seen self.old) lexeme.now) }
    {
        match self.place {
            Place::Start => Ok(self.start_step(lexeme)),
            Place::Attributes { of_port, at } => self.attr_step(of_port, at, lexeme),
            Place::Title => self.title_step(lexeme),
            Place::Ports => Ok(self.first_port("(", lexeme)),
            Place::Port => Ok(self.port_step(lexeme)),
            Place::Net { kind, at } => self.net_step(kind, at, lexeme),
            Place::AfterPort => Ok(self.after_port(lexeme)),
            Place::AfterPorts => Ok(expected(";", lexeme, Place::Items)),
            Place::Items => Ok(self.items_step(lexeme)),
            Place::AssignName => self.name_step(lexeme, Place::AssignSign),
            Place::AssignSign => Ok(self.expression("=", lexeme, Goal::Assigned)),
            Place::Head(at) => Ok(expected(at.word(), lexeme, at.next())),
            Place::ClockedName => self.name_step(lexeme, Place::ClockedSign),
            Place::ClockedSign => Ok(expected("<=", lexeme, Place::First)),
            Place::First => Ok(self.first_step(lexeme)),
            Place::AfterFirst => Ok(expected(";", lexeme, Place::Else)),
            Place::Else => Ok(expected("else", lexeme, Place::Branch)),
            Place::Branch => Ok(self.branch_step(lexeme)),
            Place::If => Ok(self.expression("(", lexeme, Goal::Condition)),
            Place::Again => {
                if is_name(lexeme) {
                    Ok(self.again_step(lexeme))
                } else {
                    Ok(None)
                }
            }
            Place::NextSign => Ok(self.expression("<=", lexeme, Goal::Next)),
            Place::Expression(spot) => self.spot_step(spot, lexeme),
            Place::AfterNet {
                is_reg,
                signed,
                width,
            } => self.net_end(is_reg, signed, width, lexeme),
            Place::End => self.clocked_end(lexeme),
            Place::Done => Ok(None),
        }
    }
    /// Reads the next lexeme. `false` where no module goes on so; the reader is of no further use then.
    pub fn step(&mut self, lexeme: &[u8]) -> Result<bool, OutOfMemory>
        ensures { IfOk result (λ said. stepped said (seen self.new)
            ≡ step (seen self.old) lexeme.now) }
    {
        match self.next(lexeme)? {
            None => Ok(false),
            Some(place) => {
                self.place = place;
                Ok(true)
            }
        }
    }
}
