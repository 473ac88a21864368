ghost use Rattle.std.specs.Prelude.{◌≡◌, ◌++◌, ◌∷◌, [], IfOk};
ghost use Rattle.vl_read.specs.declared.places.Frame.TheVariants.{InConcat};
ghost use Rattle.vl_read.specs.declared.scan.Kind.TheVariants.{Fixed};
ghost use Rattle.vl_read.specs.declared.places.Draft.{Draft};
ghost use Rattle.vl_read.specs.declared.places.Held.{Held};
ghost use Rattle.vl_read.specs.declared.places.Place.TheVariants.{Expression};
ghost use Rattle.vl_read.specs.inner.Plain.{spot_at, compound_step, operand_step, opened_step, braced_step};
ghost use Rattle.vl_read.specs.inner.LexemeSteps.{expect};
ghost use Rattle.vl_read.specs.inner.ReaderPlaces.{goal_in, frames_of, next_of, next_seen, place_seen, spot_of};

use crate::pieces::{literal, no_operands, whole_name};
use crate::places::{Bracket, Frame, Place, Reader, Spot, Stepped};
use crate::scan::{Kind, is};
use fx_io::Text;
use vl_ast::UnOp;

/// How deep expressions nest at most (own).
const DEEPEST: usize = 256;

/// The place in the expression, if the lexeme is this mark.
pub fn expected_spot(mark: u8, lexeme: &[u8], spot: Spot) -> Option<Place>
    ensures { (draft : Draft) (held : Held) → next_seen draft held result
        ≡ expect (mark ∷ []) lexeme.now draft (place_seen held (Expression spot)) }
{
    match lexeme {
        [byte] if *byte == mark => Some(Place::Expression(spot)),
        _ => None,
    }
}

impl Reader {
    /// The reading goes on in a further frame.
    pub fn inside(&mut self, frame: Frame, spot: Spot) -> Stepped
        ensures { IfOk result (λ next. next_of self.new next
            ≡ spot_at self.old.draft (goal_in self.old) (frames_of self.old
            ++ frame ∷ []) (spot_of self.old spot)) }
    {
        self.held.frames.push(frame)?;
        Ok(Some(Place::Expression(spot)))
    }

    /// An operand that is no name and no number.
    #[tactic(auto, unfolding(crate::specs::inner::Plain::compound_step))]
    fn compound_step(&mut self, lexeme: &[u8]) -> Stepped
        ensures { IfOk result (λ next. next_of self.new next
            ≡ compound_step self.old.draft (goal_in self.old)
            (frames_of self.old) lexeme.now) }
    {
        if self.held.frames.len() >= DEEPEST {
            Ok(None)
        } else if is(lexeme, "(") {
            Ok(Some(Place::Expression(Spot::Opened)))
        } else if is(lexeme, "{") {
            Ok(Some(Place::Expression(Spot::Braced)))
        } else if is(lexeme, "$signed") {
            self.inside(Frame::InCast(true), Spot::Begins(Bracket::OpenParenthesis))
        } else if is(lexeme, "$unsigned") {
            self.inside(Frame::InCast(false), Spot::Begins(Bracket::OpenParenthesis))
        } else {
            Ok(None)
        }
    }

    /// Where an operand begins.
    #[tactic(auto, unfolding(crate::specs::inner::Plain::operand_step))]
    pub fn operand_step(&mut self, kind: Kind, lexeme: &[u8]) -> Stepped
        ensures { IfOk result (λ next. next_of self.new next
            ≡ operand_step self.old.draft (goal_in self.old)
            (frames_of self.old) kind lexeme.now) }
    {
        match kind {
            Kind::Name => {
                self.hold(whole_name(Text::copy(self.alloc, lexeme)?));
                Ok(Some(Place::Expression(Spot::Value)))
            }
            Kind::Constant(number) => {
                self.hold(literal(number));
                Ok(Some(Place::Expression(Spot::Value)))
            }
            Kind::Count(_) => Ok(None),
            Kind::Fixed => self.compound_step(lexeme),
        }
    }

    /// An operand in a further frame.
    fn operand_in(&mut self, frame: Frame, kind: Kind, lexeme: &[u8]) -> Stepped
        ensures { IfOk result (λ next. next_of self.new next
            ≡ operand_step self.old.draft (goal_in self.old) (frames_of self.old
            ++ frame ∷ []) kind lexeme.now) }
    {
        self.held.frames.push(frame)?;
        self.operand_step(kind, lexeme)
    }

    /// After `(`.
    #[tactic(auto, unfolding(crate::specs::inner::Plain::opened_step, crate::specs::inner::Plain::operand_step, crate::specs::inner::Plain::unary_or_left))]
    pub fn opened_step(&mut self, kind: Kind, lexeme: &[u8]) -> Stepped
        ensures { IfOk result (λ next. next_of self.new next
            ≡ opened_step self.old.draft (goal_in self.old)
            (frames_of self.old) kind lexeme.now) }
    {
        match kind {
            Kind::Name | Kind::Constant(_) => self.operand_in(Frame::InLeft, kind, lexeme),
            Kind::Count(_) => Ok(None),
            Kind::Fixed => match UnOp::of_text(lexeme) {
                Some(op) => self.inside(Frame::InUnary(op), Spot::Operand),
                None => self.operand_in(Frame::InLeft, kind, lexeme),
            },
        }
    }

    /// After `{`.
    #[tactic(auto, unfolding(crate::specs::inner::Plain::braced_step, crate::specs::inner::Plain::operand_step))]
    pub fn braced_step(&mut self, kind: Kind, lexeme: &[u8]) -> Stepped
        ensures { IfOk result (λ next. next_of self.new next
            ≡ braced_step self.old.draft (goal_in self.old)
            (frames_of self.old) kind lexeme.now) }
    {
        match kind {
            Kind::Count(number) => self.inside(
                Frame::InRepeat(number),
                Spot::Begins(Bracket::OpenBrace),
            ),
            Kind::Name | Kind::Constant(_) | Kind::Fixed => {
                let frame = Frame::InConcat(no_operands(self.alloc)?);
                self.operand_in(frame, kind, lexeme)
            }
        }
    }
}
