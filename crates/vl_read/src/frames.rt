ghost use Rattle.std.specs.Prelude.{◌≡◌, IfOk};
ghost use Rattle.vl_ast.specs.declared.expressions.Expr.{Expr};
ghost use Rattle.vl_ast.specs.declared.expressions.Expr.TheViews.{out-Expr};
ghost use Rattle.vl_read.specs.declared.places.Frame.TheVariants.{InConcat, InChosen};
ghost use Rattle.vl_read.specs.declared.scan.Kind.TheVariants.{Fixed};
ghost use Rattle.vl_read.specs.inner.Lexemes.{kind_of};
ghost use Rattle.vl_read.specs.inner.Places.{Value, High, Amount};
ghost use Rattle.vl_read.specs.inner.Plain.{expect_spot, left_step, frame_step, goal_step, spot_step, indexed, name_of};
ghost use Rattle.vl_read.specs.inner.ReaderPlaces.{goal_of, goal_in, frames_of, next_of, spot_of, spot_seen};

use crate::numbers::{constant_of, count_of, kind_of};
use crate::operands::expected_spot;
use crate::pieces::{Wrap, binary, bit, choose, concat, innermost, part, wrapped};
use crate::places::{Bracket, Frame, Goal, Place, Reader, Spot, Stepped};
use crate::reader::expected;
use crate::scan::is;
use fx_io::{Boxed, OutOfMemory};
use vl_ast::{BinOp, Expr, Exprs, ModItem, ShiftOp};

impl Reader {
    /// An operator after the first operand of what is in parentheses.
    #[tactic(auto, unfolding(crate::specs::inner::Plain::left_step))]
    fn left_step(&mut self, value: Expr, lexeme: &[u8]) -> Stepped
        ensures { IfOk result (λ next. next_of self.new next
            ≡ left_step self.old.draft (goal_in self.old)
            (frames_of self.old) value lexeme.now) }
    {
        if is(lexeme, "?") {
            let test = Boxed::new(self.alloc, value)?;
            return self.inside(Frame::InChosen(test), Spot::Operand);
        }
        match BinOp::of_text(lexeme) {
            Some(op) => {
                let left = Boxed::new(self.alloc, value)?;
                self.inside(Frame::InRight(op, left), Spot::Operand)
            }
            None => match ShiftOp::of_text(lexeme) {
                Some(op) => {
                    self.hold(value);
                    Ok(Some(Place::Expression(Spot::Amount(op))))
                }
                None => {
                    drop(value);
                    Ok(None)
                }
            },
        }
    }

    /// After an operand in a concatenation.
    #[tactic(auto, unfolding(crate::specs::inner::Plain::frame_step))]
    fn concat_step(&mut self, mut parts: Exprs, value: Expr, lexeme: &[u8]) -> Stepped
        ensures { IfOk result (λ next. next_of self.new next
            ≡ frame_step self.old.draft (goal_in self.old) (frames_of self.old)
            (InConcat parts) value lexeme.now) }
    {
        parts.push(value)?;
        if is(lexeme, ",") {
            return self.inside(Frame::InConcat(parts), Spot::Operand);
        }
        self.hold(concat(parts));
        Ok(expected_spot(b'}', lexeme, Spot::Value))
    }

    /// After the second operand of a choice.
    #[tactic(auto, unfolding(crate::specs::inner::Plain::frame_step))]
    fn chosen_step(&mut self, test: Boxed<Expr>, value: Expr, lexeme: &[u8]) -> Stepped
        ensures { IfOk result (λ next. next_of self.new next
            ≡ frame_step self.old.draft (goal_in self.old) (frames_of self.old)
            (InChosen test) value lexeme.now) }
    {
        let chosen = Boxed::new(self.alloc, value)?;
        self.held.frames.push(Frame::InOther(test, chosen))?;
        Ok(expected_spot(b':', lexeme, Spot::Operand))
    }

    /// After the mark that ends what an operand was made of. What was made may have wanted memory.
    fn ended_step(
        &mut self,
        made: Result<Expr, OutOfMemory>,
        lexeme: &[u8],
        mark: u8,
        spot: Spot,
    ) -> Stepped
        ensures { (value : Expr) → IfOk made (λ e. e ≡ value)
            → IfOk result (λ next. next_of self.new next
            ≡ expect_spot mark lexeme.now self.old.draft (goal_in self.old)
            (frames_of self.old) (spot_seen self.old.held.operand value spot)) }
    {
        self.hold(made?);
        Ok(expected_spot(mark, lexeme, spot))
    }

    /// After an operand in a frame.
    #[tactic(auto, unfolding(crate::specs::inner::Plain::frame_step))]
    fn frame_step(&mut self, frame: Frame, value: Expr, lexeme: &[u8]) -> Stepped
        ensures { IfOk result (λ next. next_of self.new next
            ≡ frame_step self.old.draft (goal_in self.old)
            (frames_of self.old) frame value lexeme.now) }
    {
        match frame {
            Frame::InConcat(parts) => self.concat_step(parts, value, lexeme),
            Frame::InLeft => self.left_step(value, lexeme),
            Frame::InChosen(test) => self.chosen_step(test, value, lexeme),
            Frame::InRepeat(count) => {
                let made = wrapped(self.alloc, Wrap::Repeat(count), value);
                self.ended_step(made, lexeme, b'}', Spot::Ends(Bracket::CloseBrace))
            }
            Frame::InCast(signed) => {
                let made = wrapped(self.alloc, Wrap::Cast(signed), value);
                self.ended_step(made, lexeme, b')', Spot::Value)
            }
            Frame::InUnary(op) => {
                let made = wrapped(self.alloc, Wrap::Unary(op), value);
                self.ended_step(made, lexeme, b')', Spot::Value)
            }
            Frame::InRight(op, left) => {
                let made = binary(self.alloc, op, left, value);
                self.ended_step(made, lexeme, b')', Spot::Value)
            }
            Frame::InOther(test, chosen) => {
                let made = choose(self.alloc, test, chosen, value);
                self.ended_step(made, lexeme, b')', Spot::Value)
            }
        }
    }

    /// After an expression that is in no other.
    #[tactic(auto, unfolding(crate::specs::inner::Plain::goal_step))]
    fn goal_step(&mut self, goal: Goal, lexeme: &[u8]) -> Stepped
        ensures { IfOk result (λ next. next_of self.new next
            ≡ goal_step self.old.draft (goal_of self.old goal) self.old.held.value lexeme.now) }
    {
        match goal {
            Goal::Assigned => {
                let name = self.take_name();
                let value = self.take_value();
                self.with_item(";", lexeme, ModItem::Assign { name, value })
            }
            Goal::Condition => {
                let condition = self.take_value();
                self.hold_condition(Some(condition));
                Ok(expected(")", lexeme, Place::Again))
            }
            Goal::Next => Ok(expected(";", lexeme, Place::End)),
        }
    }

    /// `[` after an operand.
    #[tactic(auto, unfolding(crate::specs::inner::Plain::spot_step))]
    fn index_step(&mut self, value: Expr) -> Option<Place>
        ensures { next_of self.new result
            ≡ indexed self.old.draft (goal_in self.old) (frames_of self.old)
            (name_of (out-Expr value)) }
    {
        match value {
            Expr::Name(name) => {
                self.held.operand = name;
                Some(Place::Expression(Spot::Index))
            }
            other => {
                drop(other);
                None
            }
        }
    }

    /// After an operand.
    #[tactic(auto, unfolding(crate::specs::inner::Plain::spot_step))]
    fn value_step(&mut self, lexeme: &[u8]) -> Stepped
        ensures { IfOk result (λ next. next_of self.new next
            ≡ spot_step self.old.draft (goal_in self.old) (frames_of self.old)
            (Value self.old.held.value) Fixed lexeme.now) }
    {
        if is(lexeme, "[") {
            let value = self.take_value();
            return Ok(self.index_step(value));
        }
        match innermost(&mut self.held.frames) {
            None => self.goal_step(self.held.goal, lexeme),
            Some(frame) => {
                let value = self.take_value();
                self.frame_step(frame, value, lexeme)
            }
        }
    }

    /// After a name, `[` and a number.
    #[tactic(auto, unfolding(crate::specs::inner::Plain::spot_step))]
    fn high_step(&mut self, place: u32, lexeme: &[u8]) -> Option<Place>
        ensures { next_of self.new result
            ≡ spot_step self.old.draft (goal_in self.old) (frames_of self.old)
            (High self.old.held.operand place) Fixed lexeme.now }
    {
        if is(lexeme, "]") {
            let name = self.take_operand();
            self.hold(bit(name, place));
            Some(Place::Expression(Spot::Value))
        } else {
            expected_spot(b':', lexeme, Spot::Low(place))
        }
    }

    /// The amount of a shift.
    #[tactic(auto, unfolding(crate::specs::inner::Plain::spot_step))]
    fn amount_step(&mut self, op: ShiftOp, lexeme: &[u8]) -> Stepped
        ensures { IfOk result (λ next. next_of self.new next
            ≡ spot_step self.old.draft (goal_in self.old) (frames_of self.old)
            (Amount op self.old.held.value) (kind_of lexeme.now) lexeme.now) }
    {
        match constant_of(lexeme) {
            None => Ok(None),
            Some(amount) => {
                let value = self.take_value();
                self.hold(wrapped(self.alloc, Wrap::Shift(op, amount), value)?);
                Ok(Some(Place::Expression(Spot::Ends(Bracket::CloseParenthesis))))
            }
        }
    }

    /// The next lexeme in an expression (IEEE 1364-2005, clause 5).
    #[tactic(auto, unfolding(crate::specs::inner::Plain::spot_step))]
    pub fn spot_step(&mut self, spot: Spot, lexeme: &[u8]) -> Stepped
        ensures { IfOk result (λ next. next_of self.new next
            ≡ spot_step self.old.draft (goal_in self.old) (frames_of self.old)
            (spot_of self.old spot) (kind_of lexeme.now) lexeme.now) }
    {
        match spot {
            Spot::Operand => self.operand_step(kind_of(lexeme), lexeme),
            Spot::Opened => self.opened_step(kind_of(lexeme), lexeme),
            Spot::Braced => self.braced_step(kind_of(lexeme), lexeme),
            Spot::Begins(mark) => Ok(expected_spot(mark.byte(), lexeme, Spot::Operand)),
            Spot::Value => self.value_step(lexeme),
            Spot::Ends(mark) => Ok(expected_spot(mark.byte(), lexeme, Spot::Value)),
            Spot::Amount(op) => self.amount_step(op, lexeme),
            Spot::Index => match count_of(lexeme) {
                None => Ok(None),
                Some(place) => Ok(Some(Place::Expression(Spot::High(place)))),
            },
            Spot::High(place) => Ok(self.high_step(place, lexeme)),
            Spot::Low(high) => match count_of(lexeme) {
                None => Ok(None),
                Some(low) => {
                    let name = self.take_operand();
                    self.hold(part(name, high, low));
                    Ok(Some(Place::Expression(Spot::Ends(Bracket::CloseBracket))))
                }
            },
        }
    }
}
