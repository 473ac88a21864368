//! What elements begin with, and where their multiplications stand.
ghost use Rattle.std.specs.Prelude.{◌≡◌, ◌∷◌, [], ℤ, IfOk, length};
ghost use Rattle.fx_type.specs.FxType.{InRange, IsType};
ghost use Rattle.dg_model.specs.Equation.{StoresEntry};
ghost use Rattle.dg_model.specs.Library.{row_of};
ghost use Rattle.hw_lower.specs.Lowered.{multiply_of};
ghost use Rattle.hw_build.specs.inner.Entries.{number_behind};
ghost use Rattle.hw_build.specs.inner.Sites.{IsInitial, IsSite};

use crate::firsts::place_in;
use crate::parts::{Word, word_of};
use crate::site::Site;
use dg_model::Op;
use dg_tables::operations_prepare;
use fx_io::OutOfMemory;
use fx_type::{Decimal, FxType};
use hw_net::Netlist;

/// The entry of a list of a block for an element, stored in a type.
pub fn parameter_value<'a>(site: Site<'a>, list: &[Decimal], kind: FxType) -> i128
    requires shown { IsSite site }
    requires list { (row_of site.one.now.kind).signal.lists ≡ list.now ∷ [] }
    requires kind { IsType kind }
    ensures entry { StoresEntry list.now site.entry.place.element kind result }
    ensures range { InRange kind result }
    ensures one { (v : ℤ) → StoresEntry list.now site.entry.place.element kind v → v ≡ result }
{
    site.design.checked.keeps_rules();
    operations_prepare();
    fx_round::storing_gives_one();
    let decimal = list[place_in(list.len(), site.place.element)];
    fx_round::to_stored(decimal, kind)
}

/// What an element begins with: a number in the word of its block.
#[derive(Clone, Copy)]
pub struct Begun {
    pub word: Word,
    pub first: i128,
}

/// What an element begins with by a list of its block, in the type of that.
pub fn initial<'a>(site: Site<'a>, list: &[Decimal]) -> Begun
    requires shown { IsSite site }
    requires list { (row_of site.one.now.kind).signal.lists ≡ list.now ∷ [] }
    ensures { IsInitial site.entry list.now result }
{
    site.design.checked.keeps_rules();
    operations_prepare();
    let kind = site.design.checked.result(site.place.block);
    let first = parameter_value(site, list, kind);
    Begun {
        word: word_of(kind),
        first,
    }
}

/// Which of the nets that come next is the multiplication of an operation, if it has one.
pub fn multiply_behind(net: &Netlist, op: Op) -> Result<Option<u32>, OutOfMemory>
    ensures { IfOk result (λ found.
        found ≡ number_behind (length net.now.nets) (multiply_of op)) }
{
    let Ok(first) = u32::try_from(net.nets().len()) else {
        // word: the number of a net, of 32 bits
        return Err(OutOfMemory);
    };
    match op {
        Op::Product => Ok(Some(first)),
        Op::Gain { .. } => match first.checked_add(1) {
            Some(number) => Ok(Some(number)),
            // word: the number of a net, of 32 bits
            None => Err(OutOfMemory),
        },
        Op::Sum { .. }
        | Op::Switch { .. }
        | Op::Relational { .. }
        | Op::Logic { .. }
        | Op::Convert { .. }
        | Op::Pass => Ok(None),
    }
}
