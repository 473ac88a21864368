//! What the values of a block's parameters say.
ghost use Rattle.std.specs.Prelude.{◌≡◌};

use dg_model::{Criterion, Decimals, Gate, PeriodSpec, Relation};
use fx_io::{Flags, Sizes};
use fx_type::{Decimal, Rounding, TypeSpec};
use std::alloc::Global;
use std::mem;

/// What the value of a parameter says (own).
#[derive(Drop)]
pub enum Setting {
    /// Nothing that is kept.
    Unsaid,
    /// A port's number, a length, or a number of inputs.
    Number(u32),
    /// A declared width, 0 for none.
    Width(u32),
    /// How the type of its output is chosen.
    Result(TypeSpec),
    /// How the type of its coefficient or of its accumulator is chosen.
    Coefficient(TypeSpec),
    /// How its period is chosen.
    Period(PeriodSpec),
    /// The period of its output.
    Rate(Decimal),
    /// A value of each element.
    List(Decimals),
    /// What the delays of a filter begin with.
    States(Decimals),
    /// How many inputs there are, and of each whether it is subtracted.
    Signs(u32, Flags),
    /// How many parts there are, and their sizes where these are given.
    Parts(u32, Sizes),
    /// How results are rounded.
    Rounding(Rounding),
    /// Whether results saturate.
    Saturate(bool),
    /// Whether a block is reset, or reads stored integers.
    Flag(bool),
    /// What a Switch asks.
    Criterion(Criterion),
    /// A relation.
    Relation(Relation),
    /// A gate.
    Gate(Gate),
}

/// What the parameters of a block say, but for its lists. One that its type doesn't have says nothing
/// (own).
#[derive(Clone, Copy)]
pub struct Said {
    /// A port's number, a length, or a number of inputs or parts.
    pub number: u32,
    /// A declared width, 0 for none.
    pub width: u32,
    /// How the type of its output is chosen.
    pub result: TypeSpec,
    /// How the type of its coefficient or of its accumulator is chosen.
    pub coefficient: TypeSpec,
    /// How its period is chosen.
    pub period: PeriodSpec,
    /// The period of its output.
    pub rate: Decimal,
    /// How results are rounded.
    pub rounding: Rounding,
    /// Whether results saturate.
    pub saturate: bool,
    /// Whether it is reset, or reads stored integers.
    pub flag: bool,
    /// What a Switch asks.
    pub criterion: Criterion,
    /// A relation.
    pub relation: Relation,
    /// A gate.
    pub gate: Gate,
}

/// What the parameters of a block say, with its lists (own).
#[derive(Drop)]
pub struct Settings {
    /// All but the lists.
    pub said: Said,
    /// A value of each element.
    pub list: Decimals,
    /// What the delays of a filter begin with.
    pub states: Decimals,
    /// Of each input, whether it is subtracted.
    pub signs: Flags,
    /// The sizes of its parts where these are given.
    pub sizes: Sizes,
}

/// What is said of a block of which nothing is said.
const UNSAID: Said = Said {
    number: 0,
    width: 0,
    result: TypeSpec::Auto,
    coefficient: TypeSpec::Auto,
    period: PeriodSpec::Inherit,
    rate: Decimal {
        negative: false,
        digits: 0,
        exponent: 0,
    },
    rounding: Rounding::Floor,
    saturate: false,
    flag: false,
    criterion: Criterion::AtLeast,
    relation: Relation::Eq,
    gate: Gate::And,
};

impl Settings {
    ghost use Rattle.mdl_build.specs.Settings.{unset, with_setting};

    /// Those of a block of which nothing is said.
    pub fn unset(alloc: Global) -> Settings
        ensures { result ≡ unset }
    {
        Settings {
            said: UNSAID,
            list: Decimals::new(alloc),
            states: Decimals::new(alloc),
            signs: Flags::new(alloc),
            sizes: Sizes::new(alloc),
        }
    }

    /// Takes the value of each element out.
    pub fn take_list(&mut self, alloc: Global) -> Decimals
        ensures { result ≡ self.old.list }
    {
        mem::replace(&mut self.list, Decimals::new(alloc))
    }

    /// Takes out the coefficients of a filter, and what its delays begin with.
    pub fn take_filter(&mut self, alloc: Global) -> (Decimals, Decimals)
        ensures { result ≡ (self.old.list, self.old.states) }
    {
        let coefficients = mem::replace(&mut self.list, Decimals::new(alloc));
        (
            coefficients,
            mem::replace(&mut self.states, Decimals::new(alloc)),
        )
    }

    /// Takes out, of each input, whether it is subtracted.
    pub fn take_signs(&mut self, alloc: Global) -> Flags
        ensures { result ≡ self.old.signs }
    {
        mem::replace(&mut self.signs, Flags::new(alloc))
    }

    /// Takes the sizes of the parts out.
    pub fn take_sizes(&mut self, alloc: Global) -> Sizes
        ensures { result ≡ self.old.sizes }
    {
        mem::replace(&mut self.sizes, Sizes::new(alloc))
    }

    /// Puts what one parameter says in its place.
    pub fn put(&mut self, setting: Setting)
        ensures { self.new ≡ with_setting self.old setting }
    {
        match setting {
            Setting::Unsaid => {}
            Setting::Number(number) => self.said.number = number,
            Setting::Width(width) => self.said.width = width,
            Setting::Result(spec) => self.said.result = spec,
            Setting::Coefficient(spec) => self.said.coefficient = spec,
            Setting::Period(spec) => self.said.period = spec,
            Setting::Rate(rate) => {
                self.said.period = PeriodSpec::Every(rate);
                self.said.rate = rate;
            }
            Setting::List(list) => self.list = list,
            Setting::States(states) => self.states = states,
            Setting::Signs(count, signs) => {
                self.said.number = count;
                self.signs = signs;
            }
            Setting::Parts(count, sizes) => {
                self.said.number = count;
                self.sizes = sizes;
            }
            Setting::Rounding(rounding) => self.said.rounding = rounding,
            Setting::Saturate(flag) => self.said.saturate = flag,
            Setting::Flag(flag) => self.said.flag = flag,
            Setting::Criterion(criterion) => self.said.criterion = criterion,
            Setting::Relation(relation) => self.said.relation = relation,
            Setting::Gate(gate) => self.said.gate = gate,
        }
    }
}
