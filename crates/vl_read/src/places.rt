use fx_io::{Boxed, OutOfMemory, Text};
use std::alloc::Global;
use vl_ast::{Attrs, BinOp, Expr, Exprs, ModItems, Ports, ShiftOp, Sized, UnOp};

/// An expression that is begun, without the part that is being read.
#[derive(Drop)]
pub enum Frame {
    /// `{` and the parts so far.
    InConcat(Exprs),
    /// `{`, a number and `{`.
    InRepeat(u32),
    /// `$signed` or `$unsigned`, and `(`.
    InCast(bool),
    /// `(` and an operator.
    InUnary(UnOp),
    /// `(` alone.
    InLeft,
    /// `(`, an operand and an operator.
    InRight(BinOp, Boxed<Expr>),
    /// `(`, an operand and `?`.
    InChosen(Boxed<Expr>),
    /// `(`, an operand, `?`, an operand and `:`.
    InOther(Boxed<Expr>, Boxed<Expr>),
}

/// A mark that opens what is read next or closes what was read.
#[derive(Clone, Copy)]
pub enum Bracket {
    /// `(`
    OpenParenthesis,
    /// `{`
    OpenBrace,
    /// `)`
    CloseParenthesis,
    /// `}`
    CloseBrace,
    /// `]`
    CloseBracket,
}

impl Bracket {
    ghost use Rattle.std.specs.Prelude.{◌≡◌};
    ghost use Rattle.vl_read.specs.inner.Places.{bracket_byte};

    /// The mark itself.
    pub fn byte(self) -> u8
        ensures { result ≡ bracket_byte self }
    {
        match self {
            Bracket::OpenParenthesis => b'(',
            Bracket::OpenBrace => b'{',
            Bracket::CloseParenthesis => b')',
            Bracket::CloseBrace => b'}',
            Bracket::CloseBracket => b']',
        }
    }
}

/// Where in an expression the reading is.
#[derive(Clone, Copy)]
pub enum Spot {
    /// An operand begins.
    Operand,
    /// After `(`.
    Opened,
    /// After `{`.
    Braced,
    /// This mark is next, and then an operand begins.
    Begins(Bracket),
    /// An operand was read.
    Value,
    /// This mark is next, and then the operand was read.
    Ends(Bracket),
    /// The amount of a shift is next.
    Amount(ShiftOp),
    /// After a name and `[`.
    Index,
    /// After a name, `[` and a number.
    High(u32),
    /// After a name, `[`, a number and `:`.
    Low(u32),
}

/// What an expression is read for.
#[derive(Clone, Copy)]
pub enum Goal {
    /// The value of an assignment.
    Assigned,
    /// The condition of an item with a clock.
    Condition,
    /// The value of an item with a clock.
    Next,
}

/// Whose declaration is read.
#[derive(Clone, Copy)]
pub enum NetKind {
    OfPort { input: bool },
    /// A register, or else a wire.
    OfItem { is_reg: bool },
}

/// Where in a declaration the reading is.
#[derive(Clone, Copy)]
pub enum NetSpot {
    /// `wire` is next.
    Word,
    /// `signed`, `[` or the name is next.
    Signed,
    /// `[` or the name is next.
    Ranged { signed: bool },
    /// After `[`.
    Bound { signed: bool },
    /// `:` is next.
    Colon { signed: bool, width: u32 },
    /// `0` is next.
    Zero { signed: bool, width: u32 },
    /// `]` is next.
    Close { signed: bool, width: u32 },
    /// The name is next.
    Named { signed: bool, width: u32 },
}

/// Where in the head of an item with a clock the reading is: between `always` and its name.
#[derive(Clone, Copy)]
pub enum HeadSpot {
    /// `@` is next.
    Event,
    /// `(` is next, and then the event.
    OpenEvent,
    /// `posedge` is next.
    Posedge,
    /// `clk` is next.
    Clock,
    /// `)` is next, and then `begin`.
    CloseEvent,
    /// `begin` is next.
    Begin,
    /// `if` is next.
    Test,
    /// `(` is next, and then `reset`.
    OpenTest,
    /// `reset` is next.
    Reset,
    /// `)` is next, and then the name.
    CloseTest,
}

impl HeadSpot {
    ghost use Rattle.std.specs.Prelude.{◌≡◌};
    ghost use Rattle.vl_read.specs.declared.places.Held.{Held};
    ghost use Rattle.vl_read.specs.inner.Plain.{after_head, head_word};
    ghost use Rattle.vl_read.specs.inner.ReaderPlaces.{place_seen};

    /// The word itself.
    pub fn word(self) -> &'static str
        ensures { result.now ≡ head_word self }
    {
        match self {
            HeadSpot::Event => "@",
            HeadSpot::OpenEvent | HeadSpot::OpenTest => "(",
            HeadSpot::Posedge => "posedge",
            HeadSpot::Clock => "clk",
            HeadSpot::CloseEvent | HeadSpot::CloseTest => ")",
            HeadSpot::Begin => "begin",
            HeadSpot::Test => "if",
            HeadSpot::Reset => "reset",
        }
    }

    /// What is next after it.
    pub fn next(self) -> Place
        ensures { (held : Held) → place_seen held result ≡ after_head self }
    {
        match self {
            HeadSpot::Event => Place::Head(HeadSpot::OpenEvent),
            HeadSpot::OpenEvent => Place::Head(HeadSpot::Posedge),
            HeadSpot::Posedge => Place::Head(HeadSpot::Clock),
            HeadSpot::Clock => Place::Head(HeadSpot::CloseEvent),
            HeadSpot::CloseEvent => Place::Head(HeadSpot::Begin),
            HeadSpot::Begin => Place::Head(HeadSpot::Test),
            HeadSpot::Test => Place::Head(HeadSpot::OpenTest),
            HeadSpot::OpenTest => Place::Head(HeadSpot::Reset),
            HeadSpot::Reset => Place::Head(HeadSpot::CloseTest),
            HeadSpot::CloseTest => Place::ClockedName,
        }
    }
}

/// Where in a list of attributes the reading is.
#[derive(Clone, Copy)]
pub enum AttrSpot {
    /// A name is next.
    AttrName,
    /// `=` is next.
    AttrSign,
    /// A number is next.
    AttrValue,
    /// `,` or `*)` is next.
    More,
}

/// Where in a module the reading is. What was read for the place stands in `Held`.
#[derive(Clone, Copy)]
pub enum Place {
    /// The module's attributes, where there are none yet, or `module` is next.
    Start,
    /// In the attributes of a port, or else of the module.
    Attributes {
        of_port: bool,
        at: AttrSpot,
    },
    /// The module's name is next.
    Title,
    /// `(` is next.
    Ports,
    /// The port's attributes, where there are none yet, or its direction is next.
    Port,
    /// In a declaration.
    Net {
        kind: NetKind,
        at: NetSpot,
    },
    /// `,` or `)` is next.
    AfterPort,
    /// `;` is next, and then the items.
    AfterPorts,
    /// An item or `endmodule` is next.
    Items,
    /// After `assign`.
    AssignName,
    /// `=` is next.
    AssignSign,
    /// In the head of an item with a clock.
    Head(HeadSpot),
    /// The name of an item with a clock is next.
    ClockedName,
    /// `<=` is next.
    ClockedSign,
    /// The value at a reset is next.
    First,
    /// `;` is next.
    AfterFirst,
    /// `else` is next.
    Else,
    /// `if` or the name again is next.
    Branch,
    /// `(` is next.
    If,
    /// The name again is next.
    Again,
    /// `<=` is next, and then the value.
    NextSign,
    /// In an expression.
    Expression(Spot),
    /// `;` is next, which ends the declaration of a register, or else of a wire.
    AfterNet {
        is_reg: bool,
        signed: bool,
        width: u32,
    },
    /// `end` is next, which ends an item with a clock.
    End,
    /// The module is read.
    Done,
}

/// Where a module goes on, if it does so, where no memory was wanting.
pub type Stepped = Result<Option<Place>, OutOfMemory>;

/// The module so far.
#[derive(Drop)]
pub struct Draft {
    pub name: Text,
    pub attrs: Attrs,
    pub ports: Ports,
    pub items: ModItems,
    /// How many items it may have.
    pub most: usize,
}

/// What was read of the part that the place is in.
#[derive(Drop)]
pub struct Held {
    /// The attributes of a list or a port.
    pub attrs: Attrs,
    /// The name of an attribute or an item.
    pub name: Text,
    /// The value of an item with a clock at a reset.
    pub first: Sized,
    /// The condition of an item with a clock.
    pub condition: Option<Expr>,
    /// What the expression is read for.
    pub goal: Goal,
    /// The expressions that are begun, the innermost last.
    pub frames: Vec<Frame>,
    /// The name before `[`.
    pub operand: Text,
    /// The operand that was read last.
    pub value: Expr,
}

/// What the lexemes so far say.
#[derive(Drop)]
pub struct Reader {
    /// What has the memory for what is read.
    pub alloc: Global,
    pub draft: Draft,
    pub place: Place,
    pub held: Held,
}
