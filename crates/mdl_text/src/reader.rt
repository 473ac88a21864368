ghost use Rattle.std.specs.Prelude.{◌≡◌, ◌≤◌, [], ◌++◌, codes, length, take, drop, IfOk, OnOk};
ghost use Rattle.mdl_text.specs.declared.reader.Pending.TheVariants.{Nothing};
ghost use Rattle.mdl_text.specs.inner.Content.{value_of};
ghost use Rattle.mdl_text.specs.inner.Plain.{IsBounded, goes_on, reader_strings, added, opened, closed, listed, valued, after_name, fresh_text, if_closed, unblanked, strings_from, start, step, finish};

use crate::brackets::{ListEnd, list_end};
use crate::kind::Kind;
use crate::said::{Piece, Said};
use crate::scan::{are_blanks, line_text, name_length, trim_end, trim_start};
use crate::strings::{plain_string, strings};
use crate::tree::{Item, Items};
use fx_io::{OutOfMemory, Text};
use std::alloc::Global;
use std::mem;

/// The deepest nesting of sections.
const DEEPEST: u32 = 256;

/// The items so far, and how many sections are open.
#[derive(Drop)]
pub struct Draft {
    pub items: Items,
    pub depth: u32,
}

/// A parameter that the next line may go on with.
#[derive(Drop)]
pub enum Pending<'a> {
    Nothing,
    /// A quoted value, which further text may follow.
    Strings {
        name: Piece<'a>,
        said: Said<'a>,
    },
    /// A list that is still open, its bytes so far, and how many brackets are open beside the
    /// first.
    Open {
        name: Piece<'a>,
        said: Said<'a>,
        nesting: u64,
    },
}

/// What the lines so far say.
#[derive(Drop)]
pub struct Reader<'a> {
    pub draft: Draft,
    pub pending: Pending<'a>,
}

impl Draft {
    /// Puts an item at the end. It is made here alone, since a text is costly to move.
    #[inline(never)]
    fn add(
        &mut self,
        alloc: Global,
        name: &[u8],
        kind: Kind,
        content: Said<'_>,
    ) -> Result<(), OutOfMemory>
        ensures { OnOk result
            (self.new ≡ added self.old name.now (value_of kind content.entry)) }
    {
        let name = Text::copy(alloc, name)?;
        let value = kind.value_of(content.into_text(alloc)?);
        let depth = self.depth;
        self.items.push(Item { depth, name, value })
    }

    /// The items, where every section is closed.
    fn if_closed(self) -> Option<Items>
        ensures { result ≡ if_closed self }
    {
        let Draft { items, depth } = self;
        if depth == 0 { Some(items) } else { None }
    }
}

impl<'a> Reader<'a> {
    /// Before the first line.
    pub fn new(alloc: Global) -> Reader<'a>
        ensures { result ≡ start }
    {
        let draft = Draft {
            items: Items::new(alloc),
            depth: 0,
        };
        Reader {
            draft,
            pending: Pending::Nothing,
        }
    }

    /// The next line may go on with this parameter.
    #[inline(always)]
    fn hold(&mut self, pending: Pending<'a>)
        ensures { self.new ≡ record self.old { pending = pending.entry } }
    {
        self.pending = pending;
    }

    /// A section begins, of which the bytes after its brace are given.
    #[tactic(auto, unfolding(crate::specs::inner::Plain::opened))]
    fn open(&mut self, alloc: Global, name: &[u8], after: &[u8]) -> Result<bool, OutOfMemory>
        requires { self.old.pending ≡ Nothing }
        ensures { IfOk result (λ good.
            opened self.old.draft name.now after.now ≡ goes_on good self.new) }
    {
        if !are_blanks(after) || self.draft.depth >= DEEPEST {
            return Ok(false);
        }
        self.draft
            .add(alloc, name, Kind::Section, Said::from_piece(b""))?;
        self.draft.depth += 1;
        Ok(true)
    }

    /// A section ends, of which the bytes after its brace are given.
    #[tactic(auto, unfolding(crate::specs::inner::Plain::closed))]
    fn close(&mut self, after: &[u8]) -> bool
        requires { self.old.pending ≡ Nothing }
        ensures { closed self.old.draft after.now ≡ goes_on result self.new }
    {
        if !are_blanks(after) || self.draft.depth == 0 {
            return false;
        }
        self.draft.depth -= 1;
        true
    }

    /// A list goes on over the line, behind so many bytes that stand there already.
    #[tactic(auto, unfolding(crate::specs::inner::Plain::listed))]
    fn list(
        &mut self,
        alloc: Global,
        name: Piece<'a>,
        said: Said<'a>,
        nesting: u64,
        line: &'a [u8],
        begun: usize,
    ) -> Result<bool, OutOfMemory>
        requires free { self.old.pending ≡ Nothing }
        requires within { nesting ≤ length said }
        requires begun { begun ≤ length line.now }
        ensures { IfOk result (λ good. listed self.old.draft name.entry
            (said.entry ++ take begun line.now) nesting (drop begun line.now)
            ≡ goes_on good self.new) }
    {
        let (_, rest) = line.split_at(begun);
        match list_end(nesting, rest) {
            ListEnd::Closed { taken } if are_blanks(&rest[taken..]) => {
                let list = said.with(alloc, &line[..begun + taken])?;
                self.draft.add(alloc, name.bytes(), Kind::List, list)?;
                Ok(true)
            }
            ListEnd::Open { nesting } => {
                let said = said.with(alloc, line)?.with(alloc, b"\n")?;
                self.hold(Pending::Open {
                    name,
                    said,
                    nesting,
                });
                Ok(true)
            }
            ListEnd::Closed { .. } | ListEnd::Broken => {
                drop(said);
                Ok(false)
            }
        }
    }

    /// A quoted value after what it said so far, of which the bytes on this line are given.
    fn quoted_value(
        &mut self,
        alloc: Global,
        name: Piece<'a>,
        said: Said<'a>,
        bytes: &'a [u8],
    ) -> Result<bool, OutOfMemory>
        requires { self.old.pending ≡ Nothing }
        ensures { IfOk result (λ good.
            reader_strings self.old.draft name.entry (strings_from said.entry bytes.now)
            ≡ goes_on good self.new) }
    {
        let mut gathered = said.into_vec(alloc)?;
        if !strings(&mut gathered, bytes)? {
            return Ok(false);
        }
        self.hold(Pending::Strings {
            name,
            said: Said::from_vec(gathered),
        });
        Ok(true)
    }

    /// A quoted value that begins on this line, of which the bytes behind its first quote are given
    /// too. Most are one string without backslashes.
    fn first_quoted_value(
        &mut self,
        alloc: Global,
        name: Piece<'a>,
        value: &'a [u8],
        inner: &'a [u8],
    ) -> Result<bool, OutOfMemory>
        requires free { self.old.pending ≡ Nothing }
        requires quote { value.now ≡ codes "\"" ++ inner.now }
        ensures { IfOk result (λ good.
            reader_strings self.old.draft name.entry (strings_from [] value.now)
            ≡ goes_on good self.new) }
    {
        match plain_string(inner) {
            None => self.quoted_value(alloc, name, Said::from_piece(b""), value),
            Some(text) => {
                let said = Said::from_piece(text);
                self.hold(Pending::Strings { name, said });
                Ok(true)
            }
        }
    }

    /// A parameter with a value, which begins with no blank.
    #[tactic(auto, unfolding(crate::specs::inner::Plain::valued))]
    fn value(&mut self, alloc: Global, name: &'a [u8], value: &'a [u8]) -> Result<bool, OutOfMemory>
        requires { self.old.pending ≡ Nothing }
        ensures { IfOk result (λ good.
            valued self.old.draft name.now value.now ≡ goes_on good self.new) }
    {
        match value {
            [] => Ok(false),
            [b'"', inner @ ..] => self.first_quoted_value(alloc, Piece::new(name), value, inner),
            [b'[', ..] => self.list(alloc, Piece::new(name), Said::from_piece(b""), 0, value, 1),
            _ => {
                let value = Said::from_piece(trim_end(value));
                self.draft.add(alloc, name, Kind::Bare, value)?;
                Ok(true)
            }
        }
    }

    /// What follows a name.
    fn after_name(
        &mut self,
        alloc: Global,
        name: &'a [u8],
        rest: &'a [u8],
    ) -> Result<bool, OutOfMemory>
        requires { self.old.pending ≡ Nothing }
        ensures { IfOk result (λ good.
            after_name self.old.draft name.now rest.now (unblanked rest.now)
            ≡ goes_on good self.new) }
    {
        let value = trim_start(rest);
        match value {
            [] => {
                let empty = Said::from_piece(b"");
                self.draft.add(alloc, name, Kind::Bare, empty)?;
                Ok(true)
            }
            [b'{', after @ ..] => self.open(alloc, name, after),
            _ if value.len() == rest.len() => Ok(false),
            _ => self.value(alloc, name, value),
        }
    }

    /// A line that goes on with nothing, from its first byte that is no blank.
    #[tactic(auto, unfolding(crate::specs::inner::Plain::named))]
    fn fresh(&mut self, alloc: Global, text: &'a [u8]) -> Result<bool, OutOfMemory>
        requires { self.old.pending ≡ Nothing }
        ensures { IfOk result (λ good.
            fresh_text self.old.draft text.now ≡ goes_on good self.new) }
    {
        match text {
            [] | [b'#', ..] => Ok(true),
            [b'}', after @ ..] => Ok(self.close(after)),
            _ => {
                let count = name_length(text);
                if count == 0 {
                    return Ok(false);
                }
                self.after_name(alloc, &text[..count], &text[count..])
            }
        }
    }

    /// Reads the next line. Where no text goes on so, it says `false`, and the reader is of no more
    /// use.
    #[tactic(auto, unfolding(crate::specs::inner::Plain::step, crate::specs::inner::Plain::fresh))]
    pub fn step(&mut self, alloc: Global, line: &'a [u8]) -> Result<bool, OutOfMemory>
        requires { IsBounded self.old.pending }
        ensures { IfOk result (λ good. step self.old line.now ≡ goes_on good self.new) }
    {
        let text = line_text(line);
        if let Pending::Nothing = self.pending {
            return self.fresh(alloc, text);
        }
        self.further(alloc, line, text)
    }

    /// Reads a line that may go on with a parameter, of which the text behind its blanks is given
    /// too. It stands apart from `step`, whose lines mostly go on with nothing.
    #[inline(never)]
    #[tactic(auto, unfolding(crate::specs::inner::Plain::step, crate::specs::inner::Plain::fresh))]
    fn further(
        &mut self,
        alloc: Global,
        line: &'a [u8],
        text: &'a [u8],
    ) -> Result<bool, OutOfMemory>
        requires bounded { IsBounded self.old.pending }
        requires text { text.now ≡ unblanked line.now }
        ensures { IfOk result (λ good. step self.old line.now ≡ goes_on good self.new) }
    {
        match mem::replace(&mut self.pending, Pending::Nothing) {
            Pending::Nothing => self.fresh(alloc, text),
            Pending::Open {
                name,
                said,
                nesting,
            } => self.list(alloc, name, said, nesting, line, 0),
            Pending::Strings { name, said } => match text {
                [b'"', ..] => self.quoted_value(alloc, name, said, text),
                _ => {
                    self.draft.add(alloc, name.bytes(), Kind::Quoted, said)?;
                    self.fresh(alloc, text)
                }
            },
        }
    }

    /// The items at the end of the text. `None` where a section or a list is open.
    #[tactic(auto, unfolding(crate::specs::inner::Plain::finish))]
    pub fn finish(self, alloc: Global) -> Result<Option<Items>, OutOfMemory>
        ensures { IfOk result (λ items. items ≡ finish self.entry) }
    {
        let Reader { mut draft, pending } = self;
        match pending {
            Pending::Nothing => Ok(draft.if_closed()),
            Pending::Strings { name, said } => {
                draft.add(alloc, name.bytes(), Kind::Quoted, said)?;
                Ok(draft.if_closed())
            }
            Pending::Open { said, .. } => {
                drop(draft);
                drop(said);
                Ok(None)
            }
        }
    }
}
