ghost use Rattle.std.specs.Prelude.{◌≡◌, [], ◌∷◌, ◌++◌, length, OnOk, OnErr};
ghost use Rattle.std.specs.List.{refill};
ghost use Rattle.std.specs.Borrow.{Lends, sem, Array};
ghost use Rattle.fx_io.specs.contracts.sequence.Sequence.{the_row};

use crate::fault::OutOfMemory;
use crate::text::Text;
use std::alloc::Global;
use std::marker::Model;

/// Numbers of things, as widths and places.
pub type Sizes = Sequence<u32>;
/// Clocks and slots.
pub type Longs = Sequence<u64>;
/// Stored integers.
pub type Cells = Sequence<i128>;
/// Marks, as the signs of a sum.
pub type Flags = Sequence<bool>;
/// Periods in base samples; `None` is a value that never changes.
pub type Periods = Sequence<Option<u32>>;
/// A list of widths for each block.
pub type PortSizes = Sequence<Sizes>;
/// A list of texts.
pub type Texts = Sequence<Text>;

/// A list that grows at its end (own). Contracts see the list of its items, and neither its
/// pointer nor its spare room, so that a record of sequences is plain data.
#[derive(Debug, Drop)]
pub struct Sequence<E> {
    items: Vec<E>,
}

impl<E> Model for Sequence<E> {
    ghost use Rattle.std.specs.Prelude.{List};
    ghost use Rattle.std.specs.Coded.{coded_list};

    ghost Value = { List E };

    ghost coded = { coded_list E.code };

    ghost view = { λ sequence. sequence.items.items };
}

impl<E> Sequence<E> {
    /// The empty list. It takes no memory.
    pub fn new(alloc: Global) -> Self
        ensures { result ≡ [] }
    {
        Sequence {
            items: Vec::new(alloc),
        }
    }

    /// The items of a `Vec`, taken over as they are, without memory.
    pub fn from_vec(items: Vec<E>) -> Self
        ensures { result ≡ items.items }
    {
        Sequence { items }
    }

    /// The items as a `Vec`, handed over as they are, without memory.
    pub fn into_vec(self) -> Vec<E>
        ensures { result.items ≡ self }
    {
        let Sequence { items } = self;
        items
    }

    /// The items in order.
    pub fn as_slice(&self) -> &[E]
        ensures { result.now ≡ self.now }
    {
        self.items.as_slice()
    }

    /// The items, to be changed in place. When the loan ends, the list is what the slice then holds:
    /// a slice keeps its length, so none of the old items is left.
    pub fn as_mut_slice(&mut self) -> &mut [E]
        ensures* writes_back { sem 𝓛 (Lends (the_row E.row) (Array E.row 0) self.entry result
            (λ items. refill (length self.old) self.old items)) }
        ensures value { result.now ≡ self.old }
    {
        self.items.as_mut_slice()
    }
}

impl<E: Drop> Sequence<E> {
    /// Puts an item at the end. Where memory is wanting the list stays as it was.
    pub fn push(&mut self, element: E) -> Result<(), OutOfMemory>
        ensures appended { OnOk result (self.new ≡ self.old ++ element ∷ []) }
        ensures kept { OnErr result (self.new ≡ self.old) }
    {
        self.items.push(element)?;
        Ok(())
    }
}
