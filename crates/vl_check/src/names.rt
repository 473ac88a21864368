ghost use Rattle.std.specs.Prelude.{◌≡◌, ◌++◌, ◌∷◌, [], OnOk, slice_set};
ghost use Rattle.vl_ast.specs.Conditions.{mentioned};
ghost use Rattle.vl_check.specs.inner.Mentions.{mention_of, texts};
ghost use Rattle.vl_check.specs.inner.Names.{HasPlaces, Numbered};

use crate::mentions::Mention;
use fx_io::OutOfMemory;
use std::collections::BTreeMap;

/// The names that stand in a module's text, numbered in the order of their first places, the number
/// of each, and the number of the name at each place.
#[derive(Drop)]
pub struct Numbers<'a> {
    pub names: Vec<&'a [u8]>,
    pub by_name: BTreeMap<&'a [u8], usize>,
    pub numbers: Vec<usize>,
}

/// Puts an item at the end.
pub fn put<T: Drop>(items: &mut Vec<T>, item: T) -> Result<(), OutOfMemory>
    ensures { OnOk result (items.new.items ≡ items.old.items ++ item ∷ []) }
{
    items.push(item)?;
    Ok(())
}

/// Puts an item at a place, where there is one.
pub fn put_at<T: Drop>(items: &mut Vec<T>, place: usize, item: T)
    ensures { items.new.items ≡ slice_set items.old.items place item }
{
    if place < items.len() {
        items[place] = item;
    }
}

/// The name at a place. The `clk` and the `reset` of a clocked item stand under the first of them.
pub fn mentioned_name<'a>(mention: &Mention<'a>) -> &'a [u8]
    ensures { result.now ≡ mentioned (mention_of mention.now) }
{
    match mention {
        Mention::Declares(declared) => declared.name,
        Mention::Drives { name, .. } | Mention::Reads(name) => *name,
        Mention::Clocks => b"clk",
    }
}

impl<'a> Numbers<'a> {
    ghost use Rattle.std.specs.Prelude.{ℕ, List};

    /// Gives the name at one more place its number, which is the next one where it has none yet.
    pub fn add(&mut self, name: &'a [u8]) -> Result<(), OutOfMemory>
        requires { HasPlaces self.old.names.items self.old.by_name }
        ensures numbered { OnOk result ((before : List (List ℕ))
            → Numbered before (texts self.old.names.items) self.old.numbers.items
            → Numbered (before ++ name.now ∷ []) (texts self.new.names.items)
            self.new.numbers.items) }
        ensures places { OnOk result (HasPlaces self.new.names.items self.new.by_name) }
    {
        if let Some(number) = self.by_name.get(name).copied() {
            return put(&mut self.numbers, number);
        }
        let number = self.names.len();
        self.by_name.insert(name, number)?;
        put(&mut self.names, name)?;
        put(&mut self.numbers, number)
    }
}
