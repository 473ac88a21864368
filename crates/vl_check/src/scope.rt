ghost use Rattle.std.specs.Prelude.{◌≡◌, ◌<◌, [], Some, None, length, option_map, slice_index_or};
ghost use Rattle.vl_check.specs.inner.Mentions.{declared_of};
ghost use Rattle.vl_check.specs.inner.Names.{HasPlaces};

use crate::mentions::Declared;
use std::collections::BTreeMap;

/// The names that stand in a module's text, numbered from 0 in the order of their first places, each
/// with its first declaration.
#[derive(Drop)]
pub struct Scope<'a> {
    pub(crate) names: Vec<&'a [u8]>,
    pub(crate) by_name: BTreeMap<&'a [u8], usize>,
    pub(crate) declared: Vec<Option<Declared<'a>>>,
    ghost long: { length declared.items ≡ length names.items },
    ghost places: { HasPlaces names.items by_name },
}

impl<'a> Scope<'a> {
    ghost use Rattle.vl_check.specs.Scope.{declaration_in, names_in, number_at, number_in};

    /// How many names there are.
    pub fn count(&self) -> usize
        ensures { result ≡ length (names_in self.now) }
    {
        self.declared.len()
    }

    /// The number of a name. `None` where it doesn't stand in the text.
    pub fn number(&self, name: &[u8]) -> Option<usize>
        ensures { result ≡ number_in self.now name.now }
    {
        self.by_name.get(name).copied()
    }

    /// The number of a name, or how many names there are where it is none of them.
    pub fn number_or_count(&self, name: &[u8]) -> usize
        ensures { result ≡ number_at self.now name.now }
    {
        match self.number(name) {
            None => self.count(),
            Some(number) => number,
        }
    }

    /// The name of a number.
    pub fn name(&self, number: usize) -> &'a [u8]
        requires { number < length (names_in self.now) }
        ensures { result.now ≡ slice_index_or (names_in self.now) number [] }
    {
        self.names[number]
    }

    /// The first declaration of a name. `None` where it has none.
    pub fn declaration(&self, name: &[u8]) -> Option<Declared<'a>>
        ensures { option_map declared_of result ≡ declaration_in self.now name.now }
    {
        let Some(number) = self.number(name) else {
            return None;
        };
        self.declared[number]
    }
}
