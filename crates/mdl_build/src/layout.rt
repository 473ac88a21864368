//! The items of a tree, with the section that each stands in and the end of what each holds.
ghost use Rattle.std.specs.Prelude.{◌≡◌, ℕ, suc, ◌<◌, ◌≤◌, length, map, slice_index, IfOk};
ghost use Rattle.std.specs.List.{range_with_len};
ghost use Rattle.std.specs.Option.{option_copied};
ghost use Rattle.mdl_build.specs.Sections.{depth_at, holder_of, last_above, content_of, said_at};
ghost use Rattle.mdl_build.specs.inner.Layout.{holders_of, end_behind, end_of, ends_of};

use fx_io::OutOfMemory;
use mdl_text::{Item, Value};
use std::alloc::Global;

/// The items of a tree, named by their places from 0.
#[derive(Drop)]
pub struct Layout<'a> {
    items: &'a [Item],
    /// The last item before each that is less deep.
    holders: Vec<Option<usize>>,
    /// The first item behind each that isn't deeper, or their number.
    ends: Vec<usize>,
    ghost held: { holders.items ≡ holders_of items.now },
    ghost ended: { ends.items ≡ ends_of items.now },
}

/// The last item before a place that is less deep than this, where those of the earlier items are
/// known.
fn holder_at(items: &[Item], holders: &[Option<usize>], depth: u32, place: usize) -> Option<usize>
    requires within { place ≤ length items.now }
    requires known { holders.now ≡ map (holder_of items.now) (range_with_len 0 place) }
    ensures { result ≡ last_above items.now depth place }
{
    let mut behind = place;
    while behind > 0 {
        let last = behind - 1;
        if items[last].depth < depth {
            return Some(last);
        }
        behind = match holders[last] {
            None => 0,
            Some(holder) => holder + 1,
        };
    }
    None
}

/// Of each item the last one before it that is less deep.
fn holders_of(alloc: Global, items: &[Item]) -> Result<Vec<Option<usize>>, OutOfMemory>
    ensures { IfOk result (λ holders. holders.items ≡ holders_of items.now) }
{
    let mut holders = Vec::new(alloc);
    for place in 0..items.len() {
        let holder = holder_at(items, &holders, items[place].depth, place);
        holders.push(holder)?;
    }
    Ok(holders)
}

/// The first item behind a place that isn't deeper than this, where the ends of the later ones are
/// known.
fn end_at(items: &[Item], ends: &[usize], depth: u32, place: usize) -> usize
    requires within { place < length items.now }
    requires long { length ends.now ≡ length items.now }
    requires known { (k : ℕ) → place < k → k < length items.now
        → slice_index ends.now k ≡ end_of items.now k }
    ensures { result ≡ end_behind items.now depth (suc place) }
{
    let mut end = place + 1;
    while end < items.len() && items[end].depth > depth {
        end = ends[end];
    }
    end
}

/// Of each item the first one behind it that isn't deeper, or their number.
fn ends_of(alloc: Global, items: &[Item]) -> Result<Vec<usize>, OutOfMemory>
    ensures { IfOk result (λ ends. ends.items ≡ ends_of items.now) }
{
    let mut ends = vec![in alloc; 0; items.len()]?;
    let mut place = items.len();
    while place > 0 {
        place -= 1;
        ends[place] = end_at(items, &ends, items[place].depth, place);
    }
    Ok(ends)
}

/// The content of a parameter, whichever form it has.
fn content(value: &Value) -> Option<&[u8]>
    ensures { option_copied result ≡ content_of value.now }
{
    match value {
        Value::Section => None,
        Value::Bare(text) | Value::List(text) | Value::Quoted(text) => Some(text.bytes()),
    }
}

/// What an item, which is deeper than this, says of a parameter, where it is one deeper and has its
/// name.
fn said_below<'a>(item: &'a Item, above: u32, name: &[u8]) -> Option<&'a [u8]>
    requires { above < item.now.depth }
    ensures { option_copied result ≡ said_at (suc above) name.now item.now }
{
    if item.depth - above == 1 && item.name.bytes() == name {
        content(&item.value)
    } else {
        None
    }
}

impl<'a> Layout<'a> {
    ghost use Rattle.mdl_build.specs.Sections.{is_section_at, value_of};
    ghost use Rattle.mdl_build.specs.Roles.{says};
    ghost use Rattle.mdl_build.specs.inner.Layout.{depth_below};

    /// The layout of a tree's items.
    pub fn new(alloc: Global, items: &'a [Item]) -> Result<Layout<'a>, OutOfMemory>
        ensures { IfOk result (λ layout. layout.items.now ≡ items.now) }
    {
        let holders = holders_of(alloc, items)?;
        let ends = ends_of(alloc, items)?;
        Ok(Layout {
            items,
            holders,
            ends,
        })
    }

    /// How many items there are.
    pub fn count(&self) -> usize
        ensures { result ≡ length self.now.items.now }
    {
        self.items.len()
    }

    /// The depth of an item.
    pub fn depth(&self, place: usize) -> u32
        requires { place < length self.now.items.now }
        ensures { result ≡ depth_at self.now.items.now place }
    {
        self.items[place].depth
    }

    /// The depth that the section of an item has. None where it stands in no section.
    pub fn depth_below(&self, place: usize) -> Option<u32>
        requires { place < length self.now.items.now }
        ensures { result ≡ depth_below (depth_at self.now.items.now place) }
    {
        let depth = self.items[place].depth;
        if depth == 0 { None } else { Some(depth - 1) }
    }

    /// The last item before a place that is less deep.
    pub fn holder(&self, place: usize) -> Option<usize>
        requires { place < length self.now.items.now }
        ensures { result ≡ holder_of self.now.items.now place }
    {
        self.holders[place]
    }

    /// Whether an item is a section of this name.
    pub fn is_section(&self, place: usize, name: &[u8]) -> bool
        requires { place < length self.now.items.now }
        ensures { result ≡ is_section_at self.now.items.now place name.now }
    {
        let item = &self.items[place];
        match item.value {
            Value::Section => item.name.bytes() == name,
            Value::Bare(_) | Value::List(_) | Value::Quoted(_) => false,
        }
    }

    /// The value of the first parameter of this name that stands directly in a section.
    pub fn value(&self, place: usize, name: &[u8]) -> Option<&'a [u8]>
        requires { place < length self.now.items.now }
        ensures { option_copied result ≡ value_of self.now.items.now place name.now }
    {
        let above = self.items[place].depth;
        let mut next = place + 1;
        while next < self.items.len() && self.items[next].depth > above {
            match said_below(&self.items[next], above, name) {
                Some(said) => return Some(said),
                None => next = self.ends[next],
            }
        }
        None
    }

    /// Whether a parameter of the item at a place has this text.
    pub fn says(&self, place: usize, name: &[u8], text: &[u8]) -> bool
        requires { place < length self.now.items.now }
        ensures { result ≡ says self.now.items.now place name.now text.now }
    {
        match self.value(place, name) {
            None => false,
            Some(value) => value == text,
        }
    }
}
