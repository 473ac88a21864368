//! The rules of structure and of library.
ghost use Rattle.std.specs.Prelude.{◌≡◌, ℕ, ◌<◌, ◌+◌, ◌==◌, ◌&&◌, not, true, length, count_by, find, is_none, All, IfOk, Some, List, Bool, false};
ghost use Rattle.std.specs.Option.{option_map_or};
ghost use Rattle.mdl_text.specs.declared.tree.Item.{Item};
ghost use Rattle.mdl_build.specs.Blocks.{number_at};
ghost use Rattle.mdl_build.specs.Roles.{role_of, roles_of, blocks_of};
ghost use Rattle.mdl_build.specs.Rules.{has_root, is_model, is_system, is_shallow, are_shallow, is_system_in, has_own_name, has_one_system, keeps_structure, type_at};
ghost use Rattle.mdl_build.specs.Sections.{places_of};
ghost use Rattle.mdl_build.specs.inner.Names.{AreBlocks};
ghost use Rattle.mdl_build.specs.inner.Structure.{AreCounts, IsFoundBlock};

use crate::layout::Layout;
use crate::library::BlockType;
use crate::names::Blocks;
use crate::roles::Role;
use crate::type_names::type_of_name;
use fx_io::OutOfMemory;
use std::alloc::Global;

/// Whether an item is a Model.
fn is_model(role: Role) -> bool
    ensures { result ≡ is_model role }
{
    matches!(role, Role::Model)
}

/// The level of a System.
fn level_of(role: Role) -> Option<u32>
    ensures { (test : ℕ → Bool) → is_system test role ≡ option_map_or test result false }
{
    let Role::System(level) = role else {
        return None;
    };
    Some(level)
}

/// Whether an item is a System of the first level.
fn is_first(role: Role) -> bool
    ensures { result ≡ is_system (λ level. level == 1) role }
{
    match level_of(role) {
        None => false,
        Some(level) => level == 1,
    }
}

/// Whether an item is no System that is too deep, and no filter that stands for a subsystem with such.
fn is_shallow(role: Role) -> bool
    ensures { result ≡ is_shallow role }
{
    match role {
        Role::System(level) => level < 65,
        Role::Filter(level) => level < 64,
        Role::Block(_)
        | Role::SubSystem(_)
        | Role::Other
        | Role::Model
        | Role::Branch(_)
        | Role::Defaults
        | Role::TypeDefaults(_) => true,
    }
}

/// Whether there is one Model, and one System of the first level.
fn is_root(models: usize, firsts: usize) -> bool
    ensures { result ≡ ((models == 1) && (firsts == 1)) }
{
    models == 1 && firsts == 1
}

/// Whether there is one Model, with one System directly in it, and no System is too deep.
pub fn has_shape(roles: &[Role]) -> bool
    ensures { result ≡ (has_root roles.now && are_shallow roles.now) }
{
    let mut models = 0;
    let mut firsts = 0;
    for role in roles {
        if !is_shallow(*role) {
            return false;
        }
        models += usize::from(is_model(*role));
        firsts += usize::from(is_first(*role));
    }
    is_root(models, firsts)
}

/// Counts the item at a place in the section that it stands in, if it is a System.
fn add_system(counts: &mut Vec<usize>, layout: &Layout, place: usize, role: Role)
    requires within { place < length layout.now.items.now }
    requires role { role_of layout.now.items.now place ≡ role }
    requires counted { AreCounts layout.now.items.now counts.old.items place }
    ensures { AreCounts layout.now.items.now counts.new.items (place + 1) }
{
    if level_of(role).is_none() {
        return;
    }
    let Some(holder) = layout.holder(place) else {
        return;
    };
    let before = counts[holder];
    counts[holder] = before + 1;
}

/// Of each item, how many Systems that count stand directly in it.
fn systems_in(alloc: Global, layout: &Layout, roles: &[Role]) -> Result<Vec<usize>, OutOfMemory>
    requires { roles.now ≡ roles_of layout.now.items.now }
    ensures { IfOk result (λ counts.
        AreCounts layout.now.items.now counts.items (length layout.now.items.now)) }
{
    let mut counts = vec![in alloc; 0; layout.count()]?;
    for (place, role) in roles.iter().enumerate() {
        add_system(&mut counts, layout, place, *role);
    }
    Ok(counts)
}

/// Whether the first block that has the name of this one in its System is this one.
fn has_own_name<'a>(layout: &Layout<'a>, blocks: &Blocks<'a>, number: usize, place: usize) -> bool
    requires within { place < length layout.now.items.now }
    requires known { AreBlocks layout.now.items.now blocks.now }
    requires number { number_at layout.now.items.now place ≡ number }
    ensures { result ≡ has_own_name layout.now.items.now place }
{
    let Some(system) = layout.holder(place) else {
        return false;
    };
    let Some(name) = layout.value(place, b"Name") else {
        return false;
    };
    match blocks.number(system, name) {
        None => false,
        Some(first) => first as usize == number,
    }
}

/// Whether a subsystem has one System.
fn has_one_system(role: Role, systems: usize) -> bool
    ensures { (items : List Item) (place : ℕ)
        → systems ≡ count_by (is_system_in items place) (places_of items)
        → result ≡ has_one_system items place role }
{
    match role {
        Role::SubSystem(_) => systems == 1,
        Role::Block(_)
        | Role::Filter(_)
        | Role::System(_)
        | Role::Other
        | Role::Model
        | Role::Branch(_)
        | Role::Defaults
        | Role::TypeDefaults(_) => true,
    }
}

/// Whether a block has a type, a name of its own, and one System if it is a subsystem.
fn keeps_structure<'a>(
    layout: &Layout<'a>,
    blocks: &Blocks<'a>,
    number: usize,
    place: usize,
    role: Role,
    systems: usize,
) -> bool
    requires known { AreBlocks layout.now.items.now blocks.now }
    requires block { IsFoundBlock layout.now.items.now number place role systems }
    ensures { result ≡ keeps_structure layout.now.items.now place }
{
    layout.value(place, b"BlockType").is_some()
        && has_own_name(layout, blocks, number, place)
        && has_one_system(role, systems)
}

/// The first block without a type or a name, with another's name, or with other than one System.
pub fn first_misshapen<'a>(
    alloc: Global,
    layout: &Layout<'a>,
    roles: &[Role],
    blocks: &Blocks<'a>,
) -> Result<Option<usize>, OutOfMemory>
    requires roles { roles.now ≡ roles_of layout.now.items.now }
    requires known { AreBlocks layout.now.items.now blocks.now }
    ensures { IfOk result (λ found. found ≡ find
        (λ place. not (keeps_structure layout.now.items.now place))
        (blocks_of layout.now.items.now)) }
{
    let counts = systems_in(alloc, layout, roles)?;
    for (number, place) in blocks.places().iter().enumerate() {
        let place = *place;
        if !keeps_structure(layout, blocks, number, place, roles[place], counts[place]) {
            return Ok(Some(place));
        }
    }
    Ok(None)
}

/// The type of the block at a place.
pub fn type_at(layout: &Layout, place: usize) -> Option<BlockType>
    requires { place < length layout.now.items.now }
    ensures { result ≡ type_at layout.now.items.now place }
{
    match layout.value(place, b"BlockType") {
        None => None,
        Some(name) => type_of_name(name),
    }
}

/// The first block whose type isn't known.
pub fn first_unknown(layout: &Layout, places: &[usize]) -> Option<usize>
    requires { All (λ place. place < length layout.now.items.now) places.now }
    ensures { result ≡ find (λ place. is_none (type_at layout.now.items.now place)) places.now }
{
    for place in places {
        if type_at(layout, *place).is_none() {
            return Some(*place);
        }
    }
    None
}
