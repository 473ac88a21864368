//! What each item of a tree is: a Model, a System that counts, a block, a line, or nothing of these.
ghost use Rattle.std.specs.Prelude.{◌≡◌, ◌<◌, IfOk, map, length};
ghost use Rattle.std.specs.List.{range_with_len};
ghost use Rattle.mdl_build.specs.Roles.{deeper, outer_role, role_in_model, role_in_system, role_under, role_of, roles_of};

use crate::layout::Layout;
use fx_io::OutOfMemory;
use std::alloc::Global;

/// What an item is (own).
#[derive(Clone, Copy)]
pub enum Role {
    /// Nothing that is looked at.
    Other,
    /// A Model that stands in no section.
    Model,
    /// A System that counts, of this level; that of the Model is the first.
    System(u32),
    /// A block of a System of this level.
    Block(u32),
    /// A block of a System of this level whose type is SubSystem.
    SubSystem(u32),
    /// A block of a System of this level whose type is DiscreteFir.
    Filter(u32),
    /// A line that has a source, or a branch of one, by the place of the line.
    Branch(usize),
    /// The defaults of block types.
    Defaults,
    /// The defaults of one type, by the place of the section that holds them.
    TypeDefaults(usize),
}

/// The level below one. Those past 65 aren't told apart.
fn deeper(level: u32) -> u32
    ensures { result ≡ deeper level }
{
    if level < 65 { level + 1 } else { level }
}

/// What an item that stands in no section is.
fn outer_role(layout: &Layout, place: usize) -> Role
    requires { place < length layout.now.items.now }
    ensures { result ≡ outer_role layout.now.items.now place }
{
    if layout.is_section(place, b"Model") {
        Role::Model
    } else {
        Role::Other
    }
}

/// What an item directly in the Model is.
fn role_in_model(layout: &Layout, place: usize) -> Role
    requires { place < length layout.now.items.now }
    ensures { result ≡ role_in_model layout.now.items.now place }
{
    if layout.is_section(place, b"System") {
        Role::System(1)
    } else if layout.is_section(place, b"BlockParameterDefaults") {
        Role::Defaults
    } else {
        Role::Other
    }
}

/// What an item directly in a System of this level is.
fn role_in_system(layout: &Layout, level: u32, place: usize) -> Role
    requires { place < length layout.now.items.now }
    ensures { result ≡ role_in_system layout.now.items.now level place }
{
    if layout.is_section(place, b"Block") {
        if layout.says(place, b"BlockType", b"SubSystem") {
            Role::SubSystem(level)
        } else if layout.says(place, b"BlockType", b"DiscreteFir") {
            Role::Filter(level)
        } else {
            Role::Block(level)
        }
    } else if layout.is_section(place, b"Line") && layout.value(place, b"SrcBlock").is_some() {
        Role::Branch(place)
    } else {
        Role::Other
    }
}

/// What an item is by the section that it stands directly in.
fn role_under(layout: &Layout, holder: usize, role: Role, place: usize) -> Role
    requires { place < length layout.now.items.now }
    ensures { result ≡ role_under layout.now.items.now holder role place }
{
    match role {
        Role::Other => Role::Other,
        Role::Model => role_in_model(layout, place),
        Role::System(level) => role_in_system(layout, level, place),
        Role::Block(_) | Role::Filter(_) => Role::Other,
        Role::SubSystem(level) if layout.is_section(place, b"System") => {
            Role::System(deeper(level))
        }
        Role::SubSystem(_) => Role::Other,
        Role::Branch(line) if layout.is_section(place, b"Branch") => Role::Branch(line),
        Role::Branch(_) => Role::Other,
        Role::Defaults if layout.is_section(place, b"Block") => Role::TypeDefaults(holder),
        Role::Defaults => Role::Other,
        Role::TypeDefaults(_) => Role::Other,
    }
}

/// What the item at a place is, where the roles of those before it are known.
fn role_at(layout: &Layout, roles: &[Role], place: usize) -> Role
    requires within { place < length layout.now.items.now }
    requires known { roles.now ≡ map (role_of layout.now.items.now) (range_with_len 0 place) }
    ensures { result ≡ role_of layout.now.items.now place }
{
    let Some(depth) = layout.depth_below(place) else {
        return outer_role(layout, place);
    };
    match layout.holder(place) {
        Some(holder) if layout.depth(holder) == depth => {
            role_under(layout, holder, roles[holder], place)
        }
        _ => Role::Other,
    }
}

/// The roles of all items.
pub fn roles(alloc: Global, layout: &Layout) -> Result<Vec<Role>, OutOfMemory>
    ensures { IfOk result (λ roles. roles.items ≡ roles_of layout.now.items.now) }
{
    let mut roles = Vec::new(alloc);
    for place in 0..layout.count() {
        let role = role_at(layout, &roles, place);
        roles.push(role)?;
    }
    Ok(roles)
}
