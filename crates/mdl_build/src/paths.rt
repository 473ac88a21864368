//! The path of a block.
ghost use Rattle.std.specs.Prelude.{◌≡◌, ◌<◌, ◌++◌, true, length, IfOk, codes};
ghost use Rattle.mdl_build.specs.Blocks.{parent_of, path_name, path_of, if_subsystem};
ghost use Rattle.mdl_build.specs.Roles.{roles_of, role_of, is_block};
ghost use Rattle.mdl_build.specs.Sections.{value_of};

use crate::layout::Layout;
use crate::roles::Role;
use dg_model::put_escaped;
use fx_io::{OutOfMemory, Text};
use std::alloc::Global;

/// The place, where that is a subsystem.
fn if_subsystem(place: usize, role: Role) -> Option<usize>
    ensures { result ≡ if_subsystem place role }
{
    match role {
        Role::SubSystem(_) => Some(place),
        Role::Block(_)
        | Role::Filter(_)
        | Role::Other
        | Role::Model
        | Role::System(_)
        | Role::Branch(_)
        | Role::Defaults
        | Role::TypeDefaults(_) => None,
    }
}

/// The subsystem whose System holds the block at a place.
pub fn parent(layout: &Layout, roles: &[Role], place: usize) -> Option<usize>
    requires within { place < length layout.now.items.now }
    requires known { roles.now ≡ roles_of layout.now.items.now }
    ensures { result ≡ parent_of layout.now.items.now place }
{
    let Some(system) = layout.holder(place) else {
        return None;
    };
    let Some(holder) = layout.holder(system) else {
        return None;
    };
    if_subsystem(holder, roles[holder])
}

/// The name of a block as it stands in a path, with what follows it.
fn name_before(
    alloc: Global,
    layout: &Layout,
    place: usize,
    rest: &[u8],
) -> Result<Vec<u8>, OutOfMemory>
    requires { place < length layout.now.items.now }
    ensures { IfOk result (λ path. path.items
        ≡ path_name (value_of layout.now.items.now place (codes "Name")) ++ rest.now) }
{
    let mut path = Vec::new(alloc);
    if let Some(name) = layout.value(place, b"Name") {
        put_escaped(&mut path, name)?;
    }
    path.extend_from_slice(rest)?;
    Ok(path)
}

/// The names from the root to the block at a place, joined by `/`.
pub fn path_of(
    alloc: Global,
    layout: &Layout,
    roles: &[Role],
    place: usize,
) -> Result<Text, OutOfMemory>
    requires within { place < length layout.now.items.now }
    requires known { roles.now ≡ roles_of layout.now.items.now }
    requires counts { is_block (role_of layout.now.items.now place) ≡ true }
    ensures { IfOk result (λ path. path ≡ path_of layout.now.items.now place) }
{
    let mut path = name_before(alloc, layout, place, b"")?;
    let mut inner = place;
    while let Some(outer) = parent(layout, roles, inner) {
        path.insert(0, b'/')?;
        path = name_before(alloc, layout, outer, &path)?;
        inner = outer;
    }
    Text::from_vec(alloc, path)
}
