//! Where the value of a parameter is found: in the block's section, in the defaults of its type, or
//! in the table.
ghost use Rattle.std.specs.Prelude.{◌≡◌, ◌<◌, ◌&&◌, Some, length, map, position, unwrap_or, codes, IfOk};
ghost use Rattle.std.specs.Option.{ForSome, option_copied};
ghost use Rattle.mdl_build.specs.Library.{row_of, block_types, type_name};
ghost use Rattle.mdl_build.specs.Lookup.{is_defaults, first_defaults, is_in, defaults_of, value_under, value_in, fallback};
ghost use Rattle.mdl_build.specs.Roles.{roles_of, says};
ghost use Rattle.mdl_build.specs.inner.Texts.{contents_of, fallbacks_in, fallbacks_of};

use crate::layout::Layout;
use crate::library::{BlockType, Parameter, parameters};
use crate::roles::Role;
use crate::type_names::{BLOCK_TYPES, type_name};
use fx_io::OutOfMemory;
use std::alloc::Global;

/// Whether an item is a section of defaults.
fn is_defaults(role: Role) -> bool
    ensures { result ≡ is_defaults role }
{
    matches!(role, Role::Defaults)
}

/// The first section of defaults.
fn first_defaults(roles: &[Role]) -> Option<usize>
    ensures { result ≡ position is_defaults roles.now }
{
    roles.iter().position(|role| is_defaults(*role))
}

/// Whether an item has the defaults of a type in this section of all of them.
fn is_in(section: usize, role: Role) -> bool
    ensures { result ≡ is_in (Some section) role }
{
    matches!(role, Role::TypeDefaults(holder) if holder == section)
}

/// Whether the item at a place has the defaults of this type, in the section of all of them.
fn has_defaults(
    layout: &Layout,
    section: usize,
    block_type: BlockType,
    place: usize,
    role: Role,
) -> bool
    requires { place < length layout.now.items.now }
    ensures { result ≡ (is_in (Some section) role
        && says layout.now.items.now place (codes "BlockType") (type_name block_type)) }
{
    is_in(section, role) && layout.says(place, b"BlockType", type_name(block_type).as_bytes())
}

/// The section that has the defaults of a type; of two for one type the first counts.
fn defaults_of(
    layout: &Layout,
    roles: &[Role],
    section: usize,
    block_type: BlockType,
) -> Option<usize>
    requires roles { roles.now ≡ roles_of layout.now.items.now }
    requires section { first_defaults layout.now.items.now ≡ Some section }
    ensures { result ≡ defaults_of layout.now.items.now block_type }
{
    for (place, role) in roles.iter().enumerate() {
        if has_defaults(layout, section, block_type, place, *role) {
            return Some(place);
        }
    }
    None
}

/// The value of a parameter in a section. `X0` is looked for after `InitialCondition`.
pub fn value_under<'a>(layout: &Layout<'a>, place: usize, name: &str) -> Option<&'a [u8]>
    requires { place < length layout.now.items.now }
    ensures { option_copied result ≡ value_under layout.now.items.now place name.now }
{
    match layout.value(place, name.as_bytes()) {
        Some(value) => Some(value),
        None if name == "InitialCondition" => layout.value(place, b"X0"),
        None => None,
    }
}

/// The value of a parameter where the block's section has none.
fn fallback<'a>(layout: &Layout<'a>, section: Option<usize>, parameter: &Parameter) -> &'a [u8]
    requires { ForSome section (λ place. place < length layout.now.items.now) }
    ensures { result.now ≡ unwrap_or (value_in layout.now.items.now section
        (row_of parameter.now).name)
        (row_of parameter.now).default }
{
    match section {
        None => parameter.default().as_bytes(),
        Some(place) => match value_under(layout, place, parameter.name()) {
            None => parameter.default().as_bytes(),
            Some(value) => value,
        },
    }
}

/// The values of a type's parameters where the block's section has none.
fn fallbacks<'a>(
    alloc: Global,
    layout: &Layout<'a>,
    section: Option<usize>,
    parameters: &[Parameter],
) -> Result<Vec<&'a [u8]>, OutOfMemory>
    requires { ForSome section (λ place. place < length layout.now.items.now) }
    ensures { IfOk result (λ texts. contents_of texts.items
        ≡ fallbacks_in layout.now.items.now section (map row_of parameters.now)) }
{
    let mut texts = Vec::new(alloc);
    for parameter in parameters {
        texts.push(fallback(layout, section, parameter))?;
    }
    Ok(texts)
}

/// Of each block type, by its number, the values of its parameters where a block's section has none.
pub type Defaults<'a> = Vec<Vec<&'a [u8]>>;

/// The section that has the defaults of a type, where there is a section of all of them.
fn section_of(
    layout: &Layout,
    roles: &[Role],
    all: Option<usize>,
    block_type: BlockType,
) -> Option<usize>
    requires roles { roles.now ≡ roles_of layout.now.items.now }
    requires all { all ≡ first_defaults layout.now.items.now }
    ensures value { result ≡ defaults_of layout.now.items.now block_type }
    ensures within { ForSome result (λ place. place < length layout.now.items.now) }
{
    match all {
        None => None,
        Some(section) => defaults_of(layout, roles, section, block_type),
    }
}

/// The values that a model and the table give for these types.
fn texts_of_all<'a>(
    alloc: Global,
    layout: &Layout<'a>,
    roles: &[Role],
    block_types: &[BlockType],
) -> Result<Defaults<'a>, OutOfMemory>
    requires { roles.now ≡ roles_of layout.now.items.now }
    ensures { IfOk result (λ defaults. map (λ texts. contents_of texts.items) defaults.items
        ≡ map (fallbacks_of layout.now.items.now) block_types.now) }
{
    let all = first_defaults(roles);
    let mut defaults = Vec::new(alloc);
    for block_type in block_types {
        let section = section_of(layout, roles, all, *block_type);
        let texts = fallbacks(alloc, layout, section, parameters(*block_type))?;
        defaults.push(texts)?;
    }
    Ok(defaults)
}

/// The values that a model and the table give.
pub fn defaults<'a>(
    alloc: Global,
    layout: &Layout<'a>,
    roles: &[Role],
) -> Result<Defaults<'a>, OutOfMemory>
    requires { roles.now ≡ roles_of layout.now.items.now }
    ensures { IfOk result (λ defaults. map (λ texts. contents_of texts.items) defaults.items
        ≡ map (fallbacks_of layout.now.items.now) block_types) }
{
    texts_of_all(alloc, layout, roles, &BLOCK_TYPES)
}

/// The value of a parameter of a type where a block's section has none.
pub fn default_of<'a>(
    layout: &Layout<'a>,
    roles: &[Role],
    block_type: BlockType,
    parameter: &Parameter,
) -> &'a [u8]
    requires { roles.now ≡ roles_of layout.now.items.now }
    ensures { result.now ≡ fallback layout.now.items.now block_type (row_of parameter.now) }
{
    let section = section_of(layout, roles, first_defaults(roles), block_type);
    fallback(layout, section, parameter)
}
