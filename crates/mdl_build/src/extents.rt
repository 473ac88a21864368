//! How many blocks each block of a tree stands for.
ghost use Rattle.std.specs.Prelude.{◌≡◌, ◌<◌, ◌≤◌, nat_le, length, All, IfOk};
ghost use Rattle.dg_model.specs.Limits.{most_blocks};
ghost use Rattle.mdl_build.specs.Extents.{IsExtentAt, AreExtents, starts as starts_of, total};
ghost use Rattle.mdl_build.specs.Library.{taps};
ghost use Rattle.mdl_build.specs.declared.library.BlockType.{BlockType};
ghost use Rattle.mdl_build.specs.Lookup.{fallback};
ghost use Rattle.mdl_build.specs.Roles.{role_of, roles_of};

use crate::blocks::text_of;
use crate::layout::Layout;
use crate::library::{BlockType, COEFFICIENTS};
use crate::list_readers::tap_count;
use crate::lookup::default_of;
use crate::names::is_block;
use crate::roles::Role;
use fir_block::extent;
use fx_io::OutOfMemory;
use std::alloc::Global;

/// The most blocks of a model.
const MOST: u32 = 20000;

/// How many blocks the block at a place stands for, where a filter's coefficients have the other
/// text if its section has none.
fn extent_at<'a>(
    alloc: Global,
    layout: &Layout<'a>,
    place: usize,
    role: Role,
    other: &'a [u8],
) -> Result<u32, OutOfMemory>
    requires within { place < length layout.now.items.now }
    requires role { role_of layout.now.items.now place ≡ role }
    requires other { other.now ≡ fallback layout.now.items.now BlockType.DiscreteFir taps }
    ensures { IfOk result (IsExtentAt layout.now.items.now place) }
{
    let Role::Filter(_) = role else {
        return Ok(1);
    };
    let text = text_of(layout, place, COEFFICIENTS.name(), other);
    match tap_count(alloc, text)? {
        None => Ok(1),
        Some(count) => Ok(extent(count)),
    }
}

/// How many blocks each block stands for.
pub fn extents_of(alloc: Global, layout: &Layout, roles: &[Role]) -> Result<Vec<u32>, OutOfMemory>
    requires { roles.now ≡ roles_of layout.now.items.now }
    ensures { IfOk result (λ extents. AreExtents layout.now.items.now extents.items) }
{
    let other = default_of(layout, roles, BlockType::DiscreteFir, &COEFFICIENTS);
    let mut extents = Vec::new(alloc);
    for (place, role) in roles.iter().enumerate() {
        if is_block(*role) {
            extents.push(extent_at(alloc, layout, place, *role, other)?)?;
        }
    }
    Ok(extents)
}

/// Whether these are together no more blocks than a model may have.
pub fn are_few(extents: &[u32]) -> bool
    requires { All (λ extent. extent ≤ 67) extents.now }
    ensures { result ≡ nat_le (total extents.now) most_blocks }
{
    let mut all = 0;
    for extent in extents {
        all += *extent;
        if all > MOST {
            return false;
        }
    }
    true
}

/// The number of each block, where those that it stands for follow it.
pub fn starts(alloc: Global, extents: &[u32]) -> Result<Vec<u32>, OutOfMemory>
    requires { total extents.now ≤ most_blocks }
    ensures { IfOk result (λ numbers. numbers.items ≡ starts_of 0 extents.now) }
{
    let mut numbers = Vec::new(alloc);
    let mut all = 0;
    for extent in extents {
        numbers.push(all)?;
        all += *extent;
    }
    Ok(numbers)
}
