ghost use Rattle.std.specs.Prelude.{◌≡◌};
ghost use Rattle.dg_model.specs.Widths.{are_open as are_open_of, list_length as list_length_of};

use dg_model::Kind;

/// Whether no size is fixed.
pub fn are_open(sizes: &[u32]) -> bool
    ensures { result ≡ are_open_of sizes.now }
{
    sizes.iter().all(|size| *size == 0)
}

/// The length of a block's list, 0 where it has none.
pub fn list_length(kind: &Kind) -> usize
    ensures { result ≡ list_length_of kind.now }
{
    match kind.list() {
        Some(list) => list.len(),
        None => 0,
    }
}
