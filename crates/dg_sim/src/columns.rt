//! The column of a row that has the number of a root input element.
ghost use Rattle.std.specs.Prelude.{◌≡◌, ℕ, Some, slice_get};
ghost use Rattle.dg_sim.specs.inner.Columns.{AreSorted, is_root_before};

use dg_tables::Root;

/// Whether a root element stands before another one.
fn is_before(root: Root, other: Root) -> bool
    ensures { result ≡ is_root_before root other }
{
    root.number < other.number || root.number == other.number && root.element < other.element
}

/// The place of a root element in a list in order that has it.
pub fn find_root(roots: &[Root], root: Root) -> usize
    requires sorted { AreSorted roots.now }
    requires there { (place : ℕ) × (slice_get roots.now place ≡ Some root) }
    ensures { slice_get roots.now result ≡ Some root }
{
    let mut low: usize = 0;
    let mut high = roots.len();
    while low < high {
        let middle = low + (high - low) / 2;
        if is_before(roots[middle], root) {
            low = middle + 1;
        } else {
            high = middle;
        }
    }
    low
}
