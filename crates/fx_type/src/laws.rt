//! Laws of full types and stored decimals, which callers may use. The functions do nothing.
ghost use Rattle.fx_type.specs.Laws.{FullSumIsOne, FullProductIsOne, UnionIsOne, NearestIsOne, StoredIsOne};

/// The terms' full type is the one that the function gives, and there is none where it gives none.
pub fn full_sum_is_one()
    ensures { FullSumIsOne }
{}

/// The same of a product.
pub fn full_product_is_one()
    ensures { FullProductIsOne }
{}

/// The same of a union.
pub fn union_is_one()
    ensures { UnionIsOne }
{}

/// A quotient is rounded to the nearest as the function says.
pub fn nearest_is_one()
    ensures { NearestIsOne }
{}

/// A decimal's stored integer is the one that the function gives.
pub fn stored_is_one()
    ensures { StoredIsOne }
{}
