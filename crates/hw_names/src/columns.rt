ghost use Rattle.std.specs.Prelude.{◌≡◌, ◌<◌, All, IfOk, length};
ghost use Rattle.hw_names.specs.Columns.{AreColumnsFrom};

use fx_io::OutOfMemory;
use std::alloc::Global;

/// By block, the first place at which it stands in this list, and 0 where it stands at none.
pub fn columns_of(alloc: Global, count: usize, inputs: &[u32]) -> Result<Vec<u32>, OutOfMemory>
    requires { All (λ block. block < count) inputs.now }
    ensures size { IfOk result (λ columns. length columns.items ≡ count) }
    ensures least { IfOk result (λ columns. AreColumnsFrom inputs.now columns.items 0) }
{
    let mut columns: Vec<u32> = vec![in alloc; 0; count]?;
    let mut left = inputs.len();
    while left > 0 {
        left -= 1;
        let Ok(number) = u32::try_from(left) else {
            // word: a place in the list, of 32 bits
            return Err(OutOfMemory);
        };
        columns[inputs[left] as usize] = number;
    }
    Ok(columns)
}
