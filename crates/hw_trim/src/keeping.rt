//! The numbers of nets that are marked, and what their numbers become.
ghost use Rattle.std.specs.Prelude.{◌≡◌, [], OnOk, length};
ghost use Rattle.hw_trim.specs.inner.MarkPlaces.{kept_of, ArePlaces};

use fx_io::OutOfMemory;

/// Puts the numbers that are marked, in order, and for each number how many of those are below it.
pub fn keep(kept: &mut Vec<u32>, places: &mut Vec<u32>, marks: &[bool]) -> Result<(), OutOfMemory>
    requires none { kept.old.items ≡ [] }
    requires no_place { places.old.items ≡ [] }
    ensures kept { OnOk result (kept.new.items ≡ kept_of marks.now (length marks.now)) }
    ensures places { OnOk result (ArePlaces marks.now places.new.items (length marks.now)) }
{
    for k in 0..marks.len() {
        let (Ok(number), Ok(place)) = (u32::try_from(k), u32::try_from(kept.len())) else {
            // word: the number of a net, of 32 bits
            return Err(OutOfMemory);
        };
        places.push(place)?;
        if marks[k] {
            kept.push(number)?;
        }
    }
    Ok(())
}
