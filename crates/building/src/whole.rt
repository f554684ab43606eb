// Building in memory of its own.
ghost use Rattle.building.specs.Built.{built};
ghost use Rattle.building.specs.Whole.{most, Gives};

use crate::fault::BuildFault;
use crate::text::build;
use std::alloc::Global;

// The most bytes of an sstable that `build_vec` and the programs build.
pub const OUTPUT_LEN: usize = 1_048_576;

// The sstable of the entries that the lines of a text have, in memory of its own.
pub fn build_vec(heap: Global, text: &[u8]) -> Result<Vec<u8>, BuildFault>
    ensures { Gives (built most text.now) result }
{
    let mut output = vec![in heap; 0; OUTPUT_LEN]?;
    match build(heap, text, &mut output) {
        Ok(len) => {
            output.truncate(len);
            Ok(output)
        }
        Err(fault) => Err(fault),
    }
}
