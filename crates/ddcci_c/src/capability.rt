// The capabilities reader for C.
ghost use Rattle.capabilities_rules.specs.Buffers.{buffers};
ghost use Rattle.ddcci.specs.Capabilities.{ReadsNumbers};

use ddcci::capability::ReadingNumbers;

// Reads a capabilities string into four buffers, one entry a node in each.
// Returns the answer, and the number of nodes or the position that is refused.
// A string that is refused leaves the buffers as they were.
#[unsafe(no_mangle)]
pub extern "C" fn ddcci_read_capabilities(
    text: &[u8],
    starts: &mut [u16],
    lengths: &mut [u16],
    parents: &mut [u16],
    groups: &mut [u8],
) -> ReadingNumbers
    ensures { ReadsNumbers text.now (buffers starts.old lengths.old parents.old groups.old) (buffers starts.new lengths.new parents.new groups.new) result }
{
    ddcci::capability::ddcci_read_capabilities(text, starts, lengths, parents, groups)
}
