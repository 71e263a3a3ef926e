// The capabilities reader for Rust and C.
ghost use Rattle.std.specs.Prelude.{◌≡◌};
ghost use Rattle.capabilities_rules.specs.Buffers.{buffers};
ghost use Rattle.capabilities_rules.specs.Outcome.{reading_of};
ghost use Rattle.ddcci.specs.Capabilities.{reading_numbers, ReadsNumbers};

use message_rules::answer;
use message_rules::refusal::RefusedAt;

// What reading a capabilities string returns.
// Numbers, not a Result: C takes this struct as it is.
#[repr(C)]
#[derive(Clone, Copy)]
pub struct ReadingNumbers {
    // The answer number.
    pub answer: u8,
    // The number of nodes, or 0.
    pub nodes: usize,
    // The position that is refused, or 0.
    pub position: usize,
}

impl From<Result<usize, RefusedAt>> for ReadingNumbers {
    ghost from_gives = { λ r n. n ≡ reading_numbers (reading_of r) };

    // Returns a reading as numbers.
    fn from(reading: Result<usize, RefusedAt>) -> ReadingNumbers {
        match reading {
            Ok(nodes) => ReadingNumbers {
                answer: answer::DONE,
                nodes,
                position: 0,
            },
            Err(at) => ReadingNumbers {
                answer: u8::from(at.refusal),
                nodes: 0,
                position: at.position.0,
            },
        }
    }
}

// Reads a capabilities string into four buffers, one entry a node in each.
// Returns the answer, and the number of nodes or the position that is refused.
// A string that is refused leaves the buffers as they were.
// Four slices, not a struct of them: C calls this function as it is.
pub fn ddcci_read_capabilities(
    text: &[u8],
    starts: &mut [u16],
    lengths: &mut [u16],
    parents: &mut [u16],
    groups: &mut [u8],
) -> ReadingNumbers
    ensures { ReadsNumbers text.now (buffers starts.old lengths.old parents.old groups.old) (buffers starts.new lengths.new parents.new groups.new) result }
{
    ReadingNumbers::from(capabilities_reader::read(text, starts, lengths, parents, groups))
}
