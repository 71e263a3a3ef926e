// Reads a capabilities string: accepted or refused as the papers' grammar says.
// Its tree is given as nodes in four lent buffers.
// A checker judges the whole string before the filler stores the first node, so that a refusal changes no buffer.
#![tactic(auto)]

mod filler;

ghost use Rattle.std.specs.Prelude.{◌≡◌};
ghost use Rattle.capabilities_rules.specs.Buffers.{buffers, Answered};
ghost use Rattle.capabilities_rules.specs.Outcome.{reading_of};

use capabilities_checker::check;
use filler::NodeBuffers;
use message_rules::refusal::RefusedAt;

// Reads a capabilities string, and stores its nodes in the lent buffers where it is accepted.
// Returns the number of nodes, or the refusal and its position.
// A string that is refused leaves the buffers as they were.
// Four slices, not a struct of them: each caller has them one by one, as C hands them over.
pub fn read(
    text: &[u8],
    starts: &mut [u16],
    lengths: &mut [u16],
    parents: &mut [u16],
    groups: &mut [u8],
) -> Result<usize, RefusedAt>
    ensures { Answered text.now (buffers starts.old lengths.old parents.old groups.old) (buffers starts.new lengths.new parents.new groups.new) (reading_of result) }
{
    let mut nodes = NodeBuffers {
        starts,
        lengths,
        parents,
        groups,
    };
    let count = check(text, nodes.room())?;
    filler::fill(text, &mut nodes);
    Ok(count)
}
