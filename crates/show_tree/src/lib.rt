// The tree of a capabilities string, one word a line.
#![tactic(auto)]

ghost use Rattle.std.specs.Prelude.{◌≡◌, eqb};
ghost use Rattle.message_rules.specs.Answer.{done};
ghost use Rattle.capabilities_rules.specs.Limits.{most_nodes};
ghost use Rattle.capabilities_rules.specs.Outcome.{told, outcome};

use buffers::{behind, front, part};
use capabilities_rules::limits::{DEEPEST, MOST_NODES};
use message_rules::refusal::RefusedAt;
use show::text;

// Returns how many groups a node stands in.
fn levels(parents: &[u16], node: usize) -> usize {
    let mut at = node;
    for count in 0..DEEPEST {
        match parents.get(at) {
            Some(parent) => at = usize::from(*parent),
            None => return count,
        }
    }
    DEEPEST
}

// Where lines are written to, and the margin that each begins with.
#[derive(Clone, Copy)]
struct Lines<'a> {
    to: i32,
    margin: &'a [u8],
}

impl Lines<'_> {
    // Writes a word behind the spaces of its level, two for each but the first.
    fn word(self, s: &[u8], level: usize) {
        let spaces = front(b"                  ", level % 10 * 2);
        text(self.to, self.margin);
        text(self.to, behind(spaces, 2));
        text(self.to, s);
        text(self.to, b"\n");
    }

    // Writes `refused N at P`.
    fn refusal(self, refused: RefusedAt) {
        let number = u64::from(u8::from(refused.refusal));
        text(self.to, self.margin);
        show::counted(self.to, b"refused ", number, b" at ");
        show::number(self.to, refused.position.0 as u64, 0);
        text(self.to, b"\n");
    }
}

// Writes the tree of a capabilities string, each line behind the margin.
// There is one word a line, indented by two spaces a level.
// A string that is refused gives one line, `refused N at P`.
// Returns whether it was accepted: whether its answer number is 0.
pub fn write(to: i32, margin: &[u8], string: &[u8]) -> bool
    ensures { result ≡ eqb (told (outcome most_nodes string.now)).number done }
{
    let lines = Lines { to, margin };
    // Four rows: C calls the reader so.
    let mut starts = [0u16; MOST_NODES];
    let mut lengths = [0u16; MOST_NODES];
    let mut parents = [0u16; MOST_NODES];
    let mut groups = [0u8; MOST_NODES];
    let read = capabilities_reader::read(
        string,
        &mut starts,
        &mut lengths,
        &mut parents,
        &mut groups,
    );
    let count = match read {
        Ok(count) => count,
        Err(refused) => {
            lines.refusal(refused);
            return false;
        }
    };
    for (node, (start, length)) in starts.iter().zip(&lengths).take(count).enumerate() {
        let s = part(string, usize::from(*start), usize::from(*length));
        lines.word(s, levels(&parents, node));
    }
    true
}
