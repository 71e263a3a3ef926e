// Stores the nodes of a capabilities string that is accepted in four lent buffers.
ghost use Rattle.std.specs.Prelude.{◌≡◌, true, cond, ◌-◌, ◌≤◌, ◌<◌};
ghost use Rattle.message_rules.specs.Limits.{longest_text};
ghost use Rattle.capabilities_rules.specs.Outcome.{outcome, is_accepted};
ghost use Rattle.capabilities_rules.specs.Nodes.{nodes_of};
ghost use Rattle.capabilities_rules.specs.Buffers.{buffer_room, written};
ghost use Rattle.capabilities_reader.specs.Filler.{node, put, Fillable, Filled};
ghost use Rattle.capabilities_reader.specs.Lent.{held, SameLent};

use capabilities_rules::limits::{DEEPEST, MOST_NODES, NO_PARENT};
use capabilities_scan::{CLOSE, Past, opens_at, skip_spaces, word_end};
use message_rules::Position;

// The four lent buffers, with an entry in each for each node.
#[derive(Drop)]
pub(crate) struct NodeBuffers<'a> {
    // Where the node's word starts in the string.
    pub(crate) starts: &'a mut [u16],
    // How long it is.
    pub(crate) lengths: &'a mut [u16],
    // The node of the word whose group it stands in, or 65,535 at the top.
    pub(crate) parents: &'a mut [u16],
    // 1 where a group follows it, else 0.
    pub(crate) groups: &'a mut [u8],
}

// A word of the string: where it stands, whose group it stands in, and whether it has one.
#[derive(Clone, Copy)]
struct Word {
    start: Position,
    end: Position,
    parent: u16,
    opens: bool,
}

impl NodeBuffers<'_> {
    // Returns the room for nodes: the shortest buffer's length, at most 512.
    pub(crate) fn room(&self) -> usize
        ensures { result ≡ buffer_room (held self.now) }
    {
        let words = self.starts.len().min(self.lengths.len());
        MOST_NODES.min(words.min(self.parents.len().min(self.groups.len())))
    }

    // Stores the node of a word as entry n.
    fn put(&mut self, n: usize, word: Word)
        requires { (word.start.0 ≤ word.end.0) × (word.end.0 ≤ longest_text) × (n < buffer_room (held self.old)) }
        ensures same { SameLent self.old self.new }
        ensures stored { held self.new ≡ put (held self.old) n (node word.start.0 (word.end.0 - word.start.0) word.parent (cond word.opens 1 0)) }
    {
        self.starts[n] = word.start.0 as u16;
        self.lengths[n] = (word.end.0 - word.start.0) as u16;
        self.parents[n] = word.parent;
        self.groups[n] = u8::from(word.opens);
    }
}

// Stores the nodes of an accepted string's group whose list begins at `start`.
// Returns where the group ends, and the nodes made by then.
fn fill_group(
    text: &[u8],
    start: Position,
    left: usize,
    parent: u16,
    count: usize,
    nodes: &mut NodeBuffers,
) -> Past
    requires { Fillable start.0 left count text.now (held nodes.old) }
    ensures same { SameLent nodes.old nodes.new }
    ensures filled { Filled start.0 left count parent text.now (held nodes.old) (held nodes.new) result.next.0 result.nodes }
{
    let mut at = skip_spaces(text, start);
    let mut n = count;
    while let Some(&b) = text.get(at.0) {
        let past = Position(at.0 + 1);
        if b == CLOSE {
            return Past {
                next: past,
                nodes: n,
            };
        }
        let end = word_end(text, past);
        let next = skip_spaces(text, end);
        let opens = opens_at(text, next);
        nodes.put(
            n,
            Word {
                start: at,
                end,
                parent,
                opens,
            },
        );
        if opens {
            let list = Position(next.0 + 1);
            let inner = fill_group(text, list, left - 1, n as u16, n + 1, nodes);
            at = skip_spaces(text, inner.next);
            n = inner.nodes;
        } else {
            at = next;
            n += 1;
        }
    }
    // Not reached in an accepted string.
    Past { next: at, nodes: n }
}

// Stores the nodes of an accepted string.
// It is called behind the checker alone, and judges nothing a second time.
pub(crate) fn fill(text: &[u8], nodes: &mut NodeBuffers)
    requires { is_accepted (outcome (buffer_room (held nodes.old)) text.now) ≡ true }
    ensures same { SameLent nodes.old nodes.new }
    ensures filled { held nodes.new ≡ written 0 (nodes_of text.now) (held nodes.old) }
{
    fill_group(text, Position(1), DEEPEST - 1, NO_PARENT, 0, nodes);
}
