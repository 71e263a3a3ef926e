// The fragments of the two texts: which one a read finds, and its bytes.
ghost use Rattle.std.specs.Prelude.{◌≡◌, length};
ghost use Rattle.buffers.specs.Buffers.{part_of};
ghost use Rattle.display_rules.specs.Fragments.{next_offset, next_cursor, lent_text, fragment_at, found_bytes};

use display_rules::{Fragment, FragmentCursor, TextState};
use message_rules::{TextKind, TextOffset};

// The two texts of a display, as they are lent to a step.
#[derive(Clone, Copy)]
pub struct Texts<'a> {
    // The capabilities string.
    pub capabilities: &'a [u8],
    // The table's buffer, at whose start the table stands.
    pub table: &'a [u8],
}

// Returns the offset that a read at the offset q goes to.
#[tactic(auto, unfolding(display_rules::specs::Fragments::next_offset))]
fn next_offset(c: FragmentCursor, q: TextOffset) -> TextOffset
    ensures { result.0 ≡ next_offset c q.0 }
{
    let at = c.offset;
    if q == at || u32::from(q.0) == u32::from(at.0) + u32::from(c.len) {
        return q;
    }
    TextOffset(0)
}

// Returns the fragment that a read at the offset q finds.
#[tactic(auto, unfolding(display_rules::specs::Fragments::next_cursor))]
pub fn next_cursor(size: u16, t: TextState, q: TextOffset) -> FragmentCursor
    ensures { result ≡ next_cursor size t q.0 }
{
    let at = next_offset(t.cursor, q);
    let left = t.len.saturating_sub(at.0);
    FragmentCursor {
        offset: at,
        len: size.min(left),
    }
}

// Returns whichever of the two lent texts is of the kind.
fn lent(texts: Texts<'_>, kind: TextKind) -> &[u8]
    ensures { result.now ≡ lent_text kind texts.entry.capabilities.now texts.entry.table.now }
{
    match kind {
        TextKind::Capabilities => texts.capabilities,
        TextKind::Table => texts.table,
    }
}

// Returns the bytes of a text at a cursor, or those of them that there are.
fn bytes_at(s: &[u8], c: FragmentCursor) -> &[u8]
    ensures { result.now ≡ fragment_at s.now c }
{
    buffers::part(s, usize::from(c.offset.0), usize::from(c.len))
}

// Returns the fragment that a step found, as a part of whichever of the two lent texts was asked for.
pub fn handed_back(texts: Texts<'_>, found: Option<Fragment>) -> &[u8]
    ensures { result.now ≡ found_bytes texts.entry.capabilities.now texts.entry.table.now found }
{
    match found {
        Some(f) => bytes_at(lent(texts, f.kind), f.cursor),
        None => &texts.capabilities[..0],
    }
}
