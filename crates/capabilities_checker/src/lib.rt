// Judges a capabilities string as the papers' grammar says, and changes nothing.
#![tactic(auto)]

ghost use Rattle.std.specs.Prelude.{◌≡◌, ◌≤◌, ◌<◌, length};
ghost use Rattle.capabilities_rules.specs.Limits.{deepest};
ghost use Rattle.capabilities_rules.specs.Outcome.{outcome, reading_of};
ghost use Rattle.capabilities_scan.specs.Scan.{around};
ghost use Rattle.capabilities_checker.specs.Checker.{Checked};

use capabilities_rules::limits::DEEPEST;
use capabilities_scan::{
    CLOSE, OPEN, Past, is_letter, opens_at, skip_spaces, skip_zeros, word_end,
};
use message_rules::Position;
use message_rules::limits::LONGEST_TEXT;
use message_rules::refusal::{Refusal, RefusedAt};

// Returns a refusal, and where it comes.
fn refused<T>(refusal: Refusal, position: Position) -> Result<T, RefusedAt>
    ensures { result ≡ Err (record { refusal = refusal; position = position }) }
{
    Err(RefusedAt { refusal, position })
}

// Returns where the group ends whose list begins at `start`, or why it is refused.
// `left` levels are left inside it, `count` nodes are made by then, and there is room for `room`.
fn check_group(
    text: &[u8],
    start: Position,
    left: usize,
    count: usize,
    room: usize,
) -> Result<Past, RefusedAt>
    requires { (start.0 ≤ length text.now) × (left < deepest) × (count ≤ room) }
    ensures { Checked room start.0 count (around left) text.now result }
{
    let mut at = skip_spaces(text, start);
    let mut n = count;
    while let Some(&b) = text.get(at.0) {
        let past = Position(at.0 + 1);
        if b == CLOSE {
            return Ok(Past {
                next: past,
                nodes: n,
            });
        }
        if !is_letter(b) {
            return refused(Refusal::WrongGrammar, at);
        }
        if room <= n {
            return refused(Refusal::NoNodeRoom, at);
        }
        let next = skip_spaces(text, word_end(text, past));
        if opens_at(text, next) {
            if left == 0 {
                return refused(Refusal::TooDeep, next);
            }
            let inner = check_group(text, Position(next.0 + 1), left - 1, n + 1, room)?;
            at = skip_spaces(text, inner.next);
            n = inner.nodes;
        } else {
            at = next;
            n += 1;
        }
    }
    refused(Refusal::WrongGrammar, at)
}

// Returns the number of nodes of a string, with room for `room`, or why it is refused.
pub fn check(text: &[u8], room: usize) -> Result<usize, RefusedAt>
    ensures { reading_of result ≡ outcome room text.now }
{
    if LONGEST_TEXT < text.len() {
        return refused(Refusal::TextTooLong, Position(0));
    }
    let opens = opens_at(text, Position(0));
    if !opens {
        return refused(Refusal::WrongGrammar, Position(0));
    }
    let outer = check_group(text, Position(1), DEEPEST - 1, 0, room)?;
    let end = skip_zeros(text, outer.next);
    if end.0 < text.len() {
        return refused(Refusal::WrongGrammar, end);
    }
    Ok(outer.nodes)
}
