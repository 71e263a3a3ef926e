// Scans a capabilities string: what a byte is, and where a run of letters, of spaces or of zero bytes ends.
// No function asks anything of a position: past the end no byte stands, and a run there is empty.
// Slice and position are given one by one: a caller keeps the slice while the position moves.
#![tactic(auto)]

ghost use Rattle.std.specs.Prelude.{◌≡◌, ◌+◌, ℕ, Bool, eqb, drop, get_or};
ghost use Rattle.std.specs.List.{prefix_len};
ghost use Rattle.capabilities_rules.specs.Machine.{kind_of, is_letter};
ghost use Rattle.capabilities_rules.specs.Nodes.{letters};
ghost use Rattle.capabilities_scan.specs.Scan.{leading, spaces, zeros};

use message_rules::Position;

// Where a group ends, and how many nodes are made by then.
#[derive(Clone, Copy)]
pub struct Past {
    // The position past its ")".
    pub next: Position,
    // The nodes of the words up to there.
    pub nodes: usize,
}

const ZERO: u8 = 0x00;

const SPACE: u8 = 0x20;

const FIRST_LETTER: u8 = 0x21;

pub const OPEN: u8 = 0x28;

pub const CLOSE: u8 = 0x29;

const LAST_LETTER: u8 = 0x7e;

// Returns whether a byte is a letter: 21 to 7E, other than the two brackets.
pub fn is_letter(b: u8) -> bool
    ensures { result ≡ is_letter (kind_of b) }
{
    match b {
        FIRST_LETTER..=LAST_LETTER => b != OPEN && b != CLOSE,
        _ => false,
    }
}

// Returns the position past the run of bytes that pass a test and stand from `start` on.
fn run_end<F: Fn(u8) -> bool>(text: &[u8], start: Position, passes: F) -> Position
    ghost test: { ℕ → Bool }
    requires callable { F.IsAlwaysCallable passes }
    requires tests { (b : ℕ) (r : Bool) → F.post passes b r → r ≡ test b }
    ensures { result.0 ≡ start.0 + prefix_len test (drop start.0 text.now) }
{
    // A loop by position: `take_while` and `count` behind `start` took 1.1 to 1.5 times as long.
    let mut end = start.0;
    while let Some(&b) = text.get(end) {
        if !passes(b) {
            return Position(end);
        }
        end += 1;
    }
    Position(end)
}

// Returns the position past the letters that stand from `start` on.
pub fn word_end(text: &[u8], start: Position) -> Position
    ensures { result.0 ≡ start.0 + letters (drop start.0 text.now) }
{
    run_end(text, start, |b| is_letter(b))
}

// Returns the position past the spaces that stand from `start` on.
pub fn skip_spaces(text: &[u8], start: Position) -> Position
    ensures { result.0 ≡ start.0 + spaces (drop start.0 text.now) }
{
    run_end(text, start, |b| b == SPACE)
}

// Returns the position past the zero bytes that stand from `start` on.
pub fn skip_zeros(text: &[u8], start: Position) -> Position
    ensures { result.0 ≡ start.0 + zeros (drop start.0 text.now) }
{
    run_end(text, start, |b| b == ZERO)
}

// Returns whether a "(" stands at a position.
pub fn opens_at(text: &[u8], at: Position) -> bool
    ensures { result ≡ eqb (get_or text.now at.0 0) 0x28 }
{
    text.get(at.0) == Some(&OPEN)
}
