// The types of a display (the papers' board), and of what its start, declaring and a step return.
// What they mean stands in specs/, and the theorems in proofs/.
#![tactic(auto)]

pub mod limits;

use message_rules::{TextKind, TextOffset};
use settings_rules::Settings;

// The fragment of a text that was sent last (the papers' place of a text).
#[repr(C)]
#[derive(Clone, Copy)]
pub struct FragmentCursor {
    // Where it starts in the text.
    pub offset: TextOffset,
    // Its length.
    pub len: u16,
}

// What a display keeps of one of its texts. The bytes are lent to each step.
#[repr(C)]
#[derive(Clone, Copy)]
pub struct TextState {
    // The text's length.
    pub len: u16,
    // The fragment of it that was sent last.
    pub cursor: FragmentCursor,
}

// A display.
// The settings, by far the largest part, stand first, where they are cheaper to copy.
#[repr(C)]
#[derive(Clone, Copy)]
pub struct Display {
    // What is kept for each code, and the timing.
    pub settings: Settings,
    // The capabilities string.
    pub capabilities: TextState,
    // The table.
    pub table: TextState,
    // The fragment size: the most data bytes of a fragment that it sends.
    pub size: u16,
}

// What a start, declaring and many settings in one call return.
#[repr(C)]
#[derive(Clone, Copy)]
pub struct Changed {
    // The display afterwards.
    pub display: Display,
    // The answer number.
    pub answer: u8,
}

// The fragment that a step found.
#[derive(Clone, Copy)]
pub struct Fragment {
    // The text that it is a part of.
    pub kind: TextKind,
    // Where it stands in that text.
    pub cursor: FragmentCursor,
}

// The number of the text that a fragment was sent of: the capabilities string.
// A number, not the kind: Stepped holds it as C reads it, and 0 for no fragment.
pub const CAPABILITIES_SENT: u8 = 1;

// The number of the text that a fragment was sent of: the table.
pub const TABLE_SENT: u8 = 2;

// What a step returns, in numbers, so that C and Rust take it as it is. What is not there is 0.
// The numbers of a fragment stand together, which keeps the display's copies few (docs/PROVING-NOTES.md).
#[repr(C)]
#[derive(Clone, Copy)]
pub struct Stepped {
    // The display afterwards.
    pub display: Display,
    // The answer number.
    pub answer: u8,
    // The reply's length in the output, or 0 where no reply is due.
    pub len: usize,
    // The fragment that was sent: its offset in its text, its length, and the number of its text.
    pub offset: usize,
    pub count: usize,
    pub text: u8,
}
