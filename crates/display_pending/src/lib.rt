// What a message leaves to be done to the display, once it was judged and answered, and how that is done.
// What says it is small; the display, which is large, is then passed on once.
#![tactic(auto)]

pub mod changes;
pub mod send;

use display_rules::Fragment;

// What a message leaves to be done to the display. The answer is 0 in all cases but the last.
// The last three change nothing. Each case has its own `return` in a step, which keeps the display's copies few; so does
// the distance between the two cases of an accepted Set (docs/PROVING-NOTES.md).
#[derive(Clone, Copy)]
pub enum Pending {
    // An accepted Set of a kept code: the value is to be stored at the code.
    Store(u8, u16),
    // A Save: every saved value is to be the present one.
    Save,
    // A fragment of a text was sent, in a reply of so many bytes: the text's cursor is to be there.
    Moved(Fragment, usize),
    // The table was written, and has so many bytes now.
    Written(u16),
    // A reply of so many bytes was sent, to a Get or a Timing.
    Replied(usize),
    // An accepted Set of a momentary code: nothing is stored.
    Momentary,
    // The message was refused with an answer number. The null message goes with it, or a reply of 0 bytes.
    Refused(u8, usize),
}
