// A message in fixed memory, as programs hand it from one end of a line to the other.
#![tactic(auto)]

ghost use Rattle.std.specs.Prelude.{◌≡◌, take};

use buffers::front;
use message_rules::limits::OUTPUT_ROOM;

// A message as it goes over a line.
// An array with a length, not a slice: a line keeps a message longer than its sender does, and there is no heap.
#[derive(Clone, Copy)]
pub struct Frame {
    // Its bytes, which stand in front.
    pub bytes: [u8; OUTPUT_ROOM],
    // How many they are.
    pub len: usize,
}

impl Frame {
    // The frame without bytes.
    pub const EMPTY: Frame = Frame {
        bytes: [0; OUTPUT_ROOM],
        len: 0,
    };

    // Returns the bytes of the message: as many as the frame says, or all that it has room for.
    pub fn as_slice(&self) -> &[u8]
        ensures { result.now ≡ take self.now.len self.now.bytes }
    {
        front(&self.bytes, self.len)
    }
}
