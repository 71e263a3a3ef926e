// The types of DDC/CI messages, the answer numbers and the limits.
// What they mean stands in specs/, and the theorems in proofs/.
#![tactic(auto)]

pub mod answer;
pub mod fields;
pub mod limits;
pub mod refusal;

// Which way a message goes.
#[derive(Clone, Copy, PartialEq, Eq)]
pub enum Direction {
    // To the display (the papers' board).
    Request,
    // To the host (the papers' post).
    Reply,
}

// The pair of address bytes of a message.
#[derive(Clone, Copy)]
pub struct Address {
    // The message's first byte.
    pub first: u8,
    // The byte that its checksum starts from.
    pub seed: u8,
}

// The pair of a request to the display.
pub const TO_DISPLAY: Address = Address {
    first: 0x51,
    seed: 0x6E,
};

// The pair of the display's reply to the host.
pub const TO_HOST: Address = Address {
    first: 0x6E,
    seed: 0x50,
};

// A text offset counts bytes of a whole text.
// No function takes it for a position.
#[repr(C)]
#[derive(Clone, Copy, PartialEq, Eq, PartialOrd, Ord)]
pub struct TextOffset(pub u16);

// A position counts bytes of one slice: a message, a capabilities string, a profile, a call list (the papers' place).
// No function takes it for a text offset.
#[repr(C)]
#[derive(Clone, Copy, PartialEq, Eq, PartialOrd, Ord)]
pub struct Position(pub usize);

// The two texts of a display that are sent in fragments.
#[derive(Clone, Copy, PartialEq, Eq)]
pub enum TextKind {
    // The capabilities string (the papers' capability text).
    Capabilities,
    // The table (the papers' call list).
    Table,
}

// The VCP code of the table.
pub const TABLE_CODE: u8 = 0xF4;

// The requests of document 01's table of messages.
#[derive(Clone, Copy)]
pub enum RequestKind {
    // 01: asks for the value of a code.
    Get,
    // 03: sets a code to a value.
    Set,
    // 07: asks for the timing.
    Timing,
    // 0C: saves every present value.
    Save,
    // F3: asks for a fragment of the capabilities string.
    Text,
    // E2: asks for a fragment of the table.
    TableRead,
    // E7: writes bytes into the table.
    TableWrite,
}

// The replies of document 01's table of messages, save the null message.
#[derive(Clone, Copy)]
pub enum ReplyKind {
    // 02: the value of a code.
    Value,
    // 4E: the timing.
    TimingReply,
    // E3: a fragment of the capabilities string.
    TextFragment,
    // E4: a fragment of the table.
    TableFragment,
}
