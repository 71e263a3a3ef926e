// The fields of a message, and how many of them document 01's table gives it.
ghost use Rattle.std.specs.Prelude.{◌≡◌, ◌+◌, ◌*◌, ◌<◌};
ghost use Rattle.message_rules.specs.Layout.{row_of};
ghost use Rattle.message_rules.specs.declared.Direction.TheVariants.{Request, Reply};
ghost use Rattle.message_vector_table.specs.Fields.{part_of, gathered};
ghost use Rattle.message_vector_table.specs.Shape.{shape_of, goes_to_host};

use buffers::octet;

// The fields of a message: its command number, at most three single bytes, and at most two 16-bit words.
// A field that it does not have is 0. Data stand apart.
// Numbers, as document 01's table has them: the vectors judge the library's kinds by them.
#[derive(Clone, Copy, PartialEq, Eq)]
pub struct Fields {
    pub command: u8,
    pub bytes: [u8; 3],
    pub words: [u16; 2],
}

// A row of document 01's table.
#[derive(Clone, Copy)]
pub struct Shape {
    // Whether the message is a reply.
    pub to_host: bool,
    // How many single bytes it has.
    pub bytes: u8,
    // How many bytes its words have.
    pub words: u8,
    // How much data it has at most.
    pub data: u8,
}

// Returns the row of a command number, or none where the number is not in the table.
// The table is written down once more, and proved to be message_rules' table.
pub fn layout(command: u8) -> Option<Shape>
    ensures { result ≡ shape_of (row_of Request command) (row_of Reply command) }
{
    let (to_host, bytes, words, data) = match command {
        0x01 => (false, 1, 0, 0),
        0x03 => (false, 1, 2, 0),
        0x07 => (false, 0, 0, 0),
        0x0C => (false, 0, 0, 0),
        0xF3 => (false, 0, 2, 0),
        0xE2 => (false, 1, 2, 0),
        0xE7 => (false, 1, 2, 31),
        0x02 => (true, 3, 4, 0),
        0x4E => (true, 1, 4, 0),
        0xE3 => (true, 0, 2, 32),
        0xE4 => (true, 0, 2, 32),
        _ => return None,
    };
    Some(Shape {
        to_host,
        bytes,
        words,
        data,
    })
}

// Returns whether the message of a command number is a reply.
// A number that is not in the table counts as a reply's, as the null message is one.
pub fn to_host(command: u8) -> bool
    ensures { result ≡ goes_to_host (shape_of (row_of Request command) (row_of Reply command)) }
{
    match layout(command) {
        Some(shape) => shape.to_host,
        None => true,
    }
}

// Returns the bytes of s from `start` to `end`, or none where it has no such part.
pub fn part(s: &[u8], start: usize, end: usize) -> &[u8]
    ensures { result.now ≡ part_of s.now start end }
{
    s.get(start..end).unwrap_or(b"")
}

// Returns the 16-bit number of a high and a low byte.
pub fn word(high: u8, low: u8) -> u16
    ensures { result ≡ high * 256 + low }
{
    u16::from_be_bytes([high, low])
}

// Returns the fields from the single bytes and the words of a message, the high byte of each word first.
pub fn gather(command: u8, b: &[u8], w: &[u8]) -> Fields
    ensures { result ≡ gathered command b.now w.now }
{
    Fields {
        command,
        bytes: [octet(b, 0), octet(b, 1), octet(b, 2)],
        words: [
            word(octet(w, 0), octet(w, 1)),
            word(octet(w, 2), octet(w, 3)),
        ],
    }
}
