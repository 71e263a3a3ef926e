// The rows of document 01's table of messages as the readers go through them: a kind, and the shape of its body.
ghost use Rattle.std.specs.Prelude.{◌≡◌, false};
ghost use Rattle.message_frame.specs.Shape.{length_right, known_row, unknown_row};

use message_rules::refusal::Refusal;

// The body of a command number, and the form of the length byte in front of it.
#[derive(Clone, Copy)]
pub struct Shape {
    // How many bytes it has at least, the command number among them.
    pub least: usize,
    // How many bytes of data it has at most behind those.
    pub data: usize,
    // Whether the length byte is plain.
    pub plain: bool,
}

impl Shape {
    // Returns the shape of a body of just so many bytes, in the common form of length byte.
    pub fn fixed(least: usize) -> Shape
        ensures { result ≡ record { least = least; «data» = 0; plain = false } }
    {
        Shape::with_data(least, 0)
    }

    // Returns the shape of a body with so much data at most behind its fields, in the common form of length byte.
    pub fn with_data(least: usize, data: usize) -> Shape
        ensures { result ≡ record { least = least; «data» = «data»; plain = false } }
    {
        Shape {
            least,
            data,
            plain: false,
        }
    }
}

// The row of a command number, for a body of some length. K are the kinds of one direction's messages.
#[derive(Clone, Copy)]
pub struct SizedRow<K> {
    // Whether the length byte is plain.
    pub plain: bool,
    // The kind of the message, or the refusal of its number or of the body's length.
    pub verdict: Result<K, Refusal>,
}

// Returns whether a body of n bytes is right for the shape.
pub fn length_right(shape: Shape, n: usize) -> bool
    ensures { result ≡ length_right shape n }
{
    shape.least <= n && n - shape.least <= shape.data
}

// Returns the row of this kind and shape for a body of n bytes: 7 for a wrong length.
pub fn known_row<K: Copy>(kind: K, shape: Shape, n: usize) -> SizedRow<K>
    ensures { result ≡ known_row kind shape n }
{
    let plain = shape.plain;
    if length_right(shape, n) {
        return SizedRow {
            plain,
            verdict: Ok(kind),
        };
    }
    let verdict = Err(Refusal::WrongField);
    SizedRow { plain, verdict }
}

// Returns the row of a number that is not in the table: 6.
pub fn unknown_row<K: Copy>() -> SizedRow<K>
    ensures { result ≡ unknown_row }
{
    let verdict = Err(Refusal::UnknownCommand);
    SizedRow {
        plain: false,
        verdict,
    }
}
