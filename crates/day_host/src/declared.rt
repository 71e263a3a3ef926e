// What every display of the day declares at its start.
use day_report::messages::Code;
use settings_rules::{Declaration, Timing};

// How many codes a display has.
const CODES: usize = 4;

// The brightest value.
pub const FULL: u16 = 100;

// The timing of every display.
pub const TIMING: Timing = Timing {
    status: 2,
    horizontal: 13340,
    vertical: 6000,
};

// Returns the declaration of a code that keeps its value, and is readable and writable.
// A maximum of 0 says that it takes single values, and is not continuous.
fn kept(code: Code, maximum: u16, present: u16) -> Declaration {
    Declaration {
        code: u8::from(code),
        readable: true,
        writable: true,
        kind: 0,
        continuous: maximum > 0,
        maximum,
        present,
    }
}

// Returns the declaration of a code that acts once: it is writable, and there is no value to read.
fn momentary(code: Code) -> Declaration {
    Declaration {
        code: u8::from(code),
        readable: false,
        writable: true,
        kind: 1,
        continuous: false,
        maximum: 0,
        present: 0,
    }
}

// Returns the declarations of the codes, in their order.
pub fn declarations() -> [Declaration; CODES] {
    [
        kept(Code::Brightness, FULL, 80),
        kept(Code::Contrast, FULL, 50),
        kept(Code::Input, 0, 17),
        momentary(Code::Degauss),
    ]
}
