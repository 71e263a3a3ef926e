// What came of the messages that the tent sends.
// Answers are numbers here: the step and the call for C answer with numbers.
use crate::{OUT, line};

// A code of the day, at its number.
#[derive(Clone, Copy)]
pub enum Code {
    // Brightness.
    Brightness = 0x10,
    // Contrast.
    Contrast = 0x12,
    // The input.
    Input = 0x60,
    // Degauss. It is momentary: it acts once and keeps no value.
    Degauss = 0x01,
}

impl From<Code> for u8 {
    // Returns the number of a code.
    fn from(code: Code) -> u8 {
        code as u8
    }
}

// Returns the name of a code, with spaces behind it up to the width of its column.
fn name(code: Code) -> &'static [u8] {
    match code {
        Code::Brightness => b"brightness  ",
        Code::Contrast => b"contrast    ",
        Code::Input => b"input       ",
        Code::Degauss => b"degauss     ",
    }
}

// Writes a code by its name, and a value of it.
fn value_of(what: &[u8], code: Code, value: u16) {
    show::text(OUT, what);
    show::text(OUT, name(code));
    show::number(OUT, u64::from(value), 3);
}

// Writes what came of a display's start, and of the declaring of its codes.
pub fn started(number: u64, size: u16, started: u8, declared: u8) {
    line(
        b"  display #, which sends fragments of # bytes",
        &[number, u64::from(size)],
    );
    show::answered(OUT, b": ", started);
    show::answered(
        OUT,
        b"    brightness (10), contrast (12), input (60), degauss (01): ",
        declared,
    );
}

// Writes what came of the writing of the call list.
pub fn written(writes: usize, messages: usize, stored: usize, same: bool) {
    line(
        b"    # writes, every third delivered twice: # messages; # bytes stored; ",
        &[writes as u64, messages as u64, stored as u64],
    );
    show::compared(OUT, b"beside the tent's list: ", same);
}

// Writes how many settings went in one call, and its answer.
pub fn settings(count: usize, answer: u8) {
    line(b"    # settings in one call", &[count as u64]);
    show::answered(OUT, b": ", answer);
}

// Writes what came of a Set.
pub fn set(code: Code, value: u16, answer: u8) {
    value_of(b"    Set ", code, value);
    show::answered(OUT, b":  ", answer);
}

// Writes the value that a Get found.
pub fn get(code: Code, value: u16) {
    value_of(b"    Get ", code, value);
    show::text(OUT, b"\n");
}

// Writes what came of a Save.
pub fn saved(answer: u8) {
    show::answered(OUT, b"    Save: ", answer);
}

// Writes how many bytes are left of a list that was cleared.
pub fn cleared(left: usize, answer: u8) {
    line(b"    the list is cleared, # bytes are left", &[left as u64]);
    show::answered(OUT, b": ", answer);
}
