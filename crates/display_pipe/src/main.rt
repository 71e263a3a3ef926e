// A display on standard input and output. The format of its records stands in docs/DISPLAY-PIPE.md.
#![tactic(auto)]

mod record;

use buffers::front;
use ddcci_display::{ddcci_display_set_all, ddcci_display_step};
use display_rules::Display;
use display_rules::limits::TABLE_ROOM;
use message_rules::answer::DONE;
use message_rules::limits::OUTPUT_ROOM;
use message_rules::refusal::number;
use record::{LONGEST_BODY, Malformed, Record, SETTING_SIZE, Stop};
use settings_rules::{Declaration, Timing};
use streams::{STDERR_FILENO, STDOUT_FILENO};

// The longest profile: a record of 7 bytes for each code but F4.
const LONGEST_PROFILE: usize = 1785;

// The most settings of a body.
const MOST_SENT: usize = LONGEST_BODY / SETTING_SIZE;

// Writes the record that goes back: the answer, the reply's length and the reply.
// A number: the first byte of the record is the answer number.
fn write_answer(answer: u8, reply: &[u8]) -> Result<(), Stop> {
    let [low, high, ..] = reply.len().to_le_bytes();
    if io::write_all(STDOUT_FILENO, &[answer, low, high]) && io::write_all(STDOUT_FILENO, reply) {
        return Ok(());
    }
    Err(Stop::Closed)
}

// Hands a message to the display.
fn step(d: &mut Display, text: &[u8], table: &mut [u8], message: &[u8]) -> Result<(), Stop> {
    let mut out = [0u8; OUTPUT_ROOM];
    let whole = front(text, usize::from(d.capabilities.len));
    let stepped = ddcci_display_step(*d, whole, table, message, &mut out);
    *d = stepped.display;
    write_answer(stepped.answer, front(&out, stepped.len))
}

// Starts the display anew.
fn start(d: &mut Display, timing: Timing, size: u16, text: &[u8]) -> Result<(), Stop> {
    let started = display_start::start(timing, text, size);
    *d = started.display;
    write_answer(started.answer, b"")
}

// Declares a code.
fn declare(d: &mut Display, declaration: Declaration) -> Result<(), Stop> {
    let declared = display_start::declare(*d, declaration);
    *d = declared.display;
    write_answer(declared.answer, b"")
}

// Sends the settings profile back as the reply.
fn write_profile(d: &Display) -> Result<(), Stop> {
    let mut out = [0u8; LONGEST_PROFILE];
    let written = profile::write(d.settings, &mut out);
    write_answer(number(&written), front(&out, written.unwrap_or(0)))
}

// Loads a settings profile. A refused one gets its place back, in two bytes.
fn load_profile(d: &mut Display, bytes: &[u8]) -> Result<(), Stop> {
    match profile::load(d.settings, bytes) {
        Ok(settings) => {
            d.settings = settings;
            write_answer(DONE, b"")
        }
        Err(at) => {
            let [low, high, ..] = at.position.0.to_le_bytes();
            write_answer(u8::from(at.refusal), &[low, high])
        }
    }
}

// Sets many codes, in the order of the body. The room for answers is enough for every body.
// Codes and values are lists of their own, as the call for C takes them. A refused call has no answers to its settings.
fn set_many(d: &mut Display, body: &[u8]) -> Result<(), Stop> {
    let mut codes = [0u8; MOST_SENT];
    let mut values = [0u16; MOST_SENT];
    let mut answers = [0u8; MOST_SENT];
    let (settings, _) = body.as_chunks::<SETTING_SIZE>();
    for ((setting, code), value) in settings.iter().zip(codes.iter_mut()).zip(values.iter_mut()) {
        let [c, low, high] = *setting;
        *code = c;
        *value = u16::from_le_bytes([low, high]);
    }
    let n = settings.len().min(MOST_SENT);
    let set = ddcci_display_set_all(*d, &codes[..n], &values[..n], &mut answers);
    *d = set.display;
    if set.answer == DONE {
        write_answer(set.answer, &answers[..n])
    } else {
        write_answer(set.answer, b"")
    }
}

// Answers records until the input ends, one is malformed or nobody takes the answers.
// The display is lent to what obeys a record: handed on by value it would be copied for each function.
// Nothing says that the input ends, so the records are counted to a number that no run reaches.
fn serve() -> Result<(), Stop> {
    let mut d = display_start::empty();
    let mut table = [0u8; TABLE_ROOM];
    let mut text = [0u8; LONGEST_BODY];
    let mut body = [0u8; LONGEST_BODY];
    for number in 1..=u64::MAX {
        match record::read(number, &mut text, &mut body)? {
            Record::Message(message) => step(&mut d, &text, &mut table, message)?,
            Record::Start(timing, size, len) => start(&mut d, timing, size, front(&text, len))?,
            Record::Declare(declaration) => declare(&mut d, declaration)?,
            Record::WriteProfile => write_profile(&d)?,
            Record::LoadProfile(bytes) => load_profile(&mut d, bytes)?,
            Record::SetMany(settings) => set_many(&mut d, settings)?,
        }
    }
    Ok(())
}

// Writes one line for people: which record is malformed, and what is wrong with it.
// Written by `show`: std's writer would rest on the C library's errno too, on which nothing here does.
fn complain(record: Malformed) {
    let Malformed {
        number,
        kind,
        fault,
    } = record;
    show::counted(
        STDERR_FILENO,
        b"display_pipe: record ",
        number,
        b" of kind ",
    );
    show::counted(STDERR_FILENO, b"", u64::from(kind), fault.words());
}

// Serves, and says why where that ends at a malformed record.
fn main() {
    if let Err(Stop::Malformed(record)) = serve() {
        complain(record);
    }
}
