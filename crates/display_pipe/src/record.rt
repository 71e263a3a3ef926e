// The records that come in, read whole, and what stops the program.
use buffers::front_mut;
use settings_rules::{Declaration, Timing};
use streams::STDIN_FILENO;

// The bytes in front of a record's body: its kind, and the body's length.
const HEAD: usize = 3;

// The bytes of a start record in front of the capabilities string.
const START_FIELDS: usize = 7;

// The bytes of a declare record's body.
const DECLARE_FIELDS: usize = 9;

// The longest body of a record.
pub(crate) const LONGEST_BODY: usize = 65535;

// The bytes of a setting in a record that sets many: its code and its value.
pub(crate) const SETTING_SIZE: usize = 3;

// The kinds of a record, at their numbers.
#[derive(Clone, Copy)]
enum Kind {
    Start = 1,
    Declare,
    Message,
    WriteProfile,
    LoadProfile,
    SetMany,
}

impl TryFrom<u8> for Kind {
    type Error = Fault;

    // Returns the kind of a number.
    fn try_from(number: u8) -> Result<Kind, Fault> {
        match number {
            1 => Ok(Kind::Start),
            2 => Ok(Kind::Declare),
            3 => Ok(Kind::Message),
            4 => Ok(Kind::WriteProfile),
            5 => Ok(Kind::LoadProfile),
            6 => Ok(Kind::SetMany),
            _ => Err(Fault::WrongKind),
        }
    }
}

// A record that was read whole.
#[derive(Clone, Copy)]
pub(crate) enum Record<'a> {
    // Starts the display anew, with this timing and fragment size, and a capabilities string of this length.
    Start(Timing, u16, usize),
    // Declares a code.
    Declare(Declaration),
    // A message to the display.
    Message(&'a [u8]),
    // Asks for the settings profile.
    WriteProfile,
    // Loads a settings profile.
    LoadProfile(&'a [u8]),
    // Sets many codes, in the order of the settings.
    SetMany(&'a [u8]),
}

// What is wrong with a record.
#[derive(Clone, Copy, PartialEq, Eq)]
pub(crate) enum Fault {
    // The input ends in the middle of it.
    Cut,
    // It starts a display, and has too few bytes.
    ShortStart,
    // It declares a code, and has not as many bytes as that takes.
    WrongDeclare,
    // A byte of it that says yes or no is neither 0 nor 1.
    WrongFlag,
    // It asks for the profile, and has a body.
    ProfileBody,
    // It sets many codes, and its last setting is cut.
    CutSetting,
    // There is no such kind.
    WrongKind,
}

impl Fault {
    // Returns for people what is wrong, from behind the record's kind to the end of the line.
    pub(crate) fn words(self) -> &'static [u8] {
        match self {
            Fault::Cut => b": the input ends in the middle of a record\n",
            Fault::ShortStart => b": a start record needs 7 bytes or more\n",
            Fault::WrongDeclare => b": a declare record has 9 bytes\n",
            Fault::WrongFlag => b": readable, writable and continuous are 0 or 1\n",
            Fault::ProfileBody => b": a record that asks for the profile has no body\n",
            Fault::CutSetting => b": a record that sets many has 3 bytes a setting\n",
            Fault::WrongKind => {
                b": the kind of a record is 1 (start), 2 (declare), 3 (message), 4 (write the profile), 5 (load a profile) or 6 (set many)\n"
            }
        }
    }
}

// A record that is malformed.
#[derive(Clone, Copy, PartialEq, Eq)]
pub(crate) struct Malformed {
    // Its number, from 1 on.
    pub(crate) number: u64,
    // The number of its kind.
    pub(crate) kind: u8,
    // What is wrong with it.
    pub(crate) fault: Fault,
}

// Why the program stops.
#[derive(Clone, Copy, PartialEq, Eq)]
pub(crate) enum Stop {
    // The input has ended in front of a record.
    Ended,
    // Nobody takes the answers.
    Closed,
    // A record is malformed.
    Malformed(Malformed),
}

// Fills a part of a buffer from the input.
fn fill(part: &mut [u8]) -> Result<(), Fault> {
    if io::read_full(STDIN_FILENO, part) < part.len() {
        return Err(Fault::Cut);
    }
    Ok(())
}

// Reads N bytes.
fn read_fields<const N: usize>() -> Result<[u8; N], Fault> {
    let mut fields = [0u8; N];
    fill(&mut fields)?;
    Ok(fields)
}

// Reads a body of n bytes into the front of the buffer.
fn read_bytes(n: usize, body: &mut [u8]) -> Result<&[u8], Fault> {
    let part = front_mut(body, n);
    fill(part)?;
    Ok(part)
}

// Reads the body of a start record of n bytes.
// The capabilities string stays in the buffer `text` for the steps that follow.
fn read_start(n: usize, text: &mut [u8]) -> Result<Record<'static>, Fault> {
    if n < START_FIELDS {
        return Err(Fault::ShortStart);
    }
    let [status, h0, h1, v0, v1, f0, f1] = read_fields::<START_FIELDS>()?;
    let len = n - START_FIELDS;
    fill(front_mut(text, len))?;
    let timing = Timing {
        status,
        horizontal: u16::from_le_bytes([h0, h1]),
        vertical: u16::from_le_bytes([v0, v1]),
    };
    Ok(Record::Start(timing, u16::from_le_bytes([f0, f1]), len))
}

// Returns what a byte says: 0 (no) or 1 (yes).
fn flag(byte: u8) -> Result<bool, Fault> {
    match byte {
        0 => Ok(false),
        1 => Ok(true),
        _ => Err(Fault::WrongFlag),
    }
}

// Reads the body of a declare record of n bytes.
fn read_declare(n: usize) -> Result<Declaration, Fault> {
    if n != DECLARE_FIELDS {
        return Err(Fault::WrongDeclare);
    }
    let [code, readable, writable, kind, continuous, m0, m1, p0, p1] = read_fields::<
        DECLARE_FIELDS,
    >()?;
    Ok(Declaration {
        code,
        readable: flag(readable)?,
        writable: flag(writable)?,
        kind,
        continuous: flag(continuous)?,
        maximum: u16::from_le_bytes([m0, m1]),
        present: u16::from_le_bytes([p0, p1]),
    })
}

// Reads the body of a record of this kind: n bytes.
fn read_body<'a>(
    kind: u8,
    n: usize,
    text: &mut [u8],
    body: &'a mut [u8],
) -> Result<Record<'a>, Fault> {
    match Kind::try_from(kind)? {
        Kind::Start => read_start(n, text),
        Kind::Declare => Ok(Record::Declare(read_declare(n)?)),
        Kind::Message => Ok(Record::Message(read_bytes(n, body)?)),
        Kind::WriteProfile if n != 0 => Err(Fault::ProfileBody),
        Kind::WriteProfile => Ok(Record::WriteProfile),
        Kind::LoadProfile => Ok(Record::LoadProfile(read_bytes(n, body)?)),
        Kind::SetMany if n % SETTING_SIZE != 0 => Err(Fault::CutSetting),
        Kind::SetMany => Ok(Record::SetMany(read_bytes(n, body)?)),
    }
}

// Reads the record of this number whole.
// The buffer `body` takes its body, but for a capabilities string, which goes into the buffer `text`.
pub(crate) fn read<'a>(
    number: u64,
    text: &mut [u8],
    body: &'a mut [u8],
) -> Result<Record<'a>, Stop> {
    let mut head = [0u8; HEAD];
    let got = io::read_full(STDIN_FILENO, &mut head);
    if got == 0 {
        return Err(Stop::Ended);
    }
    let [kind, low, high] = head;
    let n = usize::from(u16::from_le_bytes([low, high]));
    let record = if got < HEAD {
        Err(Fault::Cut)
    } else {
        read_body(kind, n, text, body)
    };
    record.map_err(|fault| Stop::Malformed(Malformed {
        number,
        kind,
        fault,
    }))
}
