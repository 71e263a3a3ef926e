// The records of the pipe, from the host's side.
use buffers::front_mut;
use frames::Frame;
use message_rules::answer::DONE;
use message_rules::limits::OUTPUT_ROOM;
use std::io::Input;
use streams::{STDIN_FILENO, STDOUT_FILENO};

// The kinds of a record that the host sends, at their numbers.
// Written apart from display_pipe: a mistake in the form of records at either end shows.
#[derive(Clone, Copy)]
pub(crate) enum Kind {
    // It starts the display.
    Start = 1,
    // It declares a code.
    Declare = 2,
    // It carries a message.
    Message = 3,
}

// The bytes in front of a reply: the answer number and the reply's length.
const HEAD: usize = 3;

// What went wrong on the pipe.
#[derive(Clone, Copy)]
pub(crate) enum Fault {
    // The input had ended before a record.
    Ended,
    // The record ends in the middle.
    Cut,
    // The record's reply has so many bytes, more than any message.
    TooLong(usize),
    // The record has a reply of so many bytes where none is due.
    NotDue(usize),
    // The answer is this number where 0 is due.
    // A number, not a Refusal: another display may answer with one that is none.
    Refused(u8),
    // The output is closed.
    NotWritten,
    // The input cannot be read.
    NotRead,
}

// A record that came back.
#[derive(Clone, Copy)]
pub(crate) struct Reply {
    // Its answer number.
    pub(crate) answer: u8,
    // The message in it.
    pub(crate) message: Frame,
}

// The host's end of the pipe.
#[derive(Drop)]
pub(crate) struct Host<'a, R> {
    // What says whether the input can be read.
    rt: &'a R,
    // How many records were sent.
    pub(crate) records: u64,
}

// Writes a record.
fn write_record(kind: Kind, body: &[u8]) -> Result<(), Fault> {
    let [low, high, ..] = body.len().to_le_bytes();
    if io::write_all(STDOUT_FILENO, &[kind as u8, low, high])
        && io::write_all(STDOUT_FILENO, body)
    {
        return Ok(());
    }
    Err(Fault::NotWritten)
}

impl<'a, R: Input> Host<'a, R> {
    // Returns the host before its first record.
    pub(crate) fn new(rt: &'a R) -> Host<'a, R> {
        Host { rt, records: 0 }
    }

    // Returns what is wrong where no byte came: an input that has ended, or one that cannot be read.
    fn silence(&self) -> Fault {
        if show::input::readable(&mut self.rt.reader()) {
            Fault::Ended
        } else {
            Fault::NotRead
        }
    }

    // Reads the answer number of the record that comes, and the length of its reply.
    fn read_head(&self) -> Result<(u8, usize), Fault> {
        let mut head = [0u8; HEAD];
        let got = io::read_full(STDIN_FILENO, &mut head);
        let [answer, low, high] = head;
        match got {
            0 => Err(self.silence()),
            HEAD => Ok((answer, usize::from(u16::from_le_bytes([low, high])))),
            _ => Err(Fault::Cut),
        }
    }

    // Reads the record that comes.
    fn read_record(&self) -> Result<Reply, Fault> {
        let (answer, len) = self.read_head()?;
        if OUTPUT_ROOM < len {
            return Err(Fault::TooLong(len));
        }
        let mut message = Frame::EMPTY;
        message.len = len;
        if io::read_full(STDIN_FILENO, front_mut(&mut message.bytes, len)) < len {
            return Err(Fault::Cut);
        }
        Ok(Reply { answer, message })
    }

    // Sends a record, and returns the one that comes back.
    pub(crate) fn exchange(&mut self, kind: Kind, body: &[u8]) -> Result<Reply, Fault> {
        self.records = self.records.wrapping_add(1);
        write_record(kind, body)?;
        self.read_record()
    }

    // Sends a record that should be answered with 0 and no reply.
    pub(crate) fn tell(&mut self, kind: Kind, body: &[u8]) -> Result<(), Fault> {
        let reply = self.exchange(kind, body)?;
        if reply.answer != DONE {
            return Err(Fault::Refused(reply.answer));
        }
        if reply.message.len != 0 {
            return Err(Fault::NotDue(reply.message.len));
        }
        Ok(())
    }
}
