// What the host found, for people.
// It goes to standard error, because standard output carries the records.
use crate::job::BRIGHT;
use crate::pipe::Fault;
use crate::read::Reading;
use streams::STDERR_FILENO;

// Where the report goes.
const TO: i32 = STDERR_FILENO;

// Writes that a record which should be taken is not, and what to do.
fn refused(answer: u8) {
    show::text(TO, b" is refused: ");
    show::answer::meaning(TO, answer);
    show::text(
        TO,
        b": see that the other end is display_pipe, newly started\n",
    );
}

// Writes what is wrong with the record, and what to do.
fn wrong(fault: Fault) {
    match fault {
        Fault::Ended => show::text(
            TO,
            b" did not come, the input had ended: see what the display wrote to standard error\n",
        ),
        Fault::Cut => show::text(
            TO,
            b" ends in the middle: see what the display wrote to standard error, and run both again\n",
        ),
        Fault::TooLong(len) => show::counted(
            TO,
            b" has ",
            len as u64,
            b" bytes, and a reply at most 38: see that the other end is display_pipe\n",
        ),
        Fault::NotDue(len) => show::counted(
            TO,
            b" has ",
            len as u64,
            b" bytes where no reply is due: see that the other end is display_pipe\n",
        ),
        Fault::Refused(answer) => refused(answer),
        Fault::NotRead => show::text(
            TO,
            b" could not be read: give the display's output, a pipe that is open, as standard input\n",
        ),
        Fault::NotWritten => show::text(
            TO,
            b" could not be asked for, the output is closed: see what the display wrote to standard error\n",
        ),
    }
}

// Writes one line: which reply record, what is wrong with it, what to do.
pub(crate) fn fault(records: u64, fault: Fault) {
    show::counted(TO, b"host_pipe: reply record ", records, b"");
    wrong(fault);
}

// Writes the brightness that the display has, and returns whether it is the one that was set.
pub(crate) fn value(records: u64, present: Option<u16>) -> bool {
    show::counted(TO, b"records exchanged: ", records, b"\n");
    match present {
        Some(value) => show::counted(TO, b"brightness: ", u64::from(value), b"\n"),
        None => show::text(TO, b"brightness: no value came\n"),
    }
    present == Some(BRIGHT)
}

// Writes how the reading of a text ended, and returns whether it is done and brought these bytes.
fn compared(what: &[u8], r: &Reading, wanted: &[u8]) -> bool {
    let same = r.bytes() == wanted;
    show::text(TO, what);
    show::counted(TO, b": ", u64::from(r.transfer.reached.0), b" bytes in ");
    show::number(TO, u64::from(r.transfer.count), 0);
    show::compared(TO, b" exchanges; beside what was sent: ", same);
    same && r.is_done()
}

// Writes the capabilities string's tree where what was read is what was sent, and returns whether all that held.
pub(crate) fn string(r: &Reading, wanted: &[u8]) -> bool {
    compared(b"capabilities string", r, wanted) && show_tree::write(TO, b"  ", wanted)
}

// Writes how the table was read, and returns whether it is the list that was written.
pub(crate) fn table(r: &Reading, wanted: &[u8]) -> bool {
    compared(b"call list", r, wanted)
}

// Writes whether everything held.
pub(crate) fn verdict(value: bool, string: bool, table: bool) {
    if value && string && table {
        show::text(TO, b"everything held\n");
    } else {
        show::text(TO, b"NOT EVERYTHING HELD\n");
    }
}
