// Transfers for Rust and C: a transfer's state as numbers.
// A state that no call has made is judged like any other, never trusted.
ghost use Rattle.std.specs.Prelude.{◌≡◌, length};
ghost use Rattle.ddcci.specs.Transfers.{state_of, text_of, phase_number, transfer_of, numbers_of, begin_numbers, request_outcome, receive_numbers, Requests, Receives};

use crate::{BuiltNumbers, built_numbers};
use message_rules::{TextKind, TextOffset, answer, refusal};
use transfer_rules::{State, Transfer};

// A transfer. Zeros are a closed one.
// Numbers, with the answer among them: C takes this struct as it is.
// It has sixteen bytes in all, so that it goes in and out in registers.
#[repr(C)]
#[derive(Clone, Copy)]
pub struct TransferNumbers {
    // The length of the buffer that it was begun with.
    pub capacity: usize,
    // The offset reached.
    pub offset: u16,
    // The most exchanges that it counts.
    pub budget: u16,
    // How many exchanges it has counted.
    pub count: u16,
    // 4 times the text's number (0 the capabilities string, 1 the table), and its state:
    // 0 exhausted, 1 running, 2 done, 3 overflowed.
    pub phase: u8,
    // The answer of the call that made it.
    pub answer: u8,
}

// How many states there are: the phases of a text begin at its number times this.
const STATES: u8 = 4;

// The phase of a transfer whose text is unknown: exhausted, and of no text.
// A number, not an Option: the struct for C has one byte for text and state.
const NO_PHASE: u8 = 8;

// Returns the state that a number stands for. A number above 3 is no state that runs.
// No TryFrom: every number is judged, also one that no call makes.
fn state_of(number: u8) -> State
    ensures { result ≡ state_of number }
{
    match number {
        0 => State::Exhausted,
        1 => State::Running,
        2 => State::Done,
        _ => State::Overflowed,
    }
}

// Returns the phase of a transfer of this text in this state.
// Texts and states stand in their enums in the order of their numbers.
fn phase_number(kind: TextKind, state: State) -> u8
    ensures { result ≡ phase_number kind state }
{
    kind as u8 * STATES + state as u8
}

// Returns the text that a number names: 0 the capabilities string, 1 the table; none, where it names no text.
// No TryFrom: a number that names no text gets its answer from the caller.
fn text_of(number: u8) -> Option<TextKind>
    ensures { result ≡ text_of number }
{
    match number {
        0 => Some(TextKind::Capabilities),
        1 => Some(TextKind::Table),
        _ => None,
    }
}

// Returns the transfer of this text that the numbers say.
fn transfer_of(kind: TextKind, n: TransferNumbers) -> Transfer
    ensures { result ≡ transfer_of kind n }
{
    Transfer {
        kind,
        state: state_of(n.phase % STATES),
        reached: TextOffset(n.offset),
        capacity: n.capacity,
        budget: n.budget,
        count: n.count,
    }
}

// Returns a transfer and an answer as numbers.
fn numbers_of(t: Transfer, answer: u8) -> TransferNumbers
    ensures { result ≡ numbers_of t answer }
{
    TransferNumbers {
        capacity: t.capacity,
        offset: t.reached.0,
        budget: t.budget,
        count: t.count,
        phase: phase_number(t.kind, t.state),
        answer,
    }
}

// Returns a transfer of a text, with the buffer that it will fill and a budget of exchanges.
// A budget above 65,535 is refused with 18, an unknown text with 6; the transfer is then closed.
pub fn ddcci_begin(kind: u8, buffer: &[u8], budget: usize) -> TransferNumbers
    ensures { result ≡ begin_numbers kind (length buffer.now) budget }
{
    let Some(text) = text_of(kind) else {
        return TransferNumbers {
            capacity: 0,
            offset: 0,
            budget: 0,
            count: 0,
            phase: NO_PHASE,
            answer: answer::UNKNOWN_COMMAND,
        };
    };
    let begun = transfer::begin(text, buffer, budget);
    let answer = refusal::number(&begun);
    numbers_of(begun.unwrap_or(Transfer::exhausted(text)), answer)
}

// Builds the request for the offset that the transfer has reached.
// Returns the answer and the request's length.
// An unknown text is 6, and nothing is written.
pub fn ddcci_request(n: TransferNumbers, out: &mut [u8]) -> BuiltNumbers
    ensures { Requests (request_outcome n out.old) result out.new }
{
    let Some(text) = text_of(n.phase / STATES) else {
        return BuiltNumbers {
            answer: answer::UNKNOWN_COMMAND,
            len: 0,
        };
    };
    built_numbers(transfer::request(transfer_of(text, n), out))
}

// Receives the bytes that came back, with the buffer that the transfer was begun with.
// Returns the transfer afterwards, with the answer in it.
// An unknown text is 6, and nothing else changes.
pub fn ddcci_receive(n: TransferNumbers, buffer: &mut [u8], reply: &[u8]) -> TransferNumbers
    ensures { Receives (receive_numbers n buffer.old reply.now) result buffer.new }
{
    let Some(text) = text_of(n.phase / STATES) else {
        return TransferNumbers {
            answer: answer::UNKNOWN_COMMAND,
            ..n
        };
    };
    let received = transfer::receive(transfer_of(text, n), buffer, reply);
    numbers_of(received.transfer, refusal::number(&received.answer))
}
