// An input of a program, read to its end: standard input or a file.
#![tactic(auto)]

use std::io;
use std::io::Read;

// The bytes that each read asks for, however little room is left.
// An input that gives whole parts and no fewer bytes, as an event counter does, can so be read too.
const PART: usize = 2048;

// Reads an input into a buffer, until it ends or the buffer is full.
// Returns how many bytes came; an input that cannot be read to its end is an error, since it may be cut anywhere.
// A buffer with one byte more than may come tells an input that is too long.
pub fn read_to_end<R: Read>(from: &mut R, input: &mut [u8]) -> io::Result<usize> {
    let mut part = [0u8; PART];
    let mut at = 0;
    // Counted by hand: each read says how many bytes came, and the next ones go behind them.
    while at < input.len() {
        let n = from.read(&mut part)?.min(input.len() - at);
        if n == 0 {
            break;
        }
        input[at..at + n].copy_from_slice(&part[..n]);
        at += n;
    }
    Ok(at)
}
