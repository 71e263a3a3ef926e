// A small fixed pseudo-random line.
use frames::Frame;

// Returns the number of the sequence that follows this one.
pub(crate) fn next(seed: u64) -> u64 {
    (seed % 2147483648 * 1103515245 + 12345) % 2147483648
}

// Returns a number below 10, from the upper half of the seed, which is the better one.
fn digit(seed: u64) -> u64 {
    seed / 65536 % 10
}

// Returns a reply without its last byte.
fn cut(mut reply: Frame) -> Frame {
    reply.len = reply.len.saturating_sub(1);
    reply
}

// Returns a reply with a bit of its middle byte turned over.
fn flipped(mut reply: Frame) -> Frame {
    let middle = reply.len / 2;
    if let Some(byte) = reply.bytes.get_mut(middle) {
        *byte ^= 1;
    }
    reply
}

// Returns what comes of a reply.
// With a noise of k, k replies in ten are lost, cut or have a bit flipped.
pub(crate) fn carry(reply: Frame, noise: u64, seed: u64) -> Frame {
    match digit(seed) {
        d if noise <= d => reply,
        0 => Frame::EMPTY,
        1 => cut(reply),
        _ => flipped(reply),
    }
}
