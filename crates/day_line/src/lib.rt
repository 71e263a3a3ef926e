// A simulated line that loses, cuts, flips and repeats, by a fixed rule.
// What becomes of an exchange stands as definitions in specs/; a tally counts it.
#![tactic(auto)]

pub mod tally;

ghost use Rattle.std.specs.Prelude.{◌≡◌};
ghost use Rattle.day_line.specs.Line as rules;

use frames::Frame;
use message_rules::limits::OUTPUT_ROOM;

// What becomes of an exchange.
#[derive(Clone, Copy)]
pub enum Fate {
    // Nothing is spoiled.
    Good,
    // The request does not arrive.
    RequestLost,
    // The reply does not arrive.
    ReplyLost,
    // Only the first bytes of the reply arrive.
    Cut,
    // One bit of the reply is turned over.
    Flipped,
    // What came last arrives again, in place of the reply.
    Repeated,
}

// A line.
#[derive(Clone, Copy)]
pub struct Line {
    // The number that the next fate is drawn from.
    pub seed: u64,
    // What came over the line last.
    pub last: Frame,
}

// Returns a line that nothing went over.
pub fn quiet(seed: u64) -> Line
    ensures { (result.seed ≡ seed) × (result.last.len ≡ 0) }
{
    Line {
        seed,
        last: Frame::EMPTY,
    }
}

// Returns what becomes of the next exchange. Five in sixteen are spoiled.
pub fn draw(seed: u64) -> Fate
    ensures { result ≡ rules.draw seed }
{
    match seed / 4096 % 16 {
        0 => Fate::RequestLost,
        1 => Fate::ReplyLost,
        2 => Fate::Cut,
        3 => Fate::Flipped,
        4 => Fate::Repeated,
        _ => Fate::Good,
    }
}

// Returns a frame with the same bytes, of which only the first n count.
#[tactic(auto, unfolding(crate::specs::Line::cut))]
fn cut(mut f: Frame, n: usize) -> Frame
    ensures { result ≡ rules.cut f n }
{
    f.len = n;
    f
}

// Returns what arrives of a request.
// One that is lost reaches the display as no bytes, which change nothing.
pub fn heard(fate: Fate, request: Frame) -> Frame
    ensures { result ≡ rules.heard fate request }
{
    match fate {
        Fate::RequestLost => cut(request, 0),
        _ => request,
    }
}

// Returns a number below n that is drawn from the seed, or 0 where n is 0.
fn below(n: usize, seed: u64) -> usize
    ensures { result ≡ rules.below n seed }
{
    if n == 0 {
        return 0;
    }
    (seed / 8) as usize % n
}

// Returns the bytes with one bit of the byte at this position turned over.
#[tactic(auto, unfolding(crate::specs::Line::flip))]
fn flip(mut bytes: [u8; OUTPUT_ROOM], at: usize) -> [u8; OUTPUT_ROOM]
    ensures { result ≡ rules.flip bytes at }
{
    if at < OUTPUT_ROOM {
        bytes[at] ^= 4;
    }
    bytes
}

// Returns a reply with one bit of it turned over.
#[tactic(auto, unfolding(crate::specs::Line::flipped))]
fn flipped(reply: Frame, seed: u64) -> Frame
    ensures { result ≡ rules.flipped reply seed }
{
    Frame {
        bytes: flip(reply.bytes, below(reply.len, seed)),
        len: reply.len,
    }
}

// Returns what arrives of a reply.
pub fn came(l: Line, fate: Fate, reply: Frame) -> Frame
    ensures { result ≡ rules.came l fate reply }
{
    match fate {
        Fate::Good => reply,
        Fate::RequestLost | Fate::ReplyLost => cut(reply, 0),
        Fate::Cut => cut(reply, below(reply.len, l.seed)),
        Fate::Flipped => flipped(reply, l.seed),
        Fate::Repeated => l.last,
    }
}

// Returns the line after this frame came: with the next seed, and the frame as the last one where it has bytes.
pub fn after(mut l: Line, f: Frame) -> Line
    ensures { result ≡ rules.after l f }
{
    l.seed = l.seed % 2147483647 * 16807 % 2147483647;
    if f.len != 0 {
        l.last = f;
    }
    l
}
