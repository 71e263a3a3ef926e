// What the programs write for people.
// They write texts, numbers in columns and answer numbers with their meaning; show_tree writes capabilities strings.
// The first parameter is where to: standard output or standard error.
// It is a descriptor and no writer of std: that would rest on the C library's errno too, and ask each program for its
// runtime.
// No contract can speak of what is written: these functions are proved safe and ending, and show_vectors and day
// run them.
#![tactic(auto)]

pub mod answer;
pub mod input;

use buffers::front;
use numerals::put_hex;

// Writes a text as it is.
pub fn text(to: i32, s: &[u8]) {
    io::write_all(to, s);
}

// Writes a number behind spaces up to the width of its column, at most 8.
// Numbers are handed over as u64: a usize by "as", since it has no From.
pub fn number(to: i32, n: u64, width: usize) {
    let mut digits = [0u8; 20];
    let k = io::decimal(n, &mut digits);
    text(to, front(b"        ", width.saturating_sub(k)));
    text(to, &digits[..k]);
}

// Writes a number between two texts.
pub fn counted(to: i32, before: &[u8], n: u64, after: &[u8]) {
    text(to, before);
    number(to, n, 0);
    text(to, after);
}

// Writes a line that ends with an answer and its meaning.
pub fn answered(to: i32, what: &[u8], answer: u8) {
    text(to, what);
    answer::meaning(to, answer);
    text(to, b"\n");
}

// Writes a line that ends with whether two texts were the same.
pub fn compared(to: i32, what: &[u8], same: bool) {
    text(to, what);
    if same {
        text(to, b"the same, byte for byte\n");
    } else {
        text(to, b"NOT THE SAME\n");
    }
}

// Writes a byte in two hexadecimal digits.
pub fn hex(to: i32, b: u8) {
    let mut digits = [0u8; 2];
    put_hex(&mut digits, 0, b);
    text(to, &digits);
}

// Writes a space, and a byte in two hexadecimal digits.
// In one write, so that a full pipe takes the space with both digits, or nothing.
fn spaced_hex(to: i32, b: u8) {
    let mut spaced = [b' '; 3];
    put_hex(&mut spaced, 1, b);
    text(to, &spaced);
}

// Writes bytes in hexadecimal, a space in front of each.
pub fn row(to: i32, s: &[u8]) {
    for b in s {
        spaced_hex(to, *b);
    }
}
