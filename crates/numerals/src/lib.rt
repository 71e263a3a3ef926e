// Numbers as text, put into the lines that programs write.
#![tactic(auto)]

ghost use Rattle.std.specs.Prelude.{◌≡◌, ◌<◌};
ghost use Rattle.buffers.specs.Buffers.{put_whole};
ghost use Rattle.numerals.specs.Numerals.{PutsDecimal, capital, hexadecimal};

use buffers::put;

// Puts the decimal digits of a number into a text at an index; nothing, where they do not all fit.
// Returns how many they are.
// The text and an index, and not a struct of both: so the definitions of lines have them.
pub fn put_decimal(text: &mut [u8], at: usize, n: u32) -> usize
    ensures { PutsDecimal n text.old at text.new result }
{
    let mut digits = [0u8; 20];
    let count = io::decimal(u64::from(n), &mut digits);
    put(text, at, &digits[..count]);
    count
}

// Returns a hexadecimal digit, in capitals.
// By hand: io's hexadecimal digits are small letters.
fn digit(d: u8) -> u8
    requires { d < 16 }
    ensures { result ≡ capital d }
{
    if d < 10 { 48 + d } else { 55 + d }
}

// Puts the two hexadecimal digits of a byte into a text at an index; nothing, where they do not both fit.
pub fn put_hex(text: &mut [u8], at: usize, b: u8)
    ensures { text.new ≡ put_whole text.old at (hexadecimal b) }
{
    let digits = [digit(b / 16), digit(b % 16)];
    put(text, at, &digits);
}
