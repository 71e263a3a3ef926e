// A line of the vector programs' input: pairs of hexadecimal digits, in parts that marks stand between.
#![tactic(auto)]

ghost use Rattle.std.specs.Prelude.{◌≡◌, ◌≤◌, None, Some, ◌∷◌, ◌++◌, length, take as front, drop, IfSome, MatchOption};
ghost use Rattle.vector_line.specs.Lines.{digit_of, pairs_of, within, Without, answer_of};

// Returns the value of a hexadecimal digit, in capitals; there is none of another byte.
// By hand: char's to_digit takes small letters too, which make a line malformed.
fn digit(b: u8) -> Option<u8>
    ensures { result ≡ digit_of b }
{
    match b {
        b'0'..=b'9' => Some(b - b'0'),
        b'A'..=b'F' => Some(b - b'A' + 10),
        _ => None,
    }
}

// Reads pairs of digits, with any spaces between them, as bytes into the front of a buffer.
// Returns how many they are, or nothing where the text has another form, or more pairs than the buffer has bytes.
fn pairs(text: &[u8], buffer: &mut [u8]) -> Option<usize>
    ensures read { MatchOption result (within (length buffer.old) (pairs_of text.now) ≡ None) (λ n. within (length buffer.old) (pairs_of text.now) ≡ Some (front n buffer.new)) }
    ensures behind { IfSome result (λ n. (n ≤ length buffer.old) × (drop n buffer.new ≡ drop n buffer.old)) }
{
    let mut left = text;
    // n is counted here: it is the place of the next byte, and what is returned.
    let mut n = 0;
    loop {
        match left {
            [] => return Some(n),
            [b' ', rest @ ..] => left = rest,
            [high, low, rest @ ..] => {
                let byte = digit(*high)? * 16 + digit(*low)?;
                // Stored by index: the contract of `get_mut` does not say what the buffer holds once the byte is set.
                if n == buffer.len() {
                    return None;
                }
                buffer[n] = byte;
                n += 1;
                left = rest;
            }
            _ => return None,
        }
    }
}

// Reads pairs of digits, with any spaces between them, as bytes into the front of a buffer.
// Returns those bytes and the buffer behind them, or nothing where the text has another form, or more pairs than the
// buffer has bytes.
pub fn take<'a>(text: &[u8], buffer: &'a mut [u8]) -> Option<(&'a [u8], &'a mut [u8])>
    ensures { MatchOption result (within (length buffer.old) (pairs_of text.now) ≡ None) (λ p. (within (length buffer.old) (pairs_of text.now) ≡ Some p.0.now) × (p.1.now ≡ drop (length p.0.now) buffer.old)) }
{
    let n = pairs(text, buffer)?;
    let (bytes, left) = buffer.split_at_mut_checked(n)?;
    Some((bytes, left))
}

// Returns what stands in front of the first such mark and behind it, or nothing where there is none.
pub fn split_once(text: &[u8], mark: u8) -> Option<(&[u8], &[u8])>
    ensures { MatchOption result (Without mark text.now) (λ p. (text.now ≡ p.0.now ++ mark ∷ p.1.now) × Without mark p.0.now) }
{
    let at = text.iter().position(|b| *b == mark)?;
    Some((&text[..at], &text[at + 1..]))
}

// Returns the number of an answer, whose two digits are decimal.
pub fn answer(digits: u8) -> u8
    ensures { result ≡ answer_of digits }
{
    digits / 16 * 10 + digits % 16
}
