// 12:00, behind the reading: a volunteer looks at the capabilities string that was read.
use capabilities_checker::check;
use capabilities_rules::limits::MOST_NODES;
use day_report::{OUT, checks};

// How many words the string has.
const WORDS: usize = 12;

// Writes how many words a string has that ends with zeros, or why it is refused.
// Returns whether it has as many as there are without the zeros.
fn counted(text: &[u8]) -> bool {
    match check(text, MOST_NODES) {
        Ok(words) => {
            checks::words(words);
            words == WORDS
        }
        Err(at) => {
            checks::answered(b"    the string: ", u8::from(at.refusal), at.position.0);
            false
        }
    }
}

// Returns whether a display's string is accepted.
// The first display's is shown as a tree. The second one's is the same, but ends with zeros.
pub(crate) fn accepted(number: u64, text: &[u8]) -> bool {
    if number == 1 {
        return show_tree::write(OUT, b"      ", text);
    }
    counted(text)
}
