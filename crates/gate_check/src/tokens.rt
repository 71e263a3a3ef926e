// What the program writes: the lines of a list's tokens.
ghost use Rattle.std.specs.Prelude.{◌+◌, ◌≤◌, length};
ghost use Rattle.gate_check.specs.Parts.{PutsLine, PutsTokens, line_room, text_room};

use buffers::put_octet;
use call_list_rules::EntryNumber;
use call_list_rules::limits::MOST_ENTRIES;
use numerals::put_decimal;

// The room for a line: the ten digits of the highest token, and the line end.
const LINE_ROOM: usize = 11;

// The room for the lines of any list.
pub(crate) const TEXT_ROOM: usize = MOST_ENTRIES * LINE_ROOM;

// Puts a token's line into a text at an index.
// Returns the index behind it.
fn put_line(text: &mut [u8], at: usize, token: u32) -> usize
    requires { at + line_room ≤ length text.old }
    ensures { PutsLine token text.old at text.new result }
{
    let end = at + put_decimal(text, at, token);
    put_octet(text, end, b'\n');
    end + 1
}

// Puts the lines of a list's tokens at the start of a text.
// Returns how many bytes they are: none, where the list is refused.
pub(crate) fn put_tokens(list: &[u8], text: &mut [u8]) -> usize
    requires { text_room ≤ length text.old }
    ensures { PutsTokens list.now text.old text.new result }
{
    let Ok(entries) = call_list::check(list) else {
        return 0;
    };
    let mut at: usize = 0;
    // By number: an entry is read by its number.
    for k in 0..entries {
        let entry = call_list::entry(list, EntryNumber(k));
        at = put_line(text, at, entry.token);
    }
    at
}
