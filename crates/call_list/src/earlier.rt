// The records in front of one, and whether one may stand behind them.
ghost use Rattle.std.specs.Prelude.{◌≡◌, ◌≤◌, length};
ghost use Rattle.call_list.specs.Parts.{row_room, stands_in, entry_at};

use call_list_rules::Entry;
use call_list_rules::limits::{ENTRY_KIND, HOUSEHOLD_AT, RECORD_LENGTH, TOKEN_AT};
use message_rules::Position;
use message_rules::refusal::Refusal;
use records::{long_at, stands};

// The room of a row of numbers: at least one for each of 85 entries.
// It is a multiple of 16 bytes, where several numbers are compared at a time fastest.
const ROW_ROOM: usize = 88;

// The tokens and the households of the records in front.
// Two rows, and not one of entries: the compiler compares several numbers of a row at a time.
#[derive(Drop)]
pub(crate) struct Earlier {
    tokens: [u32; ROW_ROOM],
    households: [u32; ROW_ROOM],
    len: usize,
    ghost inside: { (len ≤ row_room) × (length tokens ≡ row_room) × (length households ≡ row_room) },
}

// Returns the entry that a record says; a byte that is not there counts as 0.
pub(crate) fn entry_in(bytes: &[u8]) -> Entry
    ensures { result ≡ entry_at bytes.now 0 }
{
    Entry {
        token: long_at(bytes, Position(TOKEN_AT)),
        household: long_at(bytes, Position(HOUSEHOLD_AT)),
    }
}

// Returns whether a number stands in a row.
// Every one is looked at, whatever is found: the compiler compares several at a time then.
fn stands_among(row: &[u32], number: u32) -> bool
    ensures { result ≡ stands_in row.now number }
{
    row.iter()
        .fold(false, |found, here| found | (*here == number))
}

impl Earlier {
    ghost use Rattle.std.specs.Prelude.{◌<◌, IfOk, IfErr};
    ghost use Rattle.message_rules.specs.Refusal.{answer_number};
    ghost use Rattle.call_list.specs.Earlier.{answer_behind, Joined};

    // Returns what stands in front of the first record: nothing.
    pub(crate) fn none() -> Earlier
        ensures { result.len ≡ 0 }
    {
        Earlier {
            tokens: [0; ROW_ROOM],
            households: [0; ROW_ROOM],
            len: 0,
        }
    }

    // Returns how many records stand in front.
    pub(crate) fn len(&self) -> usize
        ensures { result ≡ self.now.len }
    {
        self.len
    }

    // Takes the next record of a list, or returns why it is refused: 17 before 19 before 20.
    pub(crate) fn admit(&mut self, bytes: &[u8]) -> Result<(), Refusal>
        requires { self.old.len < row_room }
        ensures answer { answer_number result ≡ answer_behind self.old bytes.now }
        ensures joined { IfOk result (λ u. Joined self.old (entry_at bytes.now 0) self.new) }
        ensures left { IfErr result (λ r. self.new ≡ self.old) }
    {
        if !stands(bytes, Position(0), RECORD_LENGTH, ENTRY_KIND) {
            return Err(Refusal::BrokenRecord);
        }
        let entry = entry_in(bytes);
        if stands_among(&self.tokens[..self.len], entry.token) {
            return Err(Refusal::RepeatedToken);
        }
        if stands_among(&self.households[..self.len], entry.household) {
            return Err(Refusal::RepeatedHousehold);
        }
        self.tokens[self.len] = entry.token;
        self.households[self.len] = entry.household;
        self.len += 1;
        Ok(())
    }
}
