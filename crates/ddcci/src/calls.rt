// The gate check of call lists for Rust and C.
ghost use Rattle.std.specs.Prelude.{◌≡◌};
ghost use Rattle.call_list_rules.specs.CallList.{check_list, found_as, find_household, entry_of};
ghost use Rattle.ddcci.specs.Calls.{household_numbers};

use call_list_rules::{Checked, Entry, EntryNumber};
use message_rules::refusal::RefusedAt;
use message_rules::{Position, answer};

// What a query for a household returns, as C reads it.
// Numbers with an answer number beside, not a Result: C takes this struct as it is.
#[repr(C)]
#[derive(Clone, Copy, PartialEq, Eq)]
pub struct HouseholdNumbers {
    // The answer number.
    pub answer: u8,
    // 1 where an entry has the household, else 0.
    pub there: u8,
    // The number of that entry, counted from 0, or 0.
    pub number: usize,
    // The position that is refused, or 0.
    pub position: usize,
}

// Returns what a query found as numbers.
fn household_numbers(found: Result<Option<EntryNumber>, RefusedAt>) -> HouseholdNumbers
    ensures { result ≡ household_numbers (found_as found) }
{
    match found {
        Ok(Some(entry)) => HouseholdNumbers {
            answer: answer::DONE,
            there: 1,
            number: entry.0,
            position: 0,
        },
        Ok(None) => HouseholdNumbers {
            answer: answer::DONE,
            there: 0,
            number: 0,
            position: 0,
        },
        Err(refused) => HouseholdNumbers {
            answer: u8::from(refused.refusal),
            there: 0,
            number: 0,
            position: refused.position.0,
        },
    }
}

// Checks a call list.
// Returns 0 with the number of its entries, or the answer to the first record that is refused and where it starts.
pub fn ddcci_check_call_list(list: &[u8]) -> Checked
    ensures { result ≡ check_list list.now }
{
    match call_list::check(list) {
        Ok(entries) => Checked {
            answer: answer::DONE,
            entries,
            position: Position(list.len()),
        },
        Err(refused) => Checked {
            answer: u8::from(refused.refusal),
            entries: 0,
            position: refused.position,
        },
    }
}

// Finds a household in a call list.
// Returns the number of its entry, or that it has none. A list that is not accepted gives its refusal.
pub fn ddcci_find_household(list: &[u8], household: u32) -> HouseholdNumbers
    ensures { result ≡ household_numbers (find_household list.now household) }
{
    household_numbers(call_list::find(list, household))
}

// Returns the entry with this number, of a list that was accepted; past its entries, token and household 0.
// Of any other list it is what stands there.
pub fn ddcci_call_list_entry(list: &[u8], number: usize) -> Entry
    ensures { result ≡ entry_of list.now number }
{
    call_list::entry(list, EntryNumber(number))
}
