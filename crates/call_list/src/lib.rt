// The gate check: whether a call list is accepted, where a household stands in it, and its entries.
// Each function is proved equal to its definition in call_list_rules, for every slice.
//
// Each record is compared with every earlier one: there are at most 85.
#![tactic(auto)]

mod earlier;

ghost use Rattle.std.specs.Prelude.{◌≡◌, ◌/◌, length};
ghost use Rattle.call_list_rules.specs.Limits.{record_size};
ghost use Rattle.call_list_rules.specs.CallList.{start_of, household_of, checked_as, check_list, search_from, found_as, find_household, entry_of};

use call_list_rules::limits::{LONGEST_LIST, RECORD_SIZE};
use call_list_rules::{Entry, EntryNumber};
use earlier::{Earlier, entry_in};
use message_rules::Position;
use message_rules::refusal::{Refusal, RefusedAt};

// Checks a call list.
// Returns the number of its entries, or why the first record is refused that is, and where it starts.
pub fn check(list: &[u8]) -> Result<usize, RefusedAt>
    ensures { checked_as result ≡ check_list list.now }
{
    if list.len() > LONGEST_LIST {
        return Err(RefusedAt {
            refusal: Refusal::TextTooLong,
            position: Position(0),
        });
    }
    let mut earlier = Earlier::none();
    for record in list.chunks(RECORD_SIZE) {
        if let Err(refusal) = earlier.admit(record) {
            let position = Position(earlier.len() * RECORD_SIZE);
            return Err(RefusedAt { refusal, position });
        }
    }
    Ok(earlier.len())
}

// Finds a household in a call list.
// Returns the number of its entry, or that it has none. A list that is not accepted gives its refusal.
pub fn find(list: &[u8], household: u32) -> Result<Option<EntryNumber>, RefusedAt>
    ensures { found_as result ≡ find_household list.now household }
{
    check(list)?;
    Ok(search(list, household))
}

// Returns the number of the first whole record that has a household.
fn search(list: &[u8], household: u32) -> Option<EntryNumber>
    ensures { result ≡ search_from (household_of list.now) household (length list.now / record_size) 0 }
{
    let (records, _) = list.as_chunks::<RECORD_SIZE>();
    let k = records
        .iter()
        .position(|record| entry_in(record).household == household)?;
    Some(EntryNumber(k))
}

// Returns the entry with this number, of a list that was accepted; past its entries, token and household 0.
// Of any other list it is what stands there.
// Zeros, not an Option, as `entry_of` has them: C's entry has no field that would say so.
pub fn entry(list: &[u8], number: EntryNumber) -> Entry
    ensures { result ≡ entry_of list.now number.0 }
{
    let (records, _) = list.as_chunks::<RECORD_SIZE>();
    match records.get(number.0) {
        Some(record) => entry_in(record),
        None => Entry {
            token: 0,
            household: 0,
        },
    }
}
