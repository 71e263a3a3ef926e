// 06:00, behind the reading: the gates check the list that they read.
// The households of its first four records are 2000, 2031, 2062 and 2008.
use buffers::{put, put_octet};
use call_list_rules::EntryNumber;
use day_report::checks;
use message_rules::refusal::{Refusal, RefusedAt};
use message_rules::{Position, answer};

// The bytes of the list.
// Written down once more: the gates judge by numbers of their own, not by the tent's.
const LIST_SIZE: usize = 1020;

// How many households it calls.
const HOUSEHOLDS: usize = 85;

// A household of the list.
const HOUSEHOLD: u32 = 2008;

// The number of its entry.
const ENTRY: EntryNumber = EntryNumber(3);

// The byte at which that entry starts.
const START: Position = Position(36);

// Where the low byte of its household stands in the list.
const LOW_BYTE: usize = 44;

// The low byte of household 2000, in place of D8: one bit is flipped.
const OTHER_LOW_BYTE: u8 = 0xD0;

// Writes which entry calls the household.
// Returns whether it is the one that should.
fn called(found: Result<Option<EntryNumber>, RefusedAt>) -> bool {
    match found {
        Ok(Some(number)) => {
            checks::called(HOUSEHOLD, number.0);
            number == ENTRY
        }
        _ => {
            checks::never_called(HOUSEHOLD);
            false
        }
    }
}

// Writes what the check and a query say of the list that was read.
// Returns whether it calls every household once.
fn accepted(list: &[u8]) -> bool {
    match call_list::check(list) {
        Ok(entries) => {
            checks::checked(entries);
            called(call_list::find(list, HOUSEHOLD)) && entries == HOUSEHOLDS
        }
        Err(refused) => {
            checks::answered(
                b"    the gate's check: ",
                u8::from(refused.refusal),
                refused.position.0,
            );
            false
        }
    }
}

// Writes what the check says of a copy that calls household 2000 twice.
// Returns whether it is refused at the second call.
fn refused(list: &[u8]) -> bool {
    let mut copy = [0u8; LIST_SIZE];
    put(&mut copy, 0, list);
    put_octet(&mut copy, LOW_BYTE, OTHER_LOW_BYTE);
    let checked = call_list::check(&copy);
    let (answer, position) = match checked {
        Ok(_) => (answer::DONE, LIST_SIZE),
        Err(refused) => (u8::from(refused.refusal), refused.position.0),
    };
    checks::answered(
        b"    a copy with household 2000 in place of 2008: ",
        answer,
        position,
    );
    checked
        == Err(RefusedAt {
            refusal: Refusal::RepeatedHousehold,
            position: START,
        })
}

// Returns whether a display's list is checked as it should be; of the first display a damaged copy too.
pub(crate) fn checked(number: u64, list: &[u8]) -> bool {
    accepted(list) && (number != 1 || refused(list))
}
