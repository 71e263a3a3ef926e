// The gate check of call lists for C.
ghost use Rattle.std.specs.Prelude.{◌≡◌};
ghost use Rattle.call_list_rules.specs.CallList.{check_list, find_household, entry_of};
ghost use Rattle.ddcci.specs.Calls.{household_numbers};

use call_list_rules::{Checked, Entry};
use ddcci::calls::HouseholdNumbers;

// Checks a call list.
// Returns 0 with the number of its entries, or the answer to the first record that is refused and where it starts.
#[unsafe(no_mangle)]
pub extern "C" fn ddcci_check_call_list(list: &[u8]) -> Checked
    ensures { result ≡ check_list list.now }
{
    ddcci::calls::ddcci_check_call_list(list)
}

// Finds a household in a call list.
// Returns the number of its entry, or that it has none. A list that is not accepted gives its refusal.
#[unsafe(no_mangle)]
pub extern "C" fn ddcci_find_household(list: &[u8], household: u32) -> HouseholdNumbers
    ensures { result ≡ household_numbers (find_household list.now household) }
{
    ddcci::calls::ddcci_find_household(list, household)
}

// Returns the entry with this number, of a list that was accepted; past its entries, token and household 0.
// Of any other list it is what stands there.
#[unsafe(no_mangle)]
pub extern "C" fn ddcci_call_list_entry(list: &[u8], number: usize) -> Entry
    ensures { result ≡ entry_of list.now number }
{
    ddcci::calls::ddcci_call_list_entry(list, number)
}
