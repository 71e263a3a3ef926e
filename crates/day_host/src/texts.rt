// The two texts of every display: its capabilities string, and the call list.
// The list is 85 records of a token and a household.

// The bytes of the capabilities string.
const STRING_SIZE: usize = 53;

// Its bytes with the two zeros behind it.
pub const TEXT_SIZE: usize = 55;

// The bytes of a record: its length (10), its kind (32), token and household, the low byte first.
const RECORD: usize = 12;

// How many records the list has.
const RECORDS: u32 = 85;

// The bytes of the list.
pub const LIST_SIZE: usize = RECORD * RECORDS as usize;

// The token of the first record. The tokens rise by one.
const FIRST_TOKEN: u32 = 101;

// The lowest household.
const FIRST_HOUSEHOLD: u32 = 2000;

// The step from one record's household to the next: they come in a mixed order, each once.
const HOUSEHOLD_STEP: u32 = 31;

// Returns the capabilities string, with two zeros behind it.
pub fn capabilities() -> [u8; TEXT_SIZE] {
    *b"(prot(monitor)vcp(01 10 12 60(0F 11)F4)mccs_ver(2.2))\0\0"
}

// Returns how many of these bytes a display has.
// The first one has the string alone, the second one ends it with zeros, as many monitors do.
pub fn capabilities_size(number: u64) -> usize {
    if number == 1 { STRING_SIZE } else { TEXT_SIZE }
}

// Returns record r of the list.
fn record(r: u32) -> [u8; RECORD] {
    let r = r % RECORDS;
    let [t0, t1, t2, t3] = (FIRST_TOKEN + r).to_le_bytes();
    let [h0, h1, h2, h3] = (FIRST_HOUSEHOLD + r * HOUSEHOLD_STEP % RECORDS).to_le_bytes();
    [10, 0, 32, 0, t0, t1, t2, t3, h0, h1, h2, h3]
}

// Returns the call list.
pub fn call_list() -> [u8; LIST_SIZE] {
    let mut list = [0u8; LIST_SIZE];
    let (records, _) = list.as_chunks_mut::<RECORD>();
    for (place, r) in records.iter_mut().zip(0..RECORDS) {
        *place = record(r);
    }
    list
}
