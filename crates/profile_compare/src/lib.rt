// Comparing two settings profiles, proved equal to its definition in profile_compare_rules for all slices.
//
// Both profiles are judged first. The codes of accepted ones rise, so one walk goes through both side by side: at each step
// it takes the lowest code that comes next in either, until one of them has ended.
#![tactic(auto)]

ghost use Rattle.std.specs.Prelude.{ℕ, ◌≡◌, ◌+◌, ◌*◌, ◌<◌, ◌≤◌, ◌∷◌, [], ◌⊎◌, length, get_or, ltb, MatchOption, MatchResult};
ghost use Rattle.message_rules.specs.Answer.{done};
ghost use Rattle.message_rules.specs.Refusal.{number_of};
ghost use Rattle.profile_form_rules.specs.Form.{settings_of, judge_form, refused_as};
ghost use Rattle.profile_compare_rules.specs.Compare.{lent, room_in, listed_in, outcome, refusal, list_differences, compare_profiles};
ghost use Rattle.profile_compare.specs.Parts.{list_of, listed, Next, rest_in};

use message_rules::Position;
use message_rules::answer::DONE;
use message_rules::refusal::{Refusal, RefusedAt};
use profile_compare_rules::{ABSENT, Compared, FIRST, MOST_DIFFERENCES, NEITHER, SECOND};
use profile_form::{judge, said};
use profile_form_rules::{RECORD_SIZE, Setting};

// What two profiles say of a code: the value of each that has it.
#[derive(Clone, Copy)]
struct Values {
    code: u8,
    first: Option<u16>,
    second: Option<u16>,
}

// The records of an accepted profile, or those left of it.
#[derive(Clone, Copy)]
struct Records<'a> {
    bytes: &'a [u8],
    ghost accepted: { (judge_form bytes.now).answer ≡ done },
    ghost fits: { (k : ℕ) → get_or bytes.now k 0 < 256 },
}

impl<'a> Records<'a> {
    // Returns what the first record says, and the records behind it; None where there is none.
    fn split(self) -> Option<(Setting, Records<'a>)>
        ensures { MatchOption result (self.entry.bytes.now ≡ []) (λ p. (settings_of self.entry.bytes.now ≡ p.0 ∷ settings_of p.1.bytes.now) × (length self.entry.bytes.now ≡ length p.1.bytes.now + 7)) }
    {
        let (first, behind) = self.bytes.split_first_chunk::<RECORD_SIZE>()?;
        Some((said(first), Records { bytes: behind }))
    }

    // Returns how many records there are.
    fn count(self) -> usize
        ensures { result ≡ length (settings_of self.entry.bytes.now) }
    {
        self.bytes.len() / RECORD_SIZE
    }
}

// What is left of two accepted profiles.
#[derive(Clone, Copy)]
struct Both<'a> {
    first: Records<'a>,
    second: Records<'a>,
}

impl<'a> Both<'a> {
    // Takes the lowest code that comes next in either, and returns what both profiles say of it.
    // Returns None, and takes nothing, where one of them has ended.
    fn next(&mut self) -> Option<Values>
        ensures { MatchOption result (((self.old.first.bytes.now ≡ []) ⊎ (self.old.second.bytes.now ≡ [])) × (self.new ≡ self.old)) (λ v. Next self.old.first.bytes.now self.old.second.bytes.now v self.new.first.bytes.now self.new.second.bytes.now) }
    {
        let (one, behind_one) = self.first.split()?;
        let (other, behind_other) = self.second.split()?;
        if one.code == other.code {
            self.first = behind_one;
            self.second = behind_other;
            return Some(Values {
                code: one.code,
                first: Some(one.value),
                second: Some(other.value),
            });
        }
        if one.code < other.code {
            self.first = behind_one;
            return Some(Values {
                code: one.code,
                first: Some(one.value),
                second: None,
            });
        }
        self.second = behind_other;
        Some(Values {
            code: other.code,
            first: None,
            second: Some(other.value),
        })
    }

    // Returns how many differences they have. Where one has ended, each record left in the other is one.
    fn count(mut self) -> usize
        ensures { result ≡ length (list_of self.entry.first.bytes.now self.entry.second.bytes.now) }
    {
        let mut n: usize = 0;
        while let Some(values) = self.next() {
            if values.first != values.second {
                n += 1;
            }
        }
        n + self.first.count() + self.second.count()
    }
}

// Returns a value as it is listed, or what stands for one that is absent.
fn listed(value: Option<u16>) -> u32
    ensures { result ≡ listed value }
{
    value.map_or(ABSENT, u32::from)
}

// Lists each record left in a profile as a difference from a profile that has ended.
// Its code, its value and absent for the other's value stand at its entry of the arrays: the first at the entry given.
// Returns the number of the entry behind the last.
// The arrays have an index: of what is written through an adapter of `iter_mut` the check knows nothing.
fn list_rest(
    mut left: Records,
    codes: &mut [u8],
    values: &mut [u32],
    others: &mut [u32],
    entry: usize,
) -> usize
    requires { entry + length (settings_of left.bytes.now) ≤ room_in (lent codes.old values.old others.old) }
    ensures value { result ≡ entry + length (settings_of left.entry.bytes.now) }
    ensures others_after { lent codes.new values.new others.new ≡ rest_in entry (settings_of left.entry.bytes.now) (lent codes.old values.old others.old) }
{
    let mut n = entry;
    while let Some((setting, behind)) = left.split() {
        codes[n] = setting.code;
        values[n] = u32::from(setting.value);
        others[n] = ABSENT;
        left = behind;
        n += 1;
    }
    n
}

// Lists the differences of two profiles, each at its entry of an array of codes and two of values.
// Returns how many they are.
// What is left of one profile is listed behind the loop, not as further cases of `next`: these took the walk through 256 codes
// that all differ a quarter longer, and that beside an empty profile more than twice as long.
// Three arrays, not one of lines: C hands them over one by one.
fn list(mut both: Both, codes: &mut [u8], firsts: &mut [u32], seconds: &mut [u32]) -> usize
    requires { length (list_of both.first.bytes.now both.second.bytes.now) ≤ room_in (lent codes.old firsts.old seconds.old) }
    ensures value { result ≡ length (list_of both.entry.first.bytes.now both.entry.second.bytes.now) }
    ensures seconds_after { lent codes.new firsts.new seconds.new ≡ listed_in (list_of both.entry.first.bytes.now both.entry.second.bytes.now) (lent codes.old firsts.old seconds.old) }
{
    let mut n: usize = 0;
    while let Some(values) = both.next() {
        if values.first != values.second {
            codes[n] = values.code;
            firsts[n] = listed(values.first);
            seconds[n] = listed(values.second);
            n += 1;
        }
    }
    let after = list_rest(both.first, codes, firsts, seconds, n);
    list_rest(both.second, codes, seconds, firsts, after)
}

// Returns whether the differences of two profiles are more than the room.
// They are at most one a code: where there is room for so many, they are not counted.
fn too_many(both: Both, room: usize) -> bool
    ensures { result ≡ ltb room (length (list_of both.entry.first.bytes.now both.entry.second.bytes.now)) }
{
    room < MOST_DIFFERENCES && room < both.count()
}

// Returns a refusal: which profile, and its number and where.
fn refused(profile: u8, at: RefusedAt) -> Compared
    ensures { result ≡ refusal (number_of at.refusal) profile at.position.0 }
{
    Compared {
        answer: u8::from(at.refusal),
        profile,
        differences: 0,
        position: at.position,
    }
}

// Lists the differences of two profiles, or refuses with 1 where the shortest array is too short for them.
fn list_or_refuse(both: Both, codes: &mut [u8], firsts: &mut [u32], seconds: &mut [u32]) -> Compared
    ensures { outcome result (lent codes.new firsts.new seconds.new) ≡ list_differences (list_of both.entry.first.bytes.now both.entry.second.bytes.now) (lent codes.old firsts.old seconds.old) }
{
    let room = codes.len().min(firsts.len().min(seconds.len()));
    if too_many(both, room) {
        return refused(
            NEITHER,
            RefusedAt {
                refusal: Refusal::WrongSize,
                position: Position(0),
            },
        );
    }
    Compared {
        answer: DONE,
        profile: NEITHER,
        differences: list(both, codes, firsts, seconds),
        position: Position(0),
    }
}

// Returns the records of a profile, where it is accepted by its form.
fn accepted(profile: &[u8]) -> Result<Records<'_>, RefusedAt>
    ensures { MatchResult result (λ records. records.bytes.now ≡ profile.now) (λ e. refused_as e ≡ judge_form profile.now) }
{
    judge(profile)?;
    Ok(Records { bytes: profile })
}

// Compares two profiles, and lists the codes that are in one only or whose values differ, rising.
// Each stands at its entry of the codes, with its value of the first profile and of the second in the other two arrays.
// A profile that does not have the code has the value 65,536 there.
// Returns how many differences are listed; or 17 with the profile and where its first bad record starts, the first
// profile before the second; then 1 where an array is too short. A refusal lists nothing.
// The struct for C, not a Result: its error, a profile and a refusal, would be a type for this function alone.
pub fn compare(
    first: &[u8],
    second: &[u8],
    codes: &mut [u8],
    firsts: &mut [u32],
    seconds: &mut [u32],
) -> Compared
    ensures { outcome result (lent codes.new firsts.new seconds.new) ≡ compare_profiles first.now second.now (lent codes.old firsts.old seconds.old) }
{
    let first = match accepted(first) {
        Ok(records) => records,
        Err(at) => return refused(FIRST, at),
    };
    let second = match accepted(second) {
        Ok(records) => records,
        Err(at) => return refused(SECOND, at),
    };
    list_or_refuse(Both { first, second }, codes, firsts, seconds)
}
