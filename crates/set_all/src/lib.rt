// Setting many codes in one call (document 02, K1).
// What it leaves is proved to be what that many Sets leave, one after the other.
#![tactic(auto)]

ghost use Rattle.std.specs.Prelude.{◌≡◌, ◌≤◌, not, length};
ghost use Rattle.codes.specs.Codes.{member};
ghost use Rattle.message_rules.specs.Answer.{done};
ghost use Rattle.message_rules.specs.Refusal.{answer_number};
ghost use Rattle.set_all_rules.specs.SetAll.{try_all, call_answer, left_by_all, set_all};
ghost use Rattle.set_all.specs.Parts.{answer_by, left_of};

use codes::{both, contains};
use message_rules::answer::DONE;
use message_rules::refusal::Refusal;
use set_all_rules::{AllSet, MOST_SETTINGS};
use settings::{exceeds, set_answer};
use settings_rules::Settings;

// Allows a call that is lent so many codes, values and answers, or refuses it: 1 before 7.
#[tactic(auto, unfolding(set_all_rules::specs::SetAll::call_answer))]
fn call_answer(codes: usize, values: usize, answers: usize) -> Result<(), Refusal>
    ensures { answer_number result ≡ call_answer codes values answers }
{
    if answers < codes {
        return Err(Refusal::WrongSize);
    }
    if codes > MOST_SETTINGS || codes != values {
        return Err(Refusal::WrongField);
    }
    Ok(())
}

// Accepts a Set of the code to the value or refuses it, by the parts of the settings that judge it.
// Settable are the codes that are declared and writable: what is asked of both is answered by being one of them.
fn answer_to(
    settable: &[u64; 4],
    continuous: &[u64; 4],
    maximum: &[u16; 256],
    code: u8,
    value: u16,
) -> Result<(), Refusal>
    ensures { answer_number result ≡ answer_by settable.now continuous.now maximum.now code value }
{
    let above = exceeds(
        contains(continuous, code),
        maximum[usize::from(code)],
        value,
    );
    let may = contains(settable, code);
    set_answer(may, code, may, above)
}

// Returns whether the value of a code is kept: that of a momentary one is not.
fn is_kept(momentary: &[u64; 4], code: u8) -> bool
    ensures { result ≡ not (member momentary.now code) }
{
    !contains(momentary, code)
}

// Tries one setting after the other, and writes the answer of each at its place.
// Returns the present values afterwards.
// All that judges a Set is taken out of the settings once, so that nothing large is copied for each.
// The answers have an index: of what is written through an adapter of `iter_mut` the check knows nothing.
fn try_all(s: Settings, codes: &[u8], values: &[u16], answers: &mut [u8]) -> [u16; 256]
    requires { (length codes.now ≤ length answers.old) × (length codes.now ≡ length values.now) }
    ensures { left_of s result done answers.new ≡ left_by_all (try_all s codes.now values.now) answers.old }
{
    let settable = both(s.declared, s.writable);
    let momentary = s.momentary;
    let continuous = s.continuous;
    let maximum = s.maximum;
    let mut present = s.present;
    for (k, code) in codes.iter().enumerate() {
        let value = values[k];
        match answer_to(&settable, &continuous, &maximum, *code, value) {
            Ok(()) => {
                answers[k] = DONE;
                if is_kept(&momentary, *code) {
                    present[usize::from(*code)] = value;
                }
            }
            Err(refusal) => answers[k] = u8::from(refusal),
        }
    }
    present
}

// Sets each code to its value, and writes what each comes to into the answers.
// Returns the present values afterwards and the call's own answer; refused, it tries nothing and writes nothing.
// Three slices, not one of settings: C hands them over one by one.
pub fn set_all(s: Settings, codes: &[u8], values: &[u16], answers: &mut [u8]) -> AllSet
    ensures { left_of s result.present result.answer answers.new ≡ set_all s codes.now values.now answers.old }
{
    match call_answer(codes.len(), values.len(), answers.len()) {
        Ok(()) => {
            let present = try_all(s, codes, values, answers);
            AllSet {
                present,
                answer: DONE,
            }
        }
        Err(refusal) => {
            let untried = s.present;
            AllSet {
                present: untried,
                answer: u8::from(refusal),
            }
        }
    }
}
