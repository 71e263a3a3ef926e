// Writing and loading the settings profile, each proved equal to its definition in profile_rules.
//
// Both walk the profile's codes by the next code of one set.
// The set has the codes that are declared, readable and writable and not momentary.
// Loading judges the profile in a first pass that stores nothing, so that a refusal has nothing to undo.
// Settings and profile are given one by one: a state goes by value, and a profile is lent.
#![tactic(auto)]

ghost use Rattle.std.specs.Prelude.{◌≡◌, ◌+◌, ◌*◌, ◌/◌, ◌≤◌, ◌<◌, length, drop, MatchResult};
ghost use Rattle.buffers.specs.Buffers.{put};
ghost use Rattle.codes.specs.Codes.{member};
ghost use Rattle.message_rules.specs.Answer.{done};
ghost use Rattle.message_rules.specs.Refusal.{number_of};
ghost use Rattle.profile_form_rules.specs.Form.{judged_as};
ghost use Rattle.profile_form_rules.specs.Records.{value_record, record_size};
ghost use Rattle.profile_rules.specs.Profile.{codes_from, records_of, written_as, write_profile, record_answer, judge_profile, loaded_as, load_profile};
ghost use Rattle.profile.specs.Parts.{profile_word, profile_words, stored_records};

use message_rules::Position;
use message_rules::refusal::{Refusal, RefusedAt};
use profile_form::{first_record, said};
use profile_form_rules::{CODE_AT, RECORD_LENGTH, RECORD_SIZE, VALUE_AT, VALUE_KIND};
use records::{put_byte, put_head, put_word};
use settings_rules::Settings;

// Returns one word of the set of the profile's codes: the bits of the first three sets together, without those of the fourth.
#[tactic(auto, unfolding(crate::specs::Parts::profile_word))]
fn profile_word(d: [u64; 4], r: [u64; 4], w: [u64; 4], m: [u64; 4], i: usize) -> u64
    requires { i < 4 }
    ensures { result ≡ profile_word d r w m i }
{
    let momentary = m[i];
    ((d[i] & r[i] & w[i]) | momentary) ^ momentary
}

// Returns the set of the profile's codes, from the sets of those that are declared, readable, writable and momentary.
#[tactic(auto, unfolding(crate::specs::Parts::profile_words))]
fn profile_codes(d: [u64; 4], r: [u64; 4], w: [u64; 4], m: [u64; 4]) -> [u64; 4]
    ensures { result ≡ profile_words d r w m }
{
    [
        profile_word(d, r, w, m, 0),
        profile_word(d, r, w, m, 1),
        profile_word(d, r, w, m, 2),
        profile_word(d, r, w, m, 3),
    ]
}

// Puts the record of a code and its value into the output at a position.
fn put_record(out: &mut [u8], at: Position, code: u8, value: u16)
    requires { at.0 + record_size ≤ length out.old }
    ensures { out.new ≡ put out.old at.0 (value_record code value) }
{
    put_head(out, at, RECORD_LENGTH, VALUE_KIND);
    put_byte(out, Position(at.0 + CODE_AT), code);
    put_word(out, Position(at.0 + VALUE_AT), value);
}

// Puts the records of all codes of the set into the output, from its start on.
fn put_records(words: [u64; 4], saved: &[u16; 256], out: &mut [u8])
    requires { record_size * length (codes_from (member words) 0) ≤ length out.old }
    ensures { out.new ≡ put out.old 0 (records_of saved.now (codes_from (member words) 0)) }
{
    let mut at: usize = 0;
    let mut from: u16 = 0;
    while let Some(code) = codes::next_from(words, from) {
        put_record(out, Position(at), code, saved[usize::from(code)]);
        at += RECORD_SIZE;
        from = u16::from(code) + 1;
    }
}

// Writes the profile: one record for each of its codes, with the saved value.
// Returns the profile's length; a refusal is 1, with nothing written, where the output is too short.
pub fn write(s: Settings, out: &mut [u8]) -> Result<usize, Refusal>
    ensures { record { result = written_as result; output = out.new } ≡ write_profile s out.old }
{
    let words = profile_codes(s.declared, s.readable, s.writable, s.momentary);
    // By "as": a usize has no From of a u32.
    let length = codes::count(words) as usize * RECORD_SIZE;
    if out.len() < length {
        return Err(Refusal::WrongSize);
    }
    put_records(words, &s.saved, out);
    Ok(length)
}

// Judges the record that bytes begin with, where the next code is the one given.
// Returns the bytes behind it.
fn judge_record(bytes: &[u8], code: u8, continuous: bool, maximum: u16) -> Result<&[u8], Refusal>
    ensures { MatchResult result (λ behind. (record_answer code continuous maximum bytes.now ≡ done) × (behind.now ≡ drop record_size bytes.now)) (λ r. record_answer code continuous maximum bytes.now ≡ number_of r) }
{
    let Some((setting, behind)) = first_record(bytes) else {
        return Err(Refusal::BrokenRecord);
    };
    if setting.code != code {
        return Err(Refusal::CodeNotAllowed);
    }
    if settings::exceeds(continuous, maximum, setting.value) {
        return Err(Refusal::ValueTooLarge);
    }
    Ok(behind)
}

// Judges a profile, record by record, and stores nothing.
// A refusal is that of the first bad record, at its position.
fn judge_profile(s: Settings, profile: &[u8]) -> Result<(), RefusedAt>
    ensures { judged_as (length profile.now) result ≡ judge_profile s profile.now }
{
    let words = profile_codes(s.declared, s.readable, s.writable, s.momentary);
    let mut left = profile;
    let mut from: u16 = 0;
    while let Some(code) = codes::next_from(words, from) {
        let i = usize::from(code);
        let continuous = codes::contains(&s.continuous, code);
        match judge_record(left, code, continuous, s.maximum[i]) {
            Ok(behind) => left = behind,
            Err(refusal) => {
                let position = Position(profile.len() - left.len());
                return Err(RefusedAt { refusal, position });
            }
        }
        from = u16::from(code) + 1;
    }
    if left.is_empty() {
        return Ok(());
    }
    Err(RefusedAt {
        refusal: Refusal::BrokenRecord,
        position: Position(profile.len() - left.len()),
    })
}

// Returns the settings with the values of all records, each at the code that it names.
fn store(mut s: Settings, profile: &[u8]) -> Settings
    ensures { result ≡ stored_records (length profile.now / record_size) s profile.now }
{
    let mut left = profile;
    while let Some((first, behind)) = left.split_first_chunk::<RECORD_SIZE>() {
        let setting = said(first);
        let i = usize::from(setting.code);
        s.present[i] = setting.value;
        s.saved[i] = setting.value;
        left = behind;
    }
    s
}

// Loads a profile: returns the settings with present and saved of all its codes.
// A refusal is that of the first bad record, at its position.
pub fn load(s: Settings, profile: &[u8]) -> Result<Settings, RefusedAt>
    ensures { loaded_as s (length profile.now) result ≡ load_profile s profile.now }
{
    judge_profile(s, profile)?;
    Ok(store(s, profile))
}
