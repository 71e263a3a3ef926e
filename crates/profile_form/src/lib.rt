// The records of a settings profile, and judging one by its form alone: each function is proved equal to its definition in
// profile_form_rules for every slice.
#![tactic(auto)]

ghost use Rattle.std.specs.Prelude.{◌≡◌, false, length, MatchOption};
ghost use Rattle.profile_form_rules.specs.Records.{begins_with_record};
ghost use Rattle.profile_form_rules.specs.Form.{setting_in, First, judged_as, judge_form};

use message_rules::Position;
use message_rules::refusal::{Refusal, RefusedAt};
use profile_form_rules::{CODE_AT, RECORD_LENGTH, RECORD_SIZE, Setting, VALUE_AT, VALUE_KIND};

// Returns what the bytes of a record say, whatever their length and kind.
pub fn said(bytes: &[u8; RECORD_SIZE]) -> Setting
    ensures { result ≡ setting_in bytes.now }
{
    Setting {
        code: bytes[CODE_AT],
        value: u16::from_le_bytes([bytes[VALUE_AT], bytes[VALUE_AT + 1]]),
    }
}

// Returns what the record of kind 1 says that bytes begin with, and the bytes behind it.
// Returns None where they begin with no such record.
pub fn first_record(bytes: &[u8]) -> Option<(Setting, &[u8])>
    ensures { MatchOption result (begins_with_record bytes.now ≡ false) (λ p. First bytes.now p.0 p.1.now) }
{
    let (record, behind) = bytes.split_first_chunk::<RECORD_SIZE>()?;
    let len = u16::from_le_bytes([record[0], record[1]]);
    let kind = u16::from_le_bytes([record[2], record[3]]);
    let is_record = (len, kind) == (RECORD_LENGTH, VALUE_KIND);
    if is_record {
        return Some((said(record), behind));
    }
    None
}

// Judges a profile: records of kind 1 with rising codes, none twice.
// A refusal is 17, where the first record starts that is not so.
pub fn judge(profile: &[u8]) -> Result<(), RefusedAt>
    ensures { judged_as (length profile.now) result ≡ judge_form profile.now }
{
    let mut left = profile;
    let mut lowest: u16 = 0;
    while !left.is_empty() {
        match first_record(left) {
            Some((setting, behind)) if lowest <= u16::from(setting.code) => {
                lowest = u16::from(setting.code) + 1;
                left = behind;
            }
            _ => {
                return Err(RefusedAt {
                    refusal: Refusal::BrokenRecord,
                    position: Position(profile.len() - left.len()),
                });
            }
        }
    }
    Ok(())
}
