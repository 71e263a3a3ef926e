// Writing the table.
ghost use Rattle.std.specs.Prelude.{◌≡◌, ◌+◌, ◌≤◌, ◌<◌};
ghost use Rattle.message_rules.specs.Refusal.{answer_number};
ghost use Rattle.display_rules.specs.Limits.{table_room};
ghost use Rattle.display_rules.specs.Table.{write_answer, length_after};
ghost use Rattle.display_texts.specs.Writes.{Writes};

use buffers::put;
use display_rules::limits::TABLE_ROOM;
use message_rules::refusal::Refusal;
use message_rules::{TABLE_CODE, TextOffset};

// Accepts a write of n bytes at an offset of a table of `old` bytes, or refuses it.
#[tactic(auto, unfolding(display_rules::specs::Table::write_answer))]
fn write_answer(code: u8, old: u16, at: TextOffset, n: usize) -> Result<(), Refusal>
    requires { n < 9223372036854775808 }
    ensures { answer_number result ≡ write_answer code old at.0 n }
{
    if code != TABLE_CODE {
        return Err(Refusal::CodeNotAllowed);
    }
    if old < at.0 {
        return Err(Refusal::NotWanted);
    }
    if TABLE_ROOM < usize::from(at.0) + n {
        return Err(Refusal::TextTooLong);
    }
    Ok(())
}

// Returns the table's length after that write.
#[tactic(auto, unfolding(display_rules::specs::Table::length_after))]
fn length_after(old: u16, at: TextOffset, n: u16) -> u16
    requires { at.0 + n ≤ table_room }
    ensures { result ≡ length_after old at.0 n }
{
    if at.0 == 0 {
        return n;
    }
    old.max(at.0 + n)
}

// Writes the bytes at an offset of a table of `old` bytes, into the table's buffer.
// Returns the table's length afterwards. Refused, the buffer is as it was, and so is the length.
// The refusal is 1 for a buffer that is too small; no step passes one on.
pub fn write(
    old: u16,
    table: &mut [u8],
    code: u8,
    at: TextOffset,
    data: &[u8],
) -> Result<u16, Refusal>
    ensures { Writes old code at.0 «data».now table.old table.new result }
{
    let short = table.len() < TABLE_ROOM;
    if short {
        return Err(Refusal::WrongSize);
    }
    write_answer(code, old, at, data.len())?;
    put(table, usize::from(at.0), data);
    Ok(length_after(old, at, data.len() as u16))
}
