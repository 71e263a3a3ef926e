// Putting a message into the output: what the builders of requests and of replies share.
#![tactic(auto)]

ghost use Rattle.std.specs.Prelude.{◌≡◌, true, ◌++◌, ◌+◌, ◌<◌, length, set};
ghost use Rattle.message_rules.specs.Frame.{closed};
ghost use Rattle.message_output.specs.Output.{BuildsShort, refusal};

use message_rules::limits;
use message_rules::refusal::Refusal;

// Puts the checksum behind the first n bytes.
// Returns how many bytes there are then.
fn close(sum: u8, n: usize, out: &mut [u8]) -> usize
    requires { n < length out.old }
    ensures { (result ≡ n + 1) × (out.new ≡ set out.old n sum) }
{
    out[n] = sum;
    n + 1
}

// Puts a message into the output: the head with the fields, the data, and the checksum behind them.
// Returns its length, or a refusal: 1 where the output has under 38 bytes, 7 where the message has more.
// No builder has such a message: its own heads and limits say so, and the compiled code has no test of it.
// The checksum is taken of head and data as they were given.
// It is not taken of the output, whose bytes have only just been stored.
// That of a head, whose length the compiler knows in each builder, is taken singly: it is then a few instructions.
pub fn build(seed: u8, head: &[u8], data: &[u8], out: &mut [u8]) -> Result<usize, Refusal>
    ensures { BuildsShort true (closed seed (head.now ++ «data».now)) out.old out.new result }
{
    if out.len() < limits::OUTPUT_ROOM {
        return Err(Refusal::WrongSize);
    }
    if limits::OUTPUT_ROOM <= head.len() + data.len() {
        return Err(Refusal::WrongField);
    }
    let sum = checksum::checksum(checksum::singly(seed, head), data);
    let at = buffers::copy(head, out);
    let more = buffers::copy(data, &mut out[at..]);
    Ok(close(sum, at + more, out))
}

// Returns the refusal of a message that is not allowed: 7.
// The output's size is judged first: under 38 bytes the refusal is 1.
pub fn refuse(out: &[u8]) -> Result<usize, Refusal>
    ensures { result ≡ refusal (length out.now) }
{
    if out.len() < limits::OUTPUT_ROOM {
        return Err(Refusal::WrongSize);
    }
    Err(Refusal::WrongField)
}

// Puts the message of a head alone into the output, or refuses it where a field of it is not allowed.
// Returns its length, or the refusal.
// A flag, so that a builder with a test of its fields is one line.
pub fn build_if(allowed: bool, seed: u8, head: &[u8], out: &mut [u8]) -> Result<usize, Refusal>
    ensures { BuildsShort allowed (closed seed head.now) out.old out.new result }
{
    if allowed {
        return build(seed, head, b"", out);
    }
    refuse(out)
}
