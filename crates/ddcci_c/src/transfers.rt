// Transfers for C: a transfer's state as numbers.
ghost use Rattle.std.specs.Prelude.{◌≡◌, length};
ghost use Rattle.ddcci.specs.Transfers.{begin_numbers, request_outcome, receive_numbers, Requests, Receives};

use ddcci::BuiltNumbers;
use ddcci::transfers::TransferNumbers;

// Returns a transfer of a text, with the buffer that it will fill and a budget of exchanges.
// A budget above 65,535 is refused with 18, an unknown text with 6; the transfer is then closed.
#[unsafe(no_mangle)]
pub extern "C" fn ddcci_begin(kind: u8, buffer: &[u8], budget: usize) -> TransferNumbers
    ensures { result ≡ begin_numbers kind (length buffer.now) budget }
{
    ddcci::transfers::ddcci_begin(kind, buffer, budget)
}

// Builds the request for the offset that the transfer has reached.
// Returns the answer and the request's length.
// An unknown text is 6, and nothing is written.
#[unsafe(no_mangle)]
pub extern "C" fn ddcci_request(n: TransferNumbers, out: &mut [u8]) -> BuiltNumbers
    ensures { Requests (request_outcome n out.old) result out.new }
{
    ddcci::transfers::ddcci_request(n, out)
}

// Receives the bytes that came back, with the buffer that the transfer was begun with.
// Returns the transfer afterwards, with the answer in it.
// An unknown text is 6, and nothing else changes.
#[unsafe(no_mangle)]
pub extern "C" fn ddcci_receive(
    n: TransferNumbers,
    buffer: &mut [u8],
    reply: &[u8],
) -> TransferNumbers
    ensures { Receives (receive_numbers n buffer.old reply.now) result buffer.new }
{
    ddcci::transfers::ddcci_receive(n, buffer, reply)
}
