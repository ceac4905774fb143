//! The steps of a reader's end that a caller asks for, with their outcomes and bytes.
ghost use Rattle.std.specs.Prelude.{◌≡◌, ◌≤◌, length};
ghost use Rattle.t1_link.specs.ReaderFields.{HasAnswer, left_in, next_of};
ghost use Rattle.t1_link.specs.declared.reader_end.Phase.TheVariants.{Busy};
ghost use Rattle.card_calls.specs.Telling.{CopiesOut, outcome_number};
ghost use Rattle.card_calls.specs.declared.sizes.TheConstants.{ROOM};
ghost use Rattle.card_calls.specs.CopiedParts.{next_bytes, next_outcome};
ghost use Rattle.card_calls.specs.ReaderCalls.{BeginsCommand, ReceivesBlock, failure_outcome, reader_hears};

use crate::outcome::{CallOutcome, copy};
use crate::sizes::{ROOM, command_fits};
use t1_link::{BlockBytes, Failure, Next, ReaderEnd};

/// Begins a command, and copies its first block out. Returns the outcome, and the number of bytes.
pub fn begin(reader: &mut ReaderEnd, command: &[u8], out: &mut [u8]) -> (CallOutcome, usize)
    ensures { BeginsCommand command.now reader.old reader.new out.old out.new result.1 (outcome_number result.0) }
{
    if !command_fits(command, out) {
        return (CallOutcome::Size, 0);
    }
    if reader.busy() {
        return (CallOutcome::OutOfTurn, 0);
    }
    let mut block = BlockBytes::new();
    let next = reader.send(command, &mut block);
    copy_step(next, reader, &block, out)
}

/// Passes a received block of any bytes on, or that none came in time, if it has no bytes. Copies the next block or the
/// answer out. Returns the outcome, and the number of bytes.
pub fn receive(reader: &mut ReaderEnd, received: &[u8], out: &mut [u8]) -> (CallOutcome, usize)
    ensures { ReceivesBlock received.now reader.old reader.new out.old out.new result.1 (outcome_number result.0) }
{
    if out.len() < ROOM {
        return (CallOutcome::Size, 0);
    }
    if !reader.busy() {
        return (CallOutcome::OutOfTurn, 0);
    }
    let mut block = BlockBytes::new();
    let next = hear(reader, received, &mut block);
    copy_step(next, reader, &block, out)
}

/// Lets the reader's end take a block, or time out.
fn hear(reader: &mut ReaderEnd, received: &[u8], block: &mut BlockBytes) -> Next
    requires { reader.old.phase ≡ Busy }
    ensures state { reader.new ≡ (reader_hears reader.old received.now).reader }
    ensures next { result ≡ next_of (reader_hears reader.old received.now).outcome }
    ensures block { block.new ≡ left_in (reader_hears reader.old received.now).outcome block.old }
    ensures answer { HasAnswer (reader_hears reader.old received.now).outcome reader.new }
{
    if received.is_empty() {
        reader.timed_out(block)
    } else {
        reader.got(received, block)
    }
}

/// Copies the bytes of a step out: the block to send, or the answer.
fn copy_step(
    next: Next,
    reader: &ReaderEnd,
    block: &BlockBytes,
    out: &mut [u8],
) -> (CallOutcome, usize)
    requires { ROOM ≤ length out.old }
    ensures outcome { result.0 ≡ next_outcome next }
    ensures bytes { CopiesOut (next_bytes next block.now reader.now.answer) out.old out.new result.1 }
{
    match next {
        Next::Send => (CallOutcome::Send, copy(block.as_slice(), out)),
        Next::Done => (CallOutcome::Done, copy(reader.answer(), out)),
        Next::Unknown => (CallOutcome::Resynched, 0),
        Next::Failed(failure) => (failed(failure), 0),
    }
}

/// Returns the outcome of a failure.
fn failed(failure: Failure) -> CallOutcome
    ensures { result ≡ failure_outcome failure }
{
    match failure {
        Failure::LinkLost => CallOutcome::Lost,
        Failure::BadAnswer => CallOutcome::BadAnswer,
    }
}
