//! A device write as a caller in C gets it.
ghost use Rattle.std.specs.Prelude.{◌≤◌, length};
ghost use Rattle.card_calls.specs.WriteCalls.{CopiesWrite};
ghost use Rattle.card_calls.specs.declared.write.TheConstants.{WRITE_BYTES};

use crate::outcome::{CallOutcome, copy};
use crate::write::Write;

/// Copies a device write out, if there is one, and returns the number of the outcome.
pub fn copy_write(
    told: Result<Option<Write>, CallOutcome>,
    out: &mut [u8],
    offset: &mut usize,
    size: &mut usize,
) -> i32
    requires { WRITE_BYTES ≤ length out.old }
    ensures { CopiesWrite told out.old out.new offset.new size.new result }
{
    match told {
        Ok(None) => {
            *size = 0;
            CallOutcome::Done.number()
        }
        Ok(Some(write)) => {
            *offset = write.offset();
            *size = copy(&write.bytes(), out);
            CallOutcome::Done.number()
        }
        Err(outcome) => {
            *size = 0;
            outcome.number()
        }
    }
}
