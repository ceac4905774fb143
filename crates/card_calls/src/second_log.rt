//! The first write of an order, as the log of a second card's board has it.
ghost use Rattle.std.specs.Prelude.{◌≡◌, ◌⊎◌, None, IfSome};
ghost use Rattle.card_calls.specs.declared.write_log.NextWrite.TheVariants as next;
ghost use Rattle.card_calls.specs.Devices.{TellsNext, device_facts};

use crate::device::{DeviceBoard, next_write};
use crate::write::Write;
use crate::write_log::NextWrite;

/// Returns the first write that a second card's board made, or none.
pub fn first_write(board: &DeviceBoard) -> Option<Write>
    ensures one { IfSome result (λ w. TellsNext (device_facts board.now).log 0 (next.Write w)) }
    ensures none { result ≡ None → TellsNext (device_facts board.now).log 0 next.Nothing
        ⊎ TellsNext (device_facts board.now).log 0 next.Lost }
{
    match next_write(board, 0) {
        NextWrite::Nothing => None,
        NextWrite::Write(write) => Some(write),
        NextWrite::Lost => None,
    }
}
