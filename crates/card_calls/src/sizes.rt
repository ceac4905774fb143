//! The sizes and numbers that a call may have.
ghost use Rattle.std.specs.Prelude.{◌≡◌, ◌↔◌, IsTrue, []};
ghost use Rattle.bench_lines.specs.Orders.{Apdu, Block, IsOrderSized};
ghost use Rattle.bench_lines.specs.OrderViews.{order_with};
ghost use Rattle.card_calls.specs.Telling.{FitsCall};

use bench_lines::{BLOCK_LIMIT, COMMAND_LIMIT, Order};
use t1_link::LONGEST_ANSWER;

/// The bytes that a caller's buffer has at least. No answer and no block has more.
pub const ROOM: usize = LONGEST_ANSWER;

/// The greatest number of a device write or a block that a caller names, as in a script.
const NUMBER_LIMIT: u32 = 999_999;

/// Returns true if a command has 1 to 261 bytes, and the buffer for its answer has room.
pub fn command_fits(command: &[u8], out: &[u8]) -> bool
    ensures { IsTrue result ↔ FitsCall (Apdu command.now) out.now }
{
    !command.is_empty() && command.len() <= COMMAND_LIMIT && out.len() >= ROOM
}

/// Returns true if a block has 1 to 300 bytes, and the buffer for the block that returns has room.
pub fn block_fits(block: &[u8], out: &[u8]) -> bool
    ensures { IsTrue result ↔ FitsCall (Block block.now) out.now }
{
    !block.is_empty() && block.len() <= BLOCK_LIMIT && out.len() >= ROOM
}

/// Returns true if an order without bytes has no number, or one of 1 to 999,999. A command or a block needs bytes.
pub fn order_fits(order: Order) -> bool
    ensures { IsTrue result ↔ IsOrderSized (order_with order []) }
{
    match order {
        Order::Cut { number, mask: _ } | Order::Lose(number) | Order::Garble(number) => {
            number >= 1 && number <= NUMBER_LIMIT
        }
        Order::Nothing | Order::On | Order::Off | Order::Free => true,
        Order::Apdu | Order::Block => false,
    }
}
