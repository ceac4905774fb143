//! The orders that can compare a PIN, and the cut that a second desk is set to.
ghost use Rattle.std.specs.Prelude.{◌≡◌, ◌↔◌, IsTrue};
ghost use Rattle.bench_lines.specs.OrderViews.{order_with};
ghost use Rattle.card_bench.specs.Charges.{CutsNext, MayCompare, is_pin_instruction};

use bench_lines::Order;
use nvm_board::Arm;

/// The mask of a cut that leaves all words of its write new.
pub const ALL_WORDS: u16 = 0xFFFF;

/// Returns true if an order can compare a PIN.
pub fn may_compare(order: Order, given: &[u8]) -> bool
    ensures { IsTrue result ↔ MayCompare (order_with order given.now) }
{
    match order {
        Order::Block => true,
        Order::Apdu => given.len() > 1 && compares(given[1]),
        _ => false,
    }
}

/// Returns true if an instruction can compare a PIN.
fn compares(ins: u8) -> bool
    ensures { result ≡ is_pin_instruction ins }
{
    ins == 0x20 || ins == 0x24 || ins == 0x26 || ins == 0x28 || ins == 0x2C
}

/// Returns true if a cut falls into the next write.
pub fn cuts_next(arm: Option<Arm>) -> bool
    ensures { IsTrue result ↔ CutsNext arm }
{
    match arm {
        Some(arm) => arm.whole_writes == 0,
        None => false,
    }
}
