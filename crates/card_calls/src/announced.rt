//! The first write of an order, which is handed out before the order runs.
ghost use Rattle.std.specs.Prelude.{◌≡◌, ◌≤◌, ◌↔◌, IsTrue, None, length, option_map};
ghost use Rattle.bench_lines.specs.OrderViews.{order_with};
ghost use Rattle.bench_lines.specs.declared.order.TheConstants.{BLOCK_LIMIT};
ghost use Rattle.card_bench.specs.Charges.{MayCompare};
ghost use Rattle.card_calls.specs.Devices.{device_facts, run_of};
ghost use Rattle.card_calls.specs.FirstWrites.{EndsCharge, IsAsAnnounced, announcement, charge_of};

use crate::device::{DeviceBoard, next_write};
use crate::write::Write;
use crate::write_log::NextWrite;
use arrayvec::ArrayVec;
use bench_lines::{BLOCK_LIMIT, Order};

/// An order that is to run next, with its bytes, and the first write that it makes, if it makes one.
#[derive(Drop)]
pub struct Announced {
    is_block: bool,
    given: ArrayVec<u8, BLOCK_LIMIT>,
    first: Option<Write>,
}

impl Announced {
    /// Keeps an order that can compare a PIN, and its first write.
    #[tactic(auto, using(crate::proofs::AnnouncedLaws::sent_so))]
    pub fn new(order: Order, given: &[u8], first: Option<Write>) -> Announced
        requires compares { MayCompare (order_with order given.now) }
        requires size { length given.now ≤ BLOCK_LIMIT }
        ensures { announcement result
            ≡ record { order = order_with order given.now; first = option_map run_of first } }
    {
        let mut own = ArrayVec::new();
        own.try_extend_from_slice(given).unwrap();
        Announced {
            is_block: is_block(order),
            given: own,
            first,
        }
    }

    /// Returns true if it is of this order.
    pub fn is_of(&self, order: Order, given: &[u8]) -> bool
        ensures { IsTrue result ↔ (announcement self.now).order ≡ order_with order given.now }
    {
        match order {
            Order::Block => self.is_block && self.given.as_slice() == given,
            Order::Apdu => !self.is_block && self.given.as_slice() == given,
            _ => false,
        }
    }

    /// Returns true if a log's next write is the first one of this order.
    fn is_next(&self, next: &NextWrite) -> bool
        ensures { IsTrue result ↔ IsAsAnnounced (announcement self.now).first next.now }
    {
        match (next, &self.first) {
            (NextWrite::Nothing, None) => true,
            (NextWrite::Write(write), Some(first)) => write.is_same(first),
            _ => false,
        }
    }
}

/// Returns true if an order is a block.
fn is_block(order: Order) -> bool
    ensures { IsTrue result ↔ order ≡ Order.Block }
{
    matches!(order, Order::Block)
}

/// Forgets the announced order, if there is one.
pub fn forget(announced: &mut Option<Announced>)
    ensures { announced.new ≡ None }
{
    if announced.is_some() {
        set_none(announced);
    }
}

/// Sets it to `None`. This is a function of its own, so that where nothing was announced, the usual case, no place for
/// an order is blanked.
#[inline(never)]
fn set_none(announced: &mut Option<Announced>)
    ensures { announced.new ≡ None }
{
    *announced = None;
}

/// Returns how many of all writes the device of a board has after an order, modulo 2^64. It had so many before, and the
/// announced first write of an order with a charge. Returns none if that order began with another write.
pub fn stored_after(
    board: &DeviceBoard,
    stored: u64,
    is_charged: bool,
    announced: &Option<Announced>,
) -> Option<u64>
    ensures { EndsCharge (device_facts board.now).log stored
        (charge_of is_charged (option_map announcement announced.now)) result }
{
    if !is_charged {
        return Some(stored);
    }
    let Some(told) = announced else {
        return Some(stored);
    };
    if !told.is_next(&next_write(board, stored)) {
        return None;
    }
    match told.first {
        Some(_) => Some(stored.wrapping_add(1)),
        None => Some(stored),
    }
}
