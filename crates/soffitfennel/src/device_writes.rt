//! The device writes of a card, for the functions in C that store them: the first of an order before it runs, and all
//! others before its result is told.
ghost use Rattle.std.specs.Prelude.{◌≡◌};
ghost use Rattle.bench_lines.specs.OrderViews.{order_with};
ghost use Rattle.card_calls.specs.Telling.{FitsCall, outcome_number};
ghost use Rattle.card_calls.specs.WriteCalls.{FallsBehind, ReturnsDevice, ReturnsFirst, TakesFrom};

use crate::exchange_card;
use crate::handle::Handle;
use card_bench::Order;
use card_calls::{CallOutcome, Write, copy_write};
use core::mem::{replace, replace_with};
use std::alloc::Global;

/// Copies the first write of an order out, and announces it.
pub(crate) fn first(
    alloc: Global,
    card: &mut Handle,
    order: Order,
    given: &[u8],
    out: &mut [u8],
    offset: &mut usize,
    size: &mut usize,
) -> i32
    requires { FitsCall (order_with order given.now) out.old }
    ensures { ReturnsFirst (order_with order given.now) card.old.value card.new.value out.old out.new offset.new
        size.new result }
{
    let told = match replace(card, Handle::empty(alloc)).into_session() {
        Some(mut session) => {
            let told = session.first_write(order, given);
            replace_with(card, session, exchange_card);
            Ok(told)
        }
        None => Err(CallOutcome::Absent),
    };
    copy_write(told, out, offset, size)
}

/// Takes the next write from the log of a handle's card.
pub(crate) fn take_next_write(
    card: Handle,
    alloc: Global,
) -> (Handle, Result<Option<Write>, CallOutcome>)
    ensures { TakesFrom card.value result.0.value result.1 }
{
    match card.into_session() {
        Some(mut session) => {
            let told = session.take_write();
            (Handle::of(session), told)
        }
        None => (Handle::empty(alloc), Err(CallOutcome::Absent)),
    }
}

/// Notes for a handle's card that its device didn't take a write.
pub(crate) fn fall_behind(card: Handle, alloc: Global) -> (Handle, CallOutcome)
    ensures { FallsBehind card.value result.0.value (outcome_number result.1) }
{
    match card.into_session() {
        Some(mut session) => {
            session.fall_behind();
            (Handle::of(session), CallOutcome::Done)
        }
        None => (Handle::empty(alloc), CallOutcome::Absent),
    }
}

/// Returns the number of a handle's device.
pub(crate) fn read_device(card: Handle, alloc: Global) -> (Handle, (CallOutcome, i32))
    ensures same { result.0.value ≡ card.value }
    ensures returns { ReturnsDevice card.value result.1.1 (outcome_number result.1.0) }
{
    match card.into_session() {
        Some(session) => {
            let device = session.device();
            (Handle::of(session), (CallOutcome::Done, device))
        }
        None => (Handle::empty(alloc), (CallOutcome::Absent, 0)),
    }
}
