//! The receipt of a PIN's charge. The rows test the commands on PINs, and `bench_tests` power loss in them.
ghost use Rattle.undo_journal.specs.Memory.{IsReady};

use crate::fixtures::formatted;
use card_model::PinNumber;
use nvm_board::Board;
use pin_store::{Outcome, Secret, are_pins, charge, settle};
use simulated_boards::RamBoard;
use std::test::Fail;
use store_tests::fixtures::opened;
use undo_journal::{Store, StoreErr};

// The value of each of the factory's PINs.
const VALUE: [u8; 8] = [0x31, 0x32, 0x33, 0x34, 0xFF, 0xFF, 0xFF, 0xFF];

/// Returns the secret of a charge's receipt, and its outcome.
/// It is `None` without PINs or tries.
fn spends<B: Board>(store: &mut Store<B>, pin: PinNumber) -> Option<(u8, Result<Outcome, StoreErr>)>
    requires ready { IsReady store.old }
{
    let Ok(true) = are_pins(store) else {
        return None;
    };
    let Ok(charged) = charge(store, Secret::value_of(pin)) else {
        return None;
    };
    Some((charged.secret(), settle(store, charged, &VALUE)))
}

#[test]
fn receipt_tells_its_secret(rt: HostRuntime) -> Result<(), Fail> {
    let mut store = opened(formatted(RamBoard::new(rt.alloc())?)?)?;
    let Some(pin) = PinNumber::new(6) else {
        return Err(Fail::from("no such PIN"));
    };
    assert!(rt; spends(&mut store, pin) == Some((5, Ok(Outcome::Matched))));
    Ok(())
}
