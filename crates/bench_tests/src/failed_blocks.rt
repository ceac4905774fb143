//! A memory that fails once, below a card with its link.

use crate::replies::is_reply;
use bench_turns::{Item, Turn};
use card_tests::fixtures::formatted;
use card_turns::Bench;
use link_tests::fixtures::framed;
use simulated_boards::FaultBoard;
use std::alloc::Global;
use std::test::Fail;

const SELECT: &str = "00A4000C023F00";

/// Returns true if the reply to a SELECT of the master file has this answer.
fn answers(
    alloc: Global,
    bench: &mut Bench<FaultBoard>,
    control: u8,
    answer: &str,
) -> Result<bool, Fail> {
    let block = framed(alloc, control, SELECT)?;
    let wanted = framed(alloc, control, answer)?;
    let mut trace = [Item::Mute];
    bench.play(&[Turn::Block(&block)], &mut trace);
    Ok(is_reply(&trace, &wanted))
}

/// Returns true if the card boots after power off and on.
fn boots(bench: &mut Bench<FaultBoard>) -> bool {
    let mut trace = [Item::Mute, Item::Mute];
    bench.play(&[Turn::Off, Turn::On], &mut trace);
    matches!(trace, [Item::Quiet, Item::Atr])
}

/// The card answers 6581 in its reply to the block whose command fails, and to the next one, until power-on.
#[test]
fn a_failed_block_is_answered_6581(rt: HostRuntime) -> Result<(), Fail> {
    let mut bench = Bench::new(formatted(FaultBoard::on_calls(rt.alloc())?)?);
    assert!(rt; boots(&mut bench));
    bench.arm(1, 0x0000);
    for control in [0x00, 0x40] {
        assert!(rt; answers(rt.alloc(), &mut bench, control, "6581")?);
    }
    assert!(rt; boots(&mut bench) && answers(rt.alloc(), &mut bench, 0x00, "9000")?);
    Ok(())
}
