//! Turns of the card on a flash.
ghost use Rattle.std.specs.Prelude.{◌≡◌, false, length, IfOk, IfErr, OnErr};
ghost use Rattle.flash_log.specs.Openings.{OpenStopsBy};
ghost use Rattle.card_turns.specs.FlashRuns.{PlaysOnFlash};

use crate::playing::Bench;
use bench_turns::{Item, Turn};
use flash_board::FlashBoard;
use flash_device::FlashSocket;
use flash_log::{FlashFault, FlashLog};

/// Plays turns in order with the card on a flash, and returns the flash. Item i of the trace becomes the result of turn
/// i.
///
/// # Errors
/// The flash, and why nothing was played: it has no log, power was lost, or the flash failed.
pub fn play_on_flash<F: FlashSocket>(
    flash: F,
    turns: &[Turn<'_>],
    trace: &mut [Item],
) -> Result<F, (F, FlashFault)>
    requires lit { (F.state flash).dark ≡ false }
    requires trace { length turns.now ≡ length trace.old }
    // The headline, for every flash that keeps the clauses of `Flash`, for every list of turns, and for a power loss at
    // any of its operations.
    ensures plays { IfOk result (λ f. PlaysOnFlash F.PAGES F.SLOTS (F.state flash) turns.now trace.new (F.state f)) }

    ensures stopped { IfErr result (λ e. OpenStopsBy F.SLOTS e.1 (F.state flash) (F.state e.0)) }
    ensures unplayed { OnErr result (trace.new ≡ trace.old) }
{
    match FlashLog::open(flash) {
        Ok(log) => {
            let mut bench = Bench::new(FlashBoard::new(log));
            bench.play(turns, trace);
            Ok(bench.into_board().into_log().into_flash())
        }
        Err((flash, fault)) => Err((flash, fault)),
    }
}
