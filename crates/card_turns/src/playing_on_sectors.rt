//! Turns of the card on a flash with small sectors.
ghost use Rattle.std.specs.Prelude.{◌≡◌, false, length, IfOk, IfErr, OnErr};
ghost use Rattle.card_turns.specs.FlashRuns.{PlaysOnFlash};
ghost use Rattle.sector_log.specs.SectorOpenings.{SectorOpenStopsBy};

use crate::playing::Bench;
use bench_turns::{Item, Turn};
use flash_device::FlashSocket;
use sector_board::SectorBoard;
use sector_log::{SectorFault, SectorLog};
use sector_moves::SectorFlash;

/// Plays turns in order with the card on a flash with small sectors, and returns the flash. Item i of the trace becomes
/// the result of turn i. However often power was lost, no write of the card's board is long: `SectorBoard::write` says
/// how many programs and erases it begins.
///
/// # Errors
/// The flash, and why nothing was played: it has no log, or one that isn't in step, power was lost, or it failed.
pub fn play_on_sectors<F: FlashSocket + SectorFlash>(
    flash: F,
    turns: &[Turn<'_>],
    trace: &mut [Item],
) -> Result<F, (F, SectorFault)>
    requires lit { (F.state flash).dark ≡ false }
    requires trace { length turns.now ≡ length trace.old }
    // The headline, as of `play_on_flash`.
    ensures plays { IfOk result (λ f. PlaysOnFlash F.PAGES F.SLOTS (F.state flash) turns.now trace.new (F.state f)) }
    ensures stopped { IfErr result (λ e. SectorOpenStopsBy F.PAGES F.SLOTS F.SECTORS F.sector_start e.1
        (F.state flash) (F.state e.0)) }
    ensures unplayed { OnErr result (trace.new ≡ trace.old) }
{
    match SectorLog::open(flash) {
        Ok(log) => {
            let mut bench = Bench::new(SectorBoard::new(log));
            bench.play(turns, trace);
            Ok(bench.into_board().into_log().into_flash())
        }
        Err((flash, fault)) => Err((flash, fault)),
    }
}
