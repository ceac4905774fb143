//! What writes and power-ons cost on a flash with small sectors.
ghost use Rattle.std.specs.Prelude.{◌<◌, ◌≤◌};

use crate::sector_sessions::{Stop, board_of, new_flash, page_of, play, power_cycled};
use nvm_board::Board;
use sector_log::format_sectors;
use simulated_chips::{Random, SmallSectorFlash};
use std::alloc::Global;
use std::test::Fail;

/// The writes whose cost is counted.
const WRITES: u32 = 100_000;

/// What writes cost together.
#[derive(Clone, Copy)]
struct Cost {
    programs: u64,
    erases: u64,
}

/// Writes one word to random pages of the first ones, and returns what that costs. Each of them was written before.
fn cost_of(alloc: Global, pages: u32) -> Result<Cost, Fail>
    requires { (0 < pages) × (pages ≤ 1024) }
{
    let mut flash = SmallSectorFlash::new(alloc, 31)?;
    format_sectors(&mut flash)?;
    let mut board = board_of(flash)?;
    for page in 0..pages {
        board.write(page as u16, 0, &[1])?;
    }
    let flash = board.into_log().into_flash();
    let (operations, erases) = (flash.operations(), flash.erases());
    let mut board = board_of(flash)?;
    let mut random = Random(5);
    for k in 0..WRITES {
        board.write(random.below(pages) as u16, 0, &[k])?;
    }
    let flash = board.into_log().into_flash();
    let erases = flash.erases().saturating_sub(erases);
    Ok(Cost {
        programs: flash
            .operations()
            .saturating_sub(operations)
            .saturating_sub(erases),
        erases,
    })
}

#[test]
fn half_full_log_of_small_sectors_writes_less_than_three_records_a_write(
    rt: HostRuntime,
) -> Result<(), Fail> {
    // A record takes two programs: 2.4 records a write, and 3.6 with all pages in use, as docs/FLASH.md says.
    let half = cost_of(rt.alloc(), 512)?;
    assert!(rt; half.programs >= 470_000 && half.programs < 490_000 && half.erases < 25_000);
    let full = cost_of(rt.alloc(), 1024)?;
    assert!(rt; full.programs >= 710_000 && full.programs < 730_000 && full.erases < 25_000);
    Ok(())
}

/// The words that power-ons read.
#[derive(Clone, Copy)]
struct Reads {
    count: u64,
    all: u64,
    most: u64,
}

impl Reads {
    /// Notes those of one.
    fn note(&mut self, reads: u64) {
        self.count = self.count.saturating_add(1);
        self.all = self.all.saturating_add(reads);
        self.most = self.most.max(reads);
    }
}

/// Notes what a power-on reads, with the first word.
fn note_power_on(flash: SmallSectorFlash, reads: &mut Reads) -> Result<SmallSectorFlash, Fail> {
    let old = flash.reads();
    let mut log = power_cycled(flash)?;
    log.read(0)?;
    let flash = log.into_flash();
    reads.note(flash.reads().saturating_sub(old));
    Ok(flash)
}

#[test]
fn a_power_on_in_a_move_reads_less_than_the_flash(rt: HostRuntime) -> Result<(), Fail> {
    let (mut flash, mut book) = new_flash(rt.alloc(), 32)?;
    let mut reads = Reads {
        count: 0,
        all: 0,
        most: 0,
    };
    for k in 0..1600u32 {
        let stop = if k % 4 < 3 {
            Stop::in_step(book.turn, 1 + k / 4 * 7 % 36)
        } else {
            Stop::none()
        };
        flash = play(flash, &mut book, 16 * page_of(k), k, stop, false)?;
        if book.counts.erases > 0 {
            flash = note_power_on(flash, &mut reads)?;
        }
    }
    // The flash has 81,926 words.
    assert!(rt; book.moves >= 2 && reads.count > 500 && reads.most < 81_926);
    assert!(rt; reads.all < reads.count.saturating_mul(50_000));
    Ok(())
}
