//! A flash in working memory, and a follower that has its words too.
ghost use Rattle.std.specs.Prelude.{◌≡◌, ◌+◌, ◌≤◌, ◌<◌, ◌*◌, true, false, length, slice_index, IfOk, OnOk};
ghost use Rattle.std.specs.Prelude.{[], is_some, IsErrOf};
ghost use Rattle.nvm_board.specs.History.{run_in};
ghost use Rattle.flash_device.specs.FlashCalls.{Lights, SameElsewhere, IsThere, AreFilled};
ghost use Rattle.flash_device.specs.FlashBlocks.{area_size, flash_size};
ghost use Rattle.flash_device.specs.ProgrammedRuns.{IsProgramRun};
ghost use Rattle.flash_device.specs.declared.flash.TheConstants.{BLANK};
ghost use Rattle.simulated_flashes.specs.Complements.{AreComplements};
ghost use Rattle.simulated_flashes.specs.EvenSectors.{even_sector, even_size};
ghost use Rattle.simulated_flashes.specs.laws.EvenLaws.{even_sectors_fit, even_sectors_rise};
ghost use Rattle.simulated_boards.specs.Handed.{HandsOn};
ghost use Rattle.simulated_flashes.specs.KeptFlashes.{flash_follower_state, kept_flash_state};

use crate::flash_follower::FlashFollower;
use crate::flash_sizes::{FlashSizes, SmallSizes, size, start};
use crate::garbling_flash::{FLASH_PAGES, GarblingFlash};
use flash_device::{CutFlash, Flash, FlashSocket, FollowedFlash, PageSlots};
use nvm_board::DeviceErr;
use sector_moves::SectorFlash;

/// A flash in working memory, and its follower, if it has one. The flash hands the words of each program and erase to
/// its follower, once, in order, as the operation left them, also if it lost power. A follower that fails changes
/// nothing of the flash, and gets nothing more.
#[derive(Drop)]
pub struct KeptFlash<F: FlashFollower, S: FlashSizes> {
    flash: GarblingFlash<S>,
    follower: Option<F>,
    follows: bool,
}

impl<F: FlashFollower, S: FlashSizes> KeptFlash<F, S> {
    ghost use Rattle.simulated_flashes.specs.GarblingStates.{garbling_state};

    /// Returns the flash, and a follower that has its words already, or none.
    pub fn new(flash: GarblingFlash<S>, follower: Option<F>) -> KeptFlash<F, S>
        ensures state { kept_flash_state result ≡ garbling_state flash }
        ensures random { result.flash.random ≡ flash.random }
        ensures follower { result.follower ≡ follower }
        ensures follows { result.follows ≡ true }
    {
        KeptFlash {
            flash,
            follower,
            follows: true,
        }
    }

    /// Hands the words of an operation to the follower.
    fn hand_on(&mut self, at: usize, size: usize)
        requires { at + size ≤ flash_size S.SLOTS }
        ensures flash { self.new.flash ≡ self.old.flash }
        ensures handed { HandsOn F.log F.behind (run_in (kept_flash_state self.old).words at size)
            (flash_follower_state self.old) (flash_follower_state self.new) }
    {
        if !self.follows {
            return;
        }
        if let Some(follower) = &mut self.follower {
            self.follows = follower.take_run(at, &self.flash.words()[at..at + size]);
        }
    }
}

impl<F: FlashFollower, S: FlashSizes> Flash for KeptFlash<F, S> {
    ghost use Rattle.std.proofs.Common.{refl, lit≤};

    type Table = PageSlots<1024>;

    const PAGES: u16 = FLASH_PAGES;

    const SLOTS: u16 = S::SLOTS;

    const SECTORS: u16 = S::SECTORS;

    ghost PAGES = { 1024 };

    ghost SLOTS = { S.SLOTS };

    ghost SECTORS = { S.SECTORS };

    ghost sector_start = { even_sector S.SECTOR_WORDS (area_size S.SLOTS) S.SECTORS };

    ghost state = { kept_flash_state };

    fn sector_at(sector: u16) -> u32 {
        start::<S>(sector)
    }

    fn read(&mut self, at: u32) -> Result<u32, DeviceErr>
        requires lit { (kept_flash_state self.old).dark ≡ false }
        requires within { at < flash_size S.SLOTS }
        ensures word { IfOk result (λ w. w ≡ slice_index (kept_flash_state self.old).words at) }
        ensures words { (kept_flash_state self.new).words ≡ (kept_flash_state self.old).words }
        ensures work { (kept_flash_state self.new).operations ≡ (kept_flash_state self.old).operations }
        ensures erases { (kept_flash_state self.new).erases ≡ (kept_flash_state self.old).erases }
        ensures kept { (kept_flash_state self.new).kept ≡ (kept_flash_state self.old).kept }
        ensures light { Lights (kept_flash_state self.old) (kept_flash_state self.new) result }
        ensures follower { flash_follower_state self.new ≡ flash_follower_state self.old }
        ensures random { self.new.flash.random ≡ self.old.flash.random }
    {
        self.flash.read(at)
    }

    fn program(&mut self, at: u32, words: &[u32]) -> Result<(), DeviceErr>
        requires lit { (kept_flash_state self.old).dark ≡ false }
        requires blank { AreFilled (kept_flash_state self.old).words at (length words.now) BLANK }
        requires within { at + length words.now ≤ flash_size S.SLOTS }
        requires run { IsProgramRun S.SLOTS at (length words.now) }
        ensures done { OnOk result (IsThere (kept_flash_state self.new).words at words.now) }
        ensures elsewhere { SameElsewhere (kept_flash_state self.old).words at (length words.now)
            (kept_flash_state self.new).words }
        ensures work { (kept_flash_state self.new).operations ≤ (kept_flash_state self.old).operations + 1 }
        ensures erases { (kept_flash_state self.new).erases ≡ (kept_flash_state self.old).erases }
        ensures light { Lights (kept_flash_state self.old) (kept_flash_state self.new) result }
        ensures handed { HandsOn F.log F.behind (run_in (kept_flash_state self.new).words at (length words.now))
            (flash_follower_state self.old) (flash_follower_state self.new) }
        ensures torn { IsErrOf result DeviceErr.PowerLost → is_some self.old.flash.random ≡ false
            → AreComplements (kept_flash_state self.new).words at (length words.now) words.now }
        ensures random { is_some self.new.flash.random ≡ is_some self.old.flash.random }
    {
        let ended = self.flash.program(at, words);
        self.hand_on(at as usize, words.len());
        ended
    }

    fn erase(&mut self, sector: u16) -> Result<(), DeviceErr>
        requires lit { (kept_flash_state self.old).dark ≡ false }
        requires sector { sector ≤ 2 * S.SECTORS }
        ensures done { OnOk result (AreFilled (kept_flash_state self.new).words
            (even_sector S.SECTOR_WORDS (area_size S.SLOTS) S.SECTORS sector)
            (even_size S.SECTOR_WORDS (area_size S.SLOTS) S.SECTORS sector) BLANK) }
        ensures elsewhere { SameElsewhere (kept_flash_state self.old).words
            (even_sector S.SECTOR_WORDS (area_size S.SLOTS) S.SECTORS sector)
            (even_size S.SECTOR_WORDS (area_size S.SLOTS) S.SECTORS sector) (kept_flash_state self.new).words }
        ensures work { (kept_flash_state self.new).operations ≤ (kept_flash_state self.old).operations + 1 }
        ensures erases { (kept_flash_state self.new).erases ≤ (kept_flash_state self.old).erases + 1 }
        ensures light { Lights (kept_flash_state self.old) (kept_flash_state self.new) result }
        ensures handed { HandsOn F.log F.behind (run_in (kept_flash_state self.new).words
            (even_sector S.SECTOR_WORDS (area_size S.SLOTS) S.SECTORS sector)
            (even_size S.SECTOR_WORDS (area_size S.SLOTS) S.SECTORS sector))
            (flash_follower_state self.old) (flash_follower_state self.new) }
        ensures torn { IsErrOf result DeviceErr.PowerLost → is_some self.old.flash.random ≡ false
            → AreComplements (kept_flash_state self.new).words
            (even_sector S.SECTOR_WORDS (area_size S.SLOTS) S.SECTORS sector)
            (even_size S.SECTOR_WORDS (area_size S.SLOTS) S.SECTORS sector) [] }
        ensures random { is_some self.new.flash.random ≡ is_some self.old.flash.random }
    {
        let ended = self.flash.erase(sector);
        self.hand_on(start::<S>(sector) as usize, size::<S>(sector) as usize);
        ended
    }

    ghost sized = { λ k. k.flash.sized };

    ghost words_fit = { λ k. k.flash.words_fit };

    ghost pages_fit = { (lit≤ tt, lit≤ tt, refl) };

    ghost table_fits = { λ t. t.sized };

    ghost slots_fit = { S.slots_fit };

    ghost sectors_rise = { even_sectors_rise S.SECTOR_WORDS (area_size S.SLOTS) S.SECTORS S.words_fit };

    ghost sectors_fit = { even_sectors_fit S.SECTOR_WORDS (area_size S.SLOTS) S.SECTORS S.sectors_fit };
}

impl<F: FlashFollower, S: FlashSizes> FlashSocket for KeptFlash<F, S> {
    fn light(&mut self)
        ensures state { kept_flash_state self.new ≡ record (kept_flash_state self.old) { dark = false } }
        ensures follower { flash_follower_state self.new ≡ flash_follower_state self.old }
        ensures random { self.new.flash.random ≡ self.old.flash.random }
    {
        self.flash.light();
    }

    fn power_off(&mut self)
        ensures state { kept_flash_state self.new ≡ record (kept_flash_state self.old) { dark = true } }
        ensures follower { flash_follower_state self.new ≡ flash_follower_state self.old }
        ensures random { self.new.flash.random ≡ self.old.flash.random }
    {
        self.flash.power_off();
    }
}

impl<F: FlashFollower, S: FlashSizes> CutFlash for KeptFlash<F, S> {
    ghost use Rattle.std.specs.Prelude.{refl};

    fn set_cut(&mut self, k: u32)
        requires { 1 ≤ k }
        ensures state { kept_flash_state self.new ≡ record (kept_flash_state self.old) { due = 1 } }
        ensures follower { flash_follower_state self.new ≡ flash_follower_state self.old }
        ensures random { self.new.flash.random ≡ self.old.flash.random }
    {
        self.flash.set_cut(k);
    }

    fn clear_cut(&mut self)
        ensures state { kept_flash_state self.new ≡ record (kept_flash_state self.old) { due = 0 } }
        ensures follower { flash_follower_state self.new ≡ flash_follower_state self.old }
        ensures random { self.new.flash.random ≡ self.old.flash.random }
    {
        self.flash.clear_cut();
    }

    ghost faultless = { λ k. refl };
}

impl<F: FlashFollower, S: FlashSizes> FollowedFlash for KeptFlash<F, S> {
    fn is_kept(&self) -> bool {
        self.follows
    }
}

impl<F: FlashFollower, S: SmallSizes> SectorFlash for KeptFlash<F, S> {
    ghost sectors_left = { S.sectors_left };

    ghost sectors_hold = { S.sectors_hold };

    ghost slots_left = { S.slots_left };

    ghost copies_left = { S.copies_left };
}
