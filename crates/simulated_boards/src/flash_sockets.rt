//! Boards on a flash, of either kind, as boards that can be set to lose power.
ghost use Rattle.std.specs.Prelude.{◌≡◌, false};
ghost use Rattle.flash_board.specs.FlashFacts.{flash_facts, made_of};
ghost use Rattle.flash_board.specs.FlashFollowers.{board_is_kept};
ghost use Rattle.flash_moves.specs.Places.{state_of};
ghost use Rattle.flash_moves.specs.Rings.{IsRing};
ghost use Rattle.sector_board.specs.SectorFacts.{sector_facts};
ghost use Rattle.sector_board.specs.SectorFollowers.{sector_board_is_kept};
ghost use Rattle.sector_moves.specs.SectorSpares.{HasRoomForSteps};
ghost use Rattle.simulated_boards.specs.CutFlashFacts.{cut_flash_facts};

use crate::cut_flash_board::CutFlashBoard;
use crate::cut_socket::{CutSocket, FollowedSocket};
use flash_board::FlashBoard;
use flash_device::{CutFlash, FollowedFlash};
use flash_log::FlashLog;
use sector_board::SectorBoard;
use sector_log::SectorLog;
use sector_moves::SectorFlash;

/// Returns the board on a powered flash that has a log and no cut set. It is the board of this flash, since code for
/// any type of flash has no other.
pub fn board_on_flash<F: CutFlash>(flash: F) -> CutFlashBoard<FlashBoard<F>>
    requires lit { (F.state flash).dark ≡ false }
    requires uncut { (F.state flash).due ≡ 0 }
    requires log { IsRing F.SLOTS (F.state flash).words }
    ensures facts { cut_flash_facts flash_facts result ≡ made_of (state_of F.PAGES F.SLOTS (F.state flash)) }
    ensures kept { board_is_kept result.board ≡ (F.state flash).kept }
{
    CutFlashBoard::new(FlashBoard::new(FlashLog::new(flash)))
}

/// Returns the same of a flash with small sectors, whose log is in step.
pub fn board_on_sectors<F: CutFlash + SectorFlash>(flash: F) -> CutFlashBoard<SectorBoard<F>>
    requires lit { (F.state flash).dark ≡ false }
    requires uncut { (F.state flash).due ≡ 0 }
    requires log { IsRing F.SLOTS (F.state flash).words }
    requires in_step { HasRoomForSteps F.PAGES F.SLOTS F.SECTORS F.sector_start (F.state flash).words 0 }
    ensures facts { cut_flash_facts sector_facts result ≡ made_of (state_of F.PAGES F.SLOTS (F.state flash)) }
    ensures kept { sector_board_is_kept result.board ≡ (F.state flash).kept }
{
    CutFlashBoard::new(SectorBoard::new(SectorLog::new(flash)))
}

impl<F: CutFlash> CutSocket for FlashBoard<F> {
    ghost use Rattle.std.specs.Prelude.{refl};

    fn is_dark(&self) -> bool {
        FlashBoard::is_dark(self)
    }

    fn write_count(&self) -> u64 {
        FlashBoard::write_count(self)
    }

    fn set_cut(&mut self, k: u32) {
        FlashBoard::set_cut(self, k);
    }

    fn clear_cut(&mut self) {
        FlashBoard::clear_cut(self);
    }

    fn lose_power(&mut self) {
        FlashBoard::lose_power(self);
    }

    fn has_no_fault(&self) {
        FlashBoard::has_no_fault(self);
    }

    ghost unarmed = { λ b. refl };

    ghost unmasked = { λ b. refl };

    ghost unlogged = { λ b. refl };
}

impl<F: FollowedFlash> FollowedSocket for FlashBoard<F> {
    ghost use Rattle.flash_board.specs.FlashFollowers.{board_is_kept};

    ghost is_kept = { board_is_kept };

    fn is_kept(&self) -> bool
        ensures kept { result ≡ board_is_kept self.now }
    {
        FlashBoard::is_kept(self)
    }
}

impl<F: CutFlash + SectorFlash> CutSocket for SectorBoard<F> {
    ghost use Rattle.std.specs.Prelude.{refl};

    fn is_dark(&self) -> bool {
        SectorBoard::is_dark(self)
    }

    fn write_count(&self) -> u64 {
        SectorBoard::write_count(self)
    }

    fn set_cut(&mut self, k: u32) {
        SectorBoard::set_cut(self, k);
    }

    fn clear_cut(&mut self) {
        SectorBoard::clear_cut(self);
    }

    fn lose_power(&mut self) {
        SectorBoard::lose_power(self);
    }

    fn has_no_fault(&self) {
        SectorBoard::has_no_fault(self);
    }

    ghost unarmed = { λ b. refl };

    ghost unmasked = { λ b. refl };

    ghost unlogged = { λ b. refl };
}

impl<F: FollowedFlash + SectorFlash> FollowedSocket for SectorBoard<F> {
    ghost use Rattle.sector_board.specs.SectorFollowers.{sector_board_is_kept};

    ghost is_kept = { sector_board_is_kept };

    fn is_kept(&self) -> bool
        ensures kept { result ≡ sector_board_is_kept self.now }
    {
        SectorBoard::is_kept(self)
    }
}
