//! Records and marks.
ghost use Rattle.std.specs.Prelude.{◌≡◌, ◌<◌, ◌≤◌, ◌+◌, true, false, IfOk, OnOk, length};
ghost use Rattle.flash_device.specs.FlashCalls.{Lights, SameElsewhere, IsThere, AreFilled};
ghost use Rattle.flash_device.specs.FlashBlocks.{flash_size};
ghost use Rattle.flash_device.specs.ProgrammedRuns.{IsCommitPlace, IsSlotPlace};
ghost use Rattle.flash_device.specs.FlashLogs.{is_marked as has_mark, is_closed as has_closed, close_of};
ghost use Rattle.flash_device.specs.PutRecords.{PutsInSlot, IsPut};
ghost use Rattle.flash_device.specs.declared.flash.TheConstants.{BLANK, BLOCKS};

use flash_device::{BLANK, FIRST_MARK, Flash, RECORD_WORDS, SECOND_MARK, SLOT_WORDS, close_at};
use nvm_board::DeviceErr;

/// The words of a record.
pub type Record = [u32; 18];

/// Returns true if a mark is at the address.
pub fn is_marked<F: Flash>(flash: &mut F, at: u32) -> Result<bool, DeviceErr>
    requires lit { (F.state flash.old).dark ≡ false }
    requires within { at + 2 ≤ flash_size F.SLOTS }
    ensures marked { IfOk result (λ b. b ≡ has_mark (F.state flash.old).words at) }
    ensures words { (F.state flash.new).words ≡ (F.state flash.old).words }
    ensures work { (F.state flash.new).operations ≡ (F.state flash.old).operations }
    ensures erases { (F.state flash.new).erases ≡ (F.state flash.old).erases }
    ensures light { Lights (F.state flash.old) (F.state flash.new) result }
{
    let first = flash.read(at)?;
    let second = flash.read(at + 1)?;
    Ok(first == FIRST_MARK && second == SECOND_MARK)
}

/// Programs a mark.
pub fn program_mark<F: Flash>(flash: &mut F, at: u32) -> Result<(), DeviceErr>
    requires lit { (F.state flash.old).dark ≡ false }
    requires blank { AreFilled (F.state flash.old).words at 2 BLANK }
    requires within { at + 2 ≤ flash_size F.SLOTS }
    requires place { IsCommitPlace F.SLOTS at }
    ensures done { OnOk result (has_mark (F.state flash.new).words at ≡ true) }
    ensures elsewhere { SameElsewhere (F.state flash.old).words at 2 (F.state flash.new).words }
    ensures work { (F.state flash.new).operations ≤ (F.state flash.old).operations + 1 }
    ensures erases { (F.state flash.new).erases ≡ (F.state flash.old).erases }
    ensures light { Lights (F.state flash.old) (F.state flash.new) result }
{
    flash.program(at, &[FIRST_MARK, SECOND_MARK])?;
    Ok(())
}

/// Returns true if a block is closed: the place of its mark is not blank.
pub fn is_closed<F: Flash>(flash: &mut F, block: u8) -> Result<bool, DeviceErr>
    requires lit { (F.state flash.old).dark ≡ false }
    requires block { block < BLOCKS }
    ensures closed { IfOk result (λ b. b ≡ has_closed (F.state flash.old).words (close_of F.SLOTS block)) }
    ensures words { (F.state flash.new).words ≡ (F.state flash.old).words }
    ensures work { (F.state flash.new).operations ≡ (F.state flash.old).operations }
    ensures erases { (F.state flash.new).erases ≡ (F.state flash.old).erases }
    ensures kept { (F.state flash.new).kept ≡ (F.state flash.old).kept }
    ensures light { Lights (F.state flash.old) (F.state flash.new) result }
{
    let at = close_at::<F>(block);
    let first = flash.read(at)?;
    let second = flash.read(at + 1)?;
    if first != BLANK {
        return Ok(true);
    }
    Ok(second != BLANK)
}

/// Closes a block.
pub fn close<F: Flash>(flash: &mut F, block: u8) -> Result<(), DeviceErr>
    requires lit { (F.state flash.old).dark ≡ false }
    requires block { block < BLOCKS }
    requires opened { has_closed (F.state flash.old).words (close_of F.SLOTS block) ≡ false }
    ensures done { OnOk result (has_closed (F.state flash.new).words (close_of F.SLOTS block) ≡ true) }
    ensures mark { OnOk result (has_mark (F.state flash.new).words (close_of F.SLOTS block) ≡ true) }
    ensures elsewhere { SameElsewhere (F.state flash.old).words (close_of F.SLOTS block) 2 (F.state flash.new).words }
    ensures work { (F.state flash.new).operations ≤ (F.state flash.old).operations + 1 }
    ensures erases { (F.state flash.new).erases ≡ (F.state flash.old).erases }
    ensures light { Lights (F.state flash.old) (F.state flash.new) result }
{
    flash.program(close_at::<F>(block), &[FIRST_MARK, SECOND_MARK])?;
    Ok(())
}

/// Programs a record into a blank slot, and then its mark. At every exit the slot has no mark, or it has the
/// record and its mark.
pub fn program_record<F: Flash>(flash: &mut F, at: u32, words: &Record) -> Result<(), DeviceErr>
    requires lit { (F.state flash.old).dark ≡ false }
    requires within { at + 20 ≤ flash_size F.SLOTS }
    requires blank { AreFilled (F.state flash.old).words at 20 BLANK }
    requires place { IsSlotPlace F.SLOTS at }
    ensures puts { PutsInSlot (F.state flash.old).words at words.now (F.state flash.new).words }
    ensures done { OnOk result (IsPut (F.state flash.new).words at words.now) }
    ensures work { (F.state flash.new).operations ≤ (F.state flash.old).operations + 2 }
    ensures erases { (F.state flash.new).erases ≡ (F.state flash.old).erases }
    ensures light { Lights (F.state flash.old) (F.state flash.new) result }
{
    flash.program(at, words)?;
    program_mark(flash, at + RECORD_WORDS)?;
    Ok(())
}

/// Returns true if all words of a slot are blank.
pub fn is_blank<F: Flash>(flash: &mut F, at: u32) -> Result<bool, DeviceErr>
    requires lit { (F.state flash.old).dark ≡ false }
    requires within { at + 20 ≤ flash_size F.SLOTS }
    ensures blank { IfOk result (λ b. b ≡ true → AreFilled (F.state flash.old).words at 20 BLANK) }
    ensures full { IfOk result (λ b. b ≡ false → ¬ AreFilled (F.state flash.old).words at 20 BLANK) }
    ensures words { (F.state flash.new).words ≡ (F.state flash.old).words }
    ensures work { (F.state flash.new).operations ≡ (F.state flash.old).operations }
    ensures erases { (F.state flash.new).erases ≡ (F.state flash.old).erases }
    ensures light { Lights (F.state flash.old) (F.state flash.new) result }
{
    for k in 0..SLOT_WORDS {
        if flash.read(at + k)? != BLANK {
            return Ok(false);
        }
    }
    Ok(true)
}
