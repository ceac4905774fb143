//! The calls of a log on a device with program units.
ghost use Rattle.std.specs.Prelude.{◌≡◌, ◌<◌, ◌≤◌, ◌+◌, ◌-◌, ◌*◌, ℕ, true, false, length, slice_index, IfOk, OnOk};
ghost use Rattle.flash_device.specs.FlashBlocks.{flash_size};
ghost use Rattle.flash_device.specs.FlashCalls.{AreFilled, IsThere, Lights, SameElsewhere};
ghost use Rattle.flash_device.specs.ProgrammedRuns.{IsProgramRun};
ghost use Rattle.flash_device.specs.declared.flash.TheConstants.{BLANK};
ghost use Rattle.program_units.specs.UnitFrames.{device_size, frame_count, frame_start};
ghost use Rattle.program_units.specs.UnitWords.{HasFreshUnits, frame_word, is_blank_run, unit_words};

use crate::unit_device::UnitDevice;
use crate::unit_frames::{Spot, pair_words, place_at, rest_of, spot_of};
use flash_device::BLANK;
use nvm_board::DeviceErr;

/// The number of words of a record on a device with the largest units.
const WHOLE_RECORD: usize = 24;

/// Returns true if all words are blank.
pub fn are_blank(words: &[u32]) -> bool
    ensures blank { result ≡ true → AreFilled words.now 0 (length words.now) BLANK }
    ensures some { result ≡ false → AreFilled words.now 0 (length words.now) BLANK → ⊥ }
{
    for k in 0..words.len() {
        if words[k] != BLANK {
            return false;
        }
    }
    true
}

/// The words of a run, and blank ones behind them.
fn filled_up(words: &[u32]) -> [u32; WHOLE_RECORD]
    requires { length words.now ≤ 18 }
    ensures size { length result ≡ 24 }
    ensures there { (k : ℕ) → k < length words.now → slice_index result k ≡ slice_index words.now k }
    ensures rest { (k : ℕ) → length words.now ≤ k → k < 24 → slice_index result k ≡ BLANK }
{
    let mut whole = [BLANK; WHOLE_RECORD];
    for k in 0..words.len() {
        whole[k] = words[k];
    }
    whole
}

/// Returns true if so many words of the device are blank.
fn has_blank<D: UnitDevice>(device: &mut D, at: u32, size: u32) -> Result<bool, DeviceErr>
    requires lit { (D.state device.old).flash.dark ≡ false }
    requires within { at + size ≤ device_size D.SLOTS }
    ensures blank { IfOk result (λ b. b ≡ is_blank_run (D.state device.old).flash.words at size) }
    ensures words { (D.state device.new).flash.words ≡ (D.state device.old).flash.words }
    ensures programs { (D.state device.new).programs ≡ (D.state device.old).programs }
    ensures work { (D.state device.new).flash.operations ≡ (D.state device.old).flash.operations }
    ensures erases { (D.state device.new).flash.erases ≡ (D.state device.old).flash.erases }
    ensures kept { (D.state device.new).flash.kept ≡ (D.state device.old).flash.kept }
    ensures light { Lights (D.state device.old).flash (D.state device.new).flash result }
{
    for k in 0..size {
        if device.read(at + k)? != BLANK {
            return Ok(false);
        }
    }
    Ok(true)
}

/// Reads a word of a frame. It is 0 if garbage fills its unit.
fn read_spot<D: UnitDevice>(device: &mut D, spot: Spot) -> Result<u32, DeviceErr>
    requires lit { (D.state device.old).flash.dark ≡ false }
    requires within { spot.frame < frame_count D.SLOTS }
    requires few { spot.rank < 20 }
    ensures word { IfOk result (λ w. w
        ≡ frame_word D.UNIT (D.state device.old).flash.words spot.frame spot.rank) }
    ensures words { (D.state device.new).flash.words ≡ (D.state device.old).flash.words }
    ensures programs { (D.state device.new).programs ≡ (D.state device.old).programs }
    ensures work { (D.state device.new).flash.operations ≡ (D.state device.old).flash.operations }
    ensures erases { (D.state device.new).flash.erases ≡ (D.state device.old).flash.erases }
    ensures kept { (D.state device.new).flash.kept ≡ (D.state device.old).flash.kept }
    ensures light { Lights (D.state device.old).flash (D.state device.new).flash result }
{
    let word = device.read(place_at(spot))?;
    if spot.rank < 16 {
        return Ok(word);
    }
    if has_blank(device, rest_of(spot), pair_words::<D>() - 2)? {
        return Ok(word);
    }
    Ok(0)
}

/// Reads a word of the log.
pub fn read_word<D: UnitDevice>(device: &mut D, at: u32) -> Result<u32, DeviceErr>
    requires lit { (D.state device.old).flash.dark ≡ false }
    requires within { at < flash_size D.SLOTS }
    requires fresh { HasFreshUnits D.UNIT (D.state device.old) }
    ensures word { IfOk result (λ w. w
        ≡ slice_index (unit_words D.UNIT D.SLOTS (D.state device.old).flash.words) at) }
    ensures words { (D.state device.new).flash.words ≡ (D.state device.old).flash.words }
    ensures fresh { HasFreshUnits D.UNIT (D.state device.new) }
    ensures work { (D.state device.new).flash.operations ≡ (D.state device.old).flash.operations }
    ensures erases { (D.state device.new).flash.erases ≡ (D.state device.old).flash.erases }
    ensures kept { (D.state device.new).flash.kept ≡ (D.state device.old).flash.kept }
    ensures light { Lights (D.state device.old).flash (D.state device.new).flash result }
{
    let word = read_spot(device, spot_of::<D>(at))?;
    Ok(word)
}

/// Programs a run of the log in units of its own.
pub fn program_run<D: UnitDevice>(device: &mut D, at: u32, words: &[u32]) -> Result<(), DeviceErr>
    requires lit { (D.state device.old).flash.dark ≡ false }
    requires run { IsProgramRun D.SLOTS at (length words.now) }
    requires size { (2 ≤ length words.now) × (length words.now ≤ 18) }
    requires within { at + length words.now ≤ flash_size D.SLOTS }
    requires blank { AreFilled (unit_words D.UNIT D.SLOTS (D.state device.old).flash.words) at
        (length words.now) BLANK }
    requires some { AreFilled words.now 0 (length words.now) BLANK → ⊥ }
    requires fresh { HasFreshUnits D.UNIT (D.state device.old) }
    ensures done { OnOk result (IsThere (unit_words D.UNIT D.SLOTS (D.state device.new).flash.words) at words.now) }
    ensures elsewhere { SameElsewhere (unit_words D.UNIT D.SLOTS (D.state device.old).flash.words) at
        (length words.now) (unit_words D.UNIT D.SLOTS (D.state device.new).flash.words) }
    ensures fresh { HasFreshUnits D.UNIT (D.state device.new) }
    ensures work { (D.state device.new).flash.operations ≤ (D.state device.old).flash.operations + 1 }
    ensures erases { (D.state device.new).flash.erases ≡ (D.state device.old).flash.erases }
    ensures light { Lights (D.state device.old).flash (D.state device.new).flash result }
{
    let place = place_at(spot_of::<D>(at));
    let size = words.len() - 2 + pair_words::<D>() as usize;
    let whole = filled_up(words);
    device.program(place, &whole[..size])?;
    Ok(())
}

/// Erases a sector.
pub fn erase_sector<D: UnitDevice>(device: &mut D, sector: u16) -> Result<(), DeviceErr>
    requires lit { (D.state device.old).flash.dark ≡ false }
    requires sector { sector ≤ 2 * D.SECTORS }
    requires fresh { HasFreshUnits D.UNIT (D.state device.old) }
    ensures done { OnOk result (AreFilled (unit_words D.UNIT D.SLOTS (D.state device.new).flash.words)
        (frame_start D.SLOTS (D.first_frame sector))
        (frame_start D.SLOTS (D.first_frame (sector + 1)) - frame_start D.SLOTS (D.first_frame sector)) BLANK) }
    ensures elsewhere { SameElsewhere (unit_words D.UNIT D.SLOTS (D.state device.old).flash.words)
        (frame_start D.SLOTS (D.first_frame sector))
        (frame_start D.SLOTS (D.first_frame (sector + 1)) - frame_start D.SLOTS (D.first_frame sector))
        (unit_words D.UNIT D.SLOTS (D.state device.new).flash.words) }
    ensures fresh { HasFreshUnits D.UNIT (D.state device.new) }
    ensures work { (D.state device.new).flash.operations ≤ (D.state device.old).flash.operations + 1 }
    ensures erases { (D.state device.new).flash.erases ≤ (D.state device.old).flash.erases + 1 }
    ensures light { Lights (D.state device.old).flash (D.state device.new).flash result }
{
    device.erase(sector)?;
    Ok(())
}
