//! Whose turn it is: the three blocks stand in a ring, and the turn is that of the open block behind a closed one.
//! In turn 0 the pages are in area A, in turns 1 and 2 in area B. The block behind that of the turn holds anything.
ghost use Rattle.std.specs.Prelude.{◌≡◌, ◌⊎◌, ◌<◌, ◌≤◌, ◌+◌, ◌*◌, ℕ, true, false, IfOk, OnOk, slice_index};
ghost use Rattle.flash_device.specs.FlashCalls.{Costs, Lights, SameElsewhere, Tries};
ghost use Rattle.flash_device.specs.PageTables.{IsPageTable, AreFree};
ghost use Rattle.flash_device.specs.FlashBlocks.{area_size, witness_start};
ghost use Rattle.flash_device.specs.FlashLogs.{base_in, close_b, close_of, page_word, turn_by, turn_of, words_of};
ghost use Rattle.flash_device.specs.FlashLogs.{is_closed as has_closed, is_marked as has_mark};
ghost use Rattle.flash_area.specs.HeldPages.{HavePages};
ghost use Rattle.flash_moves.specs.Paces.{IsInPace, IsRoomy, KeepsFree, KeepsRoom};
ghost use Rattle.flash_moves.specs.Rings.{IsRing};
ghost use Rattle.flash_device.specs.declared.layout.TheConstants.{SPARES};

use flash_area::{close, copy_pages, is_closed};
use flash_device::{Flash, erase_area, erase_flash, erase_witness};
use nvm_board::DeviceErr;

/// Finds the turn.
pub fn find_turn<F: Flash>(flash: &mut F) -> Result<u8, DeviceErr>
    requires { (F.state flash.old).dark ≡ false }
    ensures turn { IfOk result (λ t. t ≡ turn_of F.SLOTS (F.state flash.old).words) }
    ensures small { IfOk result (λ t. t < 3) }
    ensures words { (F.state flash.new).words ≡ (F.state flash.old).words }
    ensures work { (F.state flash.new).operations ≡ (F.state flash.old).operations }
    ensures erases { (F.state flash.new).erases ≡ (F.state flash.old).erases }
    ensures light { Lights (F.state flash.old) (F.state flash.new) result }
{
    let a = is_closed(flash, 0)?;
    let b = is_closed(flash, 1)?;
    let c = is_closed(flash, 2)?;
    Ok(turn_by_marks(a, b, c))
}

/// Returns true if some block is closed and some is open.
pub fn has_ring<F: Flash>(flash: &mut F) -> Result<bool, DeviceErr>
    requires { (F.state flash.old).dark ≡ false }
    ensures ring { IfOk result (λ b. b ≡ true → IsRing F.SLOTS (F.state flash.old).words) }
    ensures none { IfOk result (λ b. b ≡ false → ¬ IsRing F.SLOTS (F.state flash.old).words) }
    ensures words { (F.state flash.new).words ≡ (F.state flash.old).words }
    ensures work { (F.state flash.new).operations ≡ (F.state flash.old).operations }
    ensures erases { (F.state flash.new).erases ≡ (F.state flash.old).erases }
    ensures kept { (F.state flash.new).kept ≡ (F.state flash.old).kept }
    ensures light { Lights (F.state flash.old) (F.state flash.new) result }
{
    let a = is_closed(flash, 0)?;
    let b = is_closed(flash, 1)?;
    let c = is_closed(flash, 2)?;
    Ok(a != b || b != c)
}

/// From turn 1 to turn 2: the pages stay.
pub fn pass_witness<F: Flash>(flash: &mut F) -> Result<(), DeviceErr>
    requires lit { (F.state flash.old).dark ≡ false }
    requires turn { turn_of F.SLOTS (F.state flash.old).words ≡ 1 }
    ensures words { words_of F.PAGES F.SLOTS (F.state flash.new).words
        ≡ words_of F.PAGES F.SLOTS (F.state flash.old).words }
    ensures ring { IsRing F.SLOTS (F.state flash.new).words }
    ensures area { SameElsewhere (F.state flash.old).words (close_b F.SLOTS) 4 (F.state flash.new).words }
    ensures passes { (turn_of F.SLOTS (F.state flash.new).words ≡ 1)
        ⊎ (turn_of F.SLOTS (F.state flash.new).words ≡ 2) }
    ensures done { OnOk result (turn_of F.SLOTS (F.state flash.new).words ≡ 2) }
    ensures mark { OnOk result (has_mark (F.state flash.new).words (close_b F.SLOTS) ≡ true) }
    ensures work { (F.state flash.new).operations ≤ (F.state flash.old).operations + 2 }
    ensures erases { (F.state flash.new).erases ≤ (F.state flash.old).erases + 1 }
    ensures light { Lights (F.state flash.old) (F.state flash.new) result }
{
    erase_witness(flash)?;
    close(flash, 1)?;
    Ok(())
}

/// Erases an area and copies the pages to it. Returns its first free slot.
fn erase_and_copy<F: Flash>(
    flash: &mut F,
    from: u8,
    to: u8,
    table: &mut F::Table,
) -> Result<u16, DeviceErr>
    requires lit { (F.state flash.old).dark ≡ false }
    requires areas { from + to ≡ 1 }
    requires index { IsPageTable F.PAGES (F.state flash.old).words (base_in F.SLOTS from) F.SLOTS
        (F.Table.entries table.old) }
    ensures elsewhere { SameElsewhere (F.state flash.old).words (base_in F.SLOTS to) (area_size F.SLOTS)
        (F.state flash.new).words }
    ensures open { OnOk result (has_closed (F.state flash.new).words (close_of F.SLOTS to) ≡ false) }
    ensures pages { OnOk result ((p k : ℕ) → p < F.PAGES → k < 16
        → page_word (F.state flash.new).words (base_in F.SLOTS to) F.SLOTS p k
        ≡ page_word (F.state flash.old).words (base_in F.SLOTS from) F.SLOTS p k) }
    ensures index { OnOk result (IsPageTable F.PAGES (F.state flash.new).words (base_in F.SLOTS to) F.SLOTS
        (F.Table.entries table.new)) }
    ensures free { IfOk result (λ n. AreFree (F.state flash.new).words (base_in F.SLOTS to) n F.SLOTS) }
    ensures room { IfOk result (λ n. n ≤ F.PAGES + SPARES) }
    ensures passes { IfOk result (λ n. n + (F.state flash.old).faults ≤ F.PAGES + (F.state flash.new).faults) }
    ensures have { IfOk result (λ n. (F.state flash.new).faults ≡ (F.state flash.old).faults
        → HavePages F.PAGES F.SLOTS (F.state flash.new).words (base_in F.SLOTS to) n) }
    ensures light { Tries 1 (F.state flash.old) (F.state flash.new) result }
    ensures work { Costs (2 * F.PAGES + F.SECTORS) 2 (F.state flash.old) (F.state flash.new) }
    ensures erases { (F.state flash.new).erases ≤ (F.state flash.old).erases + F.SECTORS }
{
    erase_area(flash, to)?;
    let next = copy_pages(flash, from, to, table)?;
    Ok(next)
}

/// From turn 0 to turn 1: the pages move to area B. Returns its first free slot.
pub fn move_to_b<F: Flash>(flash: &mut F, table: &mut F::Table) -> Result<u16, DeviceErr>
    requires lit { (F.state flash.old).dark ≡ false }
    requires turn { turn_of F.SLOTS (F.state flash.old).words ≡ 0 }
    requires ring { IsRing F.SLOTS (F.state flash.old).words }
    requires index { IsPageTable F.PAGES (F.state flash.old).words 0 F.SLOTS (F.Table.entries table.old) }
    ensures words { words_of F.PAGES F.SLOTS (F.state flash.new).words
        ≡ words_of F.PAGES F.SLOTS (F.state flash.old).words }
    ensures ring { IsRing F.SLOTS (F.state flash.new).words }
    ensures done { OnOk result (turn_of F.SLOTS (F.state flash.new).words ≡ 1) }
    ensures index { OnOk result (IsPageTable F.PAGES (F.state flash.new).words (area_size F.SLOTS) F.SLOTS
        (F.Table.entries table.new)) }
    ensures free { IfOk result (λ n. AreFree (F.state flash.new).words (area_size F.SLOTS) n F.SLOTS) }
    ensures room { IfOk result (λ n. n ≤ F.PAGES + SPARES) }
    ensures passes { IfOk result (λ n. n + (F.state flash.old).faults ≤ F.PAGES + (F.state flash.new).faults) }
    ensures have { IfOk result (λ n. (F.state flash.new).faults ≡ (F.state flash.old).faults
        → HavePages F.PAGES F.SLOTS (F.state flash.new).words (area_size F.SLOTS) n) }
    ensures keeps_free { KeepsFree F.PAGES F.SLOTS (F.state flash.old) (F.state flash.new) }
    ensures keeps_room { KeepsRoom F.PAGES F.SLOTS (F.state flash.old).words (F.state flash.new).words }
    ensures light { Tries 1 (F.state flash.old) (F.state flash.new) result }
    ensures work { Costs (2 * F.PAGES + 1 + F.SECTORS) 2 (F.state flash.old) (F.state flash.new) }
    ensures erases { (F.state flash.new).erases ≤ (F.state flash.old).erases + F.SECTORS }
{
    let next = erase_and_copy(flash, 0, 1, table)?;
    close(flash, 0)?;
    Ok(next)
}

/// From turn 2 to turn 0: the pages move to area A. Returns its first free slot.
pub fn move_to_a<F: Flash>(flash: &mut F, table: &mut F::Table) -> Result<u16, DeviceErr>
    requires lit { (F.state flash.old).dark ≡ false }
    requires turn { turn_of F.SLOTS (F.state flash.old).words ≡ 2 }
    requires index { IsPageTable F.PAGES (F.state flash.old).words (area_size F.SLOTS) F.SLOTS
        (F.Table.entries table.old) }
    ensures words { words_of F.PAGES F.SLOTS (F.state flash.new).words
        ≡ words_of F.PAGES F.SLOTS (F.state flash.old).words }
    ensures ring { IsRing F.SLOTS (F.state flash.new).words }
    ensures done { OnOk result (turn_of F.SLOTS (F.state flash.new).words ≡ 0) }
    ensures index { OnOk result (IsPageTable F.PAGES (F.state flash.new).words 0 F.SLOTS (F.Table.entries table.new)) }
    ensures free { IfOk result (λ n. AreFree (F.state flash.new).words 0 n F.SLOTS) }
    ensures room { IfOk result (λ n. n ≤ F.PAGES + SPARES) }
    ensures passes { IfOk result (λ n. n + (F.state flash.old).faults ≤ F.PAGES + (F.state flash.new).faults) }
    ensures have { IfOk result (λ n. (F.state flash.new).faults ≡ (F.state flash.old).faults
        → HavePages F.PAGES F.SLOTS (F.state flash.new).words 0 n) }
    ensures keeps_free { KeepsFree F.PAGES F.SLOTS (F.state flash.old) (F.state flash.new) }
    ensures keeps_room { KeepsRoom F.PAGES F.SLOTS (F.state flash.old).words (F.state flash.new).words }
    ensures mark { OnOk result (has_mark (F.state flash.new).words (witness_start F.SLOTS) ≡ true) }
    ensures light { Tries 1 (F.state flash.old) (F.state flash.new) result }
    ensures work { Costs (2 * F.PAGES + 1 + F.SECTORS) 2 (F.state flash.old) (F.state flash.new) }
    ensures erases { (F.state flash.new).erases ≤ (F.state flash.old).erases + F.SECTORS }
{
    let next = erase_and_copy(flash, 1, 0, table)?;
    close(flash, 2)?;
    Ok(next)
}

/// The turn, by which blocks are closed.
fn turn_by_marks(a: bool, b: bool, c: bool) -> u8
    ensures is { result ≡ turn_by a b c }
    ensures small { result < 3 }
{
    if a && !b {
        return 1;
    }
    if b && !c {
        return 2;
    }
    0
}

/// Makes a flash of which all words of the board are 0.
pub fn format_flash<F: Flash>(flash: &mut F) -> Result<(), DeviceErr>
    requires { (F.state flash.old).dark ≡ false }
    ensures ring { OnOk result (IsRing F.SLOTS (F.state flash.new).words) }
    ensures blank { OnOk result ((i : ℕ) → i < 16 * F.PAGES
        → slice_index (words_of F.PAGES F.SLOTS (F.state flash.new).words) i ≡ 0) }
    ensures free { OnOk result (AreFree (F.state flash.new).words
        (base_in F.SLOTS (turn_of F.SLOTS (F.state flash.new).words)) 0 F.SLOTS) }
    ensures in_pace { OnOk result ((extra : ℕ) → IsRoomy F.PAGES F.SLOTS F.SECTORS extra
        → IsInPace F.PAGES F.SLOTS F.SECTORS F.sector_start (F.state flash.new).words extra) }
    ensures work { (F.state flash.new).operations ≤ (F.state flash.old).operations + 2 * F.SECTORS + 2 }
    ensures light { Lights (F.state flash.old) (F.state flash.new) result }
{
    erase_flash(flash)?;
    close(flash, 2)?;
    Ok(())
}
