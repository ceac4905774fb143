//! The sectors of devices with program units.
ghost use Rattle.std.specs.Prelude.{◌≡◌, ◌<◌, ◌≤◌, ◌+◌, ◌*◌, ℕ};
ghost use Rattle.flash_device.specs.declared.layout.TheConstants.{SPARES};
ghost use Rattle.program_units.specs.UnitFrames.{frame_count};
ghost use Rattle.simulated_chips.specs.SimFrameParts.{even_frame};

/// The sectors of a device with program units, for a board of 1,024 pages.
pub trait UnitSectors {
    /// The number of slots of an area.
    const SLOTS: u16;

    /// The number of sectors of an area.
    const SECTORS: u16;

    ghost SLOTS: { ℕ };

    ghost SECTORS: { ℕ };

    /// The first frame of each sector.
    ghost first_frame: { ℕ → ℕ };

    /// Returns the first frame of a sector.
    fn first_frame_at(sector: u16) -> u32
        ensures is { result ≡ first_frame sector }
        ensures most { result ≤ frame_count SLOTS };

    ghost slots_fit: { (1024 + SPARES < SLOTS) × (SLOTS < 65536) };

    ghost sectors_rise: { (s : ℕ) → first_frame s ≤ first_frame (s + 1) };

    ghost sectors_fit: { (first_frame 0 ≡ 0) × (first_frame SECTORS ≡ SLOTS + 1)
        × (first_frame (2 * SECTORS) ≡ 2 * SLOTS + 2) × (first_frame (2 * SECTORS + 1) ≡ frame_count SLOTS)
        × (0 < SECTORS) × (SECTORS < 32768) };
}

/// Returns the first frame of a sector, if so many of one size are followed by the witness, of one frame.
fn even_frame_at(each: u16, last: u16, sector: u16) -> u32
    ensures is { result ≡ even_frame each last sector }
    ensures most { result ≤ each * last + 1 }
{
    if sector <= last {
        u32::from(each) * u32::from(sector)
    } else {
        u32::from(each) * u32::from(last) + 1
    }
}

/// Three sectors in each area, of 427 frames.
#[derive(Clone, Copy)]
pub struct LargeSectors;

impl UnitSectors for LargeSectors {
    ghost use Rattle.std.proofs.Common.{lit<, refl};
    ghost use Rattle.simulated_chips.specs.SimFrameParts.{even_frame, even_frames_rise};

    const SLOTS: u16 = 1280;

    const SECTORS: u16 = 3;

    ghost SLOTS = { 1280 };

    ghost SECTORS = { 3 };

    ghost first_frame = { even_frame 427 6 };

    fn first_frame_at(sector: u16) -> u32 {
        even_frame_at(427, 6, sector)
    }

    ghost slots_fit = { (lit< tt, lit< tt) };

    ghost sectors_rise = { even_frames_rise 427 6 };

    ghost sectors_fit = { (refl, refl, refl, refl, lit< tt, lit< tt) };
}

/// Eighty sectors in each area, of 26 frames.
#[derive(Clone, Copy)]
pub struct SmallSectors;

impl UnitSectors for SmallSectors {
    ghost use Rattle.std.proofs.Common.{lit<, refl};
    ghost use Rattle.simulated_chips.specs.SimFrameParts.{even_frame, even_frames_rise};

    const SLOTS: u16 = 2079;

    const SECTORS: u16 = 80;

    ghost SLOTS = { 2079 };

    ghost SECTORS = { 80 };

    ghost first_frame = { even_frame 26 160 };

    fn first_frame_at(sector: u16) -> u32 {
        even_frame_at(26, 160, sector)
    }

    ghost slots_fit = { (lit< tt, lit< tt) };

    ghost sectors_rise = { even_frames_rise 26 160 };

    ghost sectors_fit = { (refl, refl, refl, refl, lit< tt, lit< tt) };
}
