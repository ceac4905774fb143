//! The area that has the pages, and the one that they move to, by the turn.
ghost use Rattle.std.specs.Prelude.{◌≡◌, ◌≢◌, ◌<◌, ◌≤◌, ℕ};
ghost use Rattle.flash_device.specs.FlashLogs.{base_in};
ghost use Rattle.flash_area.specs.Spares.{spare_in, spare_sector};

use flash_device::Flash;

/// The area that has the pages.
pub fn home(turn: u8) -> u8
    requires { turn < 3 }
    ensures is { (slots : ℕ) → base_in slots result ≡ base_in slots turn }
    ensures most { result < 2 }
    ensures zero { turn ≡ 0 → result ≡ 0 }
    ensures two { turn ≡ 2 → result ≡ 1 }
{
    if turn == 0 { 0 } else { 1 }
}

/// The area that the pages move to.
pub fn spare(turn: u8) -> u8
    requires { turn < 3 }
    ensures is { (slots : ℕ) → base_in slots result ≡ spare_in slots turn }
    ensures most { result < 2 }
    ensures zero { turn ≡ 0 → result ≡ 1 }
    ensures other { turn ≢ 0 → result ≡ 0 }
{
    if turn == 0 { 1 } else { 0 }
}

/// The number of the first sector of the area that the pages move to.
pub fn first_sector_of_spare<F: Flash>(turn: u8) -> u16
    ensures is { result ≡ spare_sector F.SECTORS turn }
    ensures most { result ≤ F.SECTORS }
{
    if turn == 0 { F::SECTORS } else { 0 }
}
