//! The flash that a command line gives: of large sectors, or of small ones.
ghost use Rattle.std.specs.Prelude.{IfErr, IfOk};
ghost use Rattle.card_files.specs.FlashFiles.{IsFlashRefusedAs};
ghost use Rattle.flash_cli.specs.GivenParts.{IsGivenFlash, given_kind};

use card_files::{Asked, KeptFile, NoFlash, open_flash};
use simulated_flashes::{KeptFlash, LargeSectors, SmallSectors};

/// What a command line gives: whether the flash has small sectors, what chooses its garbage, and its card.
#[derive(Drop)]
pub struct Given {
    pub small: bool,
    pub seed: u64,
    pub asked: Asked,
}

/// A flash of either kind.
#[derive(Drop)]
pub enum AnyFlash {
    /// Its sectors are large.
    Large(KeptFlash<KeptFile, LargeSectors>),
    /// Its sectors are small.
    Small(KeptFlash<KeptFile, SmallSectors>),
}

/// Returns the flash with a card that a command line gives.
///
/// # Errors
/// There is too little memory, or the file is not taken as that of a card on such a flash.
pub fn flash_given(rt: &HostRuntime, given: Given) -> Result<AnyFlash, NoFlash>
    ensures flash { IfOk result (IsGivenFlash given) }
    ensures refused { IfErr result (IsFlashRefusedAs (given_kind given) given.asked) }
{
    let Given { small, seed, asked } = given;
    if small {
        return open_flash::<SmallSectors>(rt, seed, asked).map(|flash| AnyFlash::Small(flash));
    }
    open_flash::<LargeSectors>(rt, seed, asked).map(|flash| AnyFlash::Large(flash))
}
