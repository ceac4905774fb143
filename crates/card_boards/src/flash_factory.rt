//! The factory card on a simulated flash.
ghost use Rattle.std.specs.Prelude.{IfOk};
ghost use Rattle.simulated_flashes.specs.Complements.{IsFirstRandom};
ghost use Rattle.simulated_flashes.specs.GarblingStates.{garbling_state};
ghost use Rattle.card_boards.specs.FlashImages.{IsFactoryFlash, IsFlashReady};

use crate::card_sizes::CardSizes;
use simulated_flashes::GarblingFlash;
use std::alloc::{AllocError, Global};

/// Returns a simulated flash with the factory card in format 2. The seed chooses what power losses leave in it.
///
/// # Errors
/// There is too little memory for the flash.
pub fn factory_flash<S: CardSizes>(alloc: Global, seed: u64) -> Result<GarblingFlash<S>, AllocError>
    ensures card { IfOk result (λ flash. IsFactoryFlash S.kind (garbling_state flash).words) }
    ensures ready { IfOk result (λ flash. IsFlashReady (garbling_state flash)) }
    ensures random { IfOk result (λ flash. IsFirstRandom seed flash.random) }
{
    // With the seed set after the card is made, a new flash leaves the same garbage as one of its words.
    Ok(GarblingFlash::of_words(S::factory_words(alloc)?, seed))
}
