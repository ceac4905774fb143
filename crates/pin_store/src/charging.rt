//! The tries of a secret, and the charge that uses up a try before the comparison.
ghost use Rattle.std.specs.Prelude.{◌≡◌, ◌<◌, IfOk, IsErrOf};
ghost use Rattle.std.specs.Result.{result_err};
ghost use Rattle.nvm_board.specs.declared.board.TheConstants.{SECRETS};
ghost use Rattle.undo_journal.specs.StoreCalls.{Reads};
ghost use Rattle.undo_journal.specs.Memory.{committed, IsReady};
ghost use Rattle.pin_store.specs.declared.errors.PinErr.TheVariants.{Blocked};
ghost use Rattle.card_model.specs.Secrets.{tries_left};
ghost use Rattle.pin_store.specs.Trials.{pin_in, store_failure, Charges, HasPins, TakesTry};

use crate::errors::PinErr;
use crate::layout::PIN_MARK_WORD;
use crate::putting::put_left;
use crate::secret::Secret;
use std::marker::Model;
use undo_journal::{Board, Store, StoreErr};

/// The receipt of a charge. A try of this secret is used up. `settle`, `change`, `reset_counter` and `set_enabled`
/// consume it, and only they compare. It can't be copied or dropped.
pub struct Charged {
    pub(crate) secret: Secret,
}

impl Model for Charged {
    ghost use Rattle.std.specs.Prelude.{ℕ};

    ghost Value = { ℕ };

    ghost view = { λ c. c.secret };
}

impl Charged {
    /// Returns the number of the secret that was charged, as `Secret::number` does.
    pub fn secret(&self) -> u8
        ensures secret { result ≡ self.now }
        ensures in_range { result < SECRETS }
    {
        self.secret.number()
    }
}

/// Returns the number of tries left of a secret.
///
/// # Errors
/// The store's failure: power was lost, or the device failed.
pub fn tries<B: Board>(store: &mut Store<B>, secret: Secret) -> Result<u8, StoreErr>
    requires pins { HasPins store.old }
    ensures left { IfOk result (λ left. left ≡ tries_left secret (pin_in store.old secret)) }
    ensures store { Reads store.old store.new (result_err result) }
{
    let word = store.read(secret.address_of(secret.tries_place()))?;
    Ok(word as u8)
}

/// Returns true if the PIN is enabled. Its verification is required then.
///
/// # Errors
/// The store's failure: power was lost, or the device failed.
pub fn is_enabled<B: Board>(store: &mut Store<B>, secret: Secret) -> Result<bool, StoreErr>
    requires ready { IsReady store.old }
    ensures enabled { IfOk result (λ enabled. enabled ≡ (pin_in store.old secret).enabled) }
    ensures store { Reads store.old store.new (result_err result) }
{
    let mark = store.read(secret.address_of(PIN_MARK_WORD))?;
    Ok(mark == 1)
}

/// Uses up a try of a secret permanently. It takes one device write (`counted` of `takes`). It compares nothing, at
/// any exit: the counts of comparisons and of matches are unchanged (`store` of `takes`).
///
/// # Errors
/// `Blocked` if no try is left (`blocked`, `done`). In that state it writes nothing, at any exit (`kept` of `takes`).
/// The store's failure: power was lost, or the device failed. The try may be used up then, and there is no receipt.
pub fn charge<B: Board>(store: &mut Store<B>, secret: Secret) -> Result<Charged, PinErr>
    requires pins { HasPins store.old }
    ensures done { IfOk result (λ charged. (charged ≡ secret) × Charges secret store.old store.new) }
    ensures blocked { IsErrOf result Blocked → (tries_left secret (pin_in store.old secret) ≡ 0) × IsReady store.new }
    ensures takes { TakesTry secret (tries_left secret (pin_in store.old secret) ≡ 0) store.old store.new result
        (store_failure result) }
{
    let left = tries(store, secret)?;
    if left == 0 {
        return Err(PinErr::Blocked);
    }
    put_left(store, secret, left - 1)?;
    Ok(Charged { secret })
}
