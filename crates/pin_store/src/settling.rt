//! The calls that consume a charge: each compares the charged secret once, and sets the PIN after a match.
ghost use Rattle.std.specs.Prelude.{◌≡◌, ◌<◌, ◌≤◌, if◌then◌else◌, IfOk};
ghost use Rattle.std.specs.Result.{result_err};
ghost use Rattle.undo_journal.specs.StoreCalls.{Reads, Leaves};
ghost use Rattle.undo_journal.specs.Commits.{CommitsLast, StaysShut};
ghost use Rattle.undo_journal.specs.Memory.{committed, IsReady};
ghost use Rattle.card_model.specs.declared.pins.TheConstants.{PINS};
ghost use Rattle.card_model.specs.Secrets.{changed_pin, kept, marked_pin, reset_pin, verified_pin};
ghost use Rattle.pin_store.specs.RenewalParts.{renewing_writes, renewed_pin};
ghost use Rattle.pin_store.specs.Trials.{pin_in, Compared, ComparesOnce, EndsTrial, HasPins, RenewsByGate};

use crate::charging::{Charged, tries};
use crate::errors::Outcome;
use crate::putting::{Renewal, put_renewed, put_tries};
use crate::secret::Secret;
use crate::words::bytes_of;
use undo_journal::{Board, Store, StoreErr};

/// VERIFY: compares the presented bytes with the PIN's value. A match sets its tries to 3 in one device write; a
/// mismatch writes nothing.
///
/// # Errors
/// The store's failure: power was lost, or the device failed. The receipt is consumed even then.
pub fn settle<B: Board>(
    store: &mut Store<B>,
    charged: Charged,
    shown: &[u8; 8],
) -> Result<Outcome, StoreErr>
    requires pins { HasPins store.old }
    requires secret { charged < PINS }
    ensures { EndsTrial StaysShut 1 charged shown.now verified_pin store.old store.new result }
{
    let secret = charged.secret;
    let outcome = compare(store, charged, shown)?;
    if let Outcome::Matched = outcome {
        put_tries(store, secret)?;
    }
    Ok(outcome)
}

/// CHANGE REFERENCE DATA: compares the presented bytes with the PIN's value. A match sets its tries to 3 and replaces
/// the value, in one transaction of five device writes. A mismatch writes nothing.
///
/// # Errors
/// The store's failure: power was lost, or the device failed. The receipt is consumed even then.
pub fn change<B: Board>(
    store: &mut Store<B>,
    charged: Charged,
    shown: &[u8; 8],
    new: &[u8; 8],
) -> Result<Outcome, StoreErr>
    requires pins { HasPins store.old }
    requires secret { charged < PINS }
    ensures { EndsTrial (RenewsByGate charged shown.now (changed_pin new.now)) 5 charged shown.now (changed_pin new.now)
        store.old store.new result }
{
    renew(store, charged, shown, Renewal::Value(new))
}

/// RESET RETRY COUNTER: compares the presented bytes with the unblocking value. A match sets the unblocking tries to
/// 10 and the tries to 3, and replaces the value, in one transaction of four device writes. A mismatch writes
/// nothing.
///
/// # Errors
/// The store's failure: power was lost, or the device failed. The receipt is consumed even then.
pub fn reset_counter<B: Board>(
    store: &mut Store<B>,
    charged: Charged,
    shown: &[u8; 8],
    new: &[u8; 8],
) -> Result<Outcome, StoreErr>
    requires pins { HasPins store.old }
    requires secret { PINS ≤ charged }
    ensures { EndsTrial (RenewsByGate charged shown.now (reset_pin new.now)) 4 charged shown.now (reset_pin new.now)
        store.old store.new result }
{
    renew(store, charged, shown, Renewal::ValueAndTries(new))
}

/// ENABLE and DISABLE VERIFICATION REQUIREMENT: compares the presented bytes with the value. A match sets the tries
/// to 3, and enables or disables the PIN, in one transaction of five device writes. A mismatch writes nothing.
///
/// # Errors
/// The store's failure: power was lost, or the device failed. The receipt is consumed even then.
pub fn set_enabled<B: Board>(
    store: &mut Store<B>,
    charged: Charged,
    shown: &[u8; 8],
    enabled: bool,
) -> Result<Outcome, StoreErr>
    requires pins { HasPins store.old }
    requires secret { charged < PINS }
    ensures { EndsTrial (RenewsByGate charged shown.now (marked_pin enabled)) 5 charged shown.now (marked_pin enabled)
        store.old store.new result }
{
    renew(store, charged, shown, Renewal::Mark(enabled))
}

/// Compares the presented bytes with the charged secret. After a match it makes the renewal in one transaction. After
/// a mismatch it writes nothing.
fn renew<B: Board>(
    store: &mut Store<B>,
    charged: Charged,
    shown: &[u8; 8],
    renewal: Renewal<'_>,
) -> Result<Outcome, StoreErr>
    requires pins { HasPins store.old }
    ensures { EndsTrial (RenewsByGate charged shown.now (renewed_pin renewal.entry)) (renewing_writes renewal.entry)
        charged shown.now (renewed_pin renewal.entry) store.old store.new result }
{
    let secret = charged.secret;
    let outcome = compare(store, charged, shown)?;
    if let Outcome::Matched = outcome {
        put_renewed(store, secret, renewal)?;
    }
    Ok(outcome)
}

/// Compares the presented bytes with the charged secret. It writes nothing.
fn compare<B: Board>(
    store: &mut Store<B>,
    charged: Charged,
    shown: &[u8; 8],
) -> Result<Outcome, StoreErr>
    requires pins { HasPins store.old }
    ensures done { IfOk result (Compared charged shown.now store.old store.new) }
    ensures kept { committed store.new ≡ committed store.old }
    ensures store { Leaves store.old store.new (result_err result) }
    ensures shut { StaysShut store.old store.new }
    ensures spends { ComparesOnce 0 charged shown.now store.old store.new }
    ensures writes { store.new.facts.writes ≡ store.old.facts.writes }
    ensures between { CommitsLast store.old.facts store.new.facts }
{
    let Charged { secret } = charged;
    let left = tries(store, secret)?;
    let kept = kept(store, secret)?;
    let right = store.compare(secret.number(), &kept, shown)?;
    Ok(outcome_of(right, left))
}

/// Returns the outcome of a comparison. `left` tries were left before it.
fn outcome_of(right: bool, left: u8) -> Outcome
    ensures { result ≡ (if right then Outcome.Matched else Outcome.Wrong left) }
{
    if right {
        Outcome::Matched
    } else {
        Outcome::Wrong(left)
    }
}

/// Returns the stored bytes of a secret.
fn kept<B: Board>(store: &mut Store<B>, secret: Secret) -> Result<[u8; 8], StoreErr>
    requires ready { IsReady store.old }
    ensures kept { IfOk result (λ bytes. bytes ≡ kept secret (pin_in store.old secret)) }
    ensures store { Reads store.old store.new (result_err result) }
{
    let place = secret.kept_place();
    let first = store.read(secret.address_of(place))?;
    let second = store.read(secret.address_of(place + 1))?;
    Ok(bytes_of(first, second))
}
