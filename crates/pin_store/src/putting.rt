//! Setting a PIN after a match.
ghost use Rattle.std.specs.Prelude.{◌≡◌, ◌≤◌, if◌then◌else◌};
ghost use Rattle.undo_journal.specs.Commits.{StaysShut};
ghost use Rattle.undo_journal.specs.Lent.{memory_of};
ghost use Rattle.undo_journal.specs.Memory.{IsReady};
ghost use Rattle.card_model.specs.Secrets.{changed_pin, marked_pin, reset_pin, tries_left, verified_pin, with_tries};
ghost use Rattle.pin_store.specs.PutParts.{PutsIts, SetsByGate, SetsIts};
ghost use Rattle.pin_store.specs.RenewalParts.{renewal_runs, renewal_sets, renewing_writes, renewed_pin};
ghost use Rattle.pin_store.specs.Trials.{pin_in};
ghost use Rattle.undo_journal.specs.Rooms.{HasRoom};

use crate::layout::{PIN_MARK_WORD, TRIES, TRIES_WORD, UNBLOCKING_TRIES, VALUE_WORD};
use crate::secret::Secret;
use crate::words::words_of;
use undo_journal::{Board, Store, StoreErr, Txn};

/// What a match changes besides the tries of the value.
#[derive(Clone, Copy)]
pub(crate) enum Renewal<'a> {
    /// The value is replaced.
    Value(&'a [u8; 8]),
    /// The value is replaced, and all unblocking tries are restored.
    ValueAndTries(&'a [u8; 8]),
    /// The PIN is enabled or disabled.
    Mark(bool),
}

/// Sets the tries of a PIN to 3, and its value. In a transaction, it sets words 0, 2 and 3 of the page, in this
/// order.
fn set_value<B: Board>(txn: &mut Txn<'_, B>, secret: Secret, new: &[u8; 8]) -> Result<(), StoreErr>
    requires { HasRoom (memory_of txn.old) 3 }
    ensures { SetsIts 3 2 secret (changed_pin new.now) txn.old txn.new result }
{
    let [first, second] = words_of(new);
    txn.set_run(secret.address_of(TRIES_WORD), &[u32::from(TRIES)])?;
    txn.set_run(secret.address_of(VALUE_WORD), &[first, second])
}

/// Sets all tries of a PIN, and its value. The tries are 3, the unblocking tries 10. In a transaction, it sets words
/// 0 to 3 of the page, in this order.
fn set_all<B: Board>(txn: &mut Txn<'_, B>, secret: Secret, new: &[u8; 8]) -> Result<(), StoreErr>
    requires { HasRoom (memory_of txn.old) 4 }
    ensures { SetsIts 4 1 secret (reset_pin new.now) txn.old txn.new result }
{
    let [first, second] = words_of(new);
    txn.set_run(
        secret.address_of(TRIES_WORD),
        &[u32::from(TRIES), u32::from(UNBLOCKING_TRIES), first, second],
    )
}

/// Sets the tries of a PIN to 3, and its mark. In a transaction, it sets words 0 and 6 of the page, in this order.
fn set_mark<B: Board>(txn: &mut Txn<'_, B>, secret: Secret, enabled: bool) -> Result<(), StoreErr>
    requires { HasRoom (memory_of txn.old) 2 }
    ensures { SetsIts 2 2 secret (marked_pin enabled) txn.old txn.new result }
{
    txn.set_run(secret.address_of(TRIES_WORD), &[u32::from(TRIES)])?;
    txn.set_run(secret.address_of(PIN_MARK_WORD), &[mark_of(enabled)])
}

/// Returns the mark of an enabled or a disabled PIN.
fn mark_of(enabled: bool) -> u32
    ensures { result ≡ (if enabled then 1 else 0) }
{
    if enabled { 1 } else { 0 }
}

/// Lowers the tries of a secret, in one device write. An equal number is allowed.
pub(crate) fn put_left<B: Board>(
    store: &mut Store<B>,
    secret: Secret,
    left: u8,
) -> Result<(), StoreErr>
    requires ready { IsReady store.old }
    requires fewer { left ≤ tries_left secret (pin_in store.old secret) }
    ensures { PutsIts StaysShut 1 secret (with_tries secret left) store.old store.new result }
{
    store.put_alone(secret.address_of(secret.tries_place()), u32::from(left))
}

/// Sets the tries of a PIN to 3, in one device write.
pub(crate) fn put_tries<B: Board>(store: &mut Store<B>, secret: Secret) -> Result<(), StoreErr>
    requires ready { IsReady store.old }
    ensures { PutsIts StaysShut 1 secret verified_pin store.old store.new result }
{
    store.put_alone(secret.address_of(TRIES_WORD), u32::from(TRIES))
}

/// Sets what a match changes, within a transaction.
fn set_renewed<B: Board>(
    txn: &mut Txn<'_, B>,
    secret: Secret,
    renewal: Renewal<'_>,
) -> Result<(), StoreErr>
    requires { HasRoom (memory_of txn.old) 4 }
    ensures { SetsIts (renewal_sets renewal.entry) (renewal_runs renewal.entry) secret (renewed_pin renewal.entry)
        txn.old txn.new result }
{
    match renewal {
        Renewal::Value(new) => set_value(txn, secret, new),
        Renewal::ValueAndTries(new) => set_all(txn, secret, new),
        Renewal::Mark(enabled) => set_mark(txn, secret, enabled),
    }
}

/// Sets what a match changes, in one transaction.
pub(crate) fn put_renewed<B: Board>(
    store: &mut Store<B>,
    secret: Secret,
    renewal: Renewal<'_>,
) -> Result<(), StoreErr>
    requires ready { IsReady store.old }
    ensures { PutsIts (SetsByGate secret (renewed_pin renewal.entry)) (renewing_writes renewal.entry) secret
        (renewed_pin renewal.entry) store.old store.new result }
{
    let mut txn = store.begin();
    let work = set_renewed(&mut txn, secret, renewal);
    txn.end(work)
}
