//! The commands on life cycles: ACTIVATE FILE, DEACTIVATE FILE, TERMINATE DF, TERMINATE EF and TERMINATE CARD USAGE
//! (ISO/IEC 7816-9).
ghost use Rattle.std.specs.Prelude.{◌≡◌, [], Some, Ok, Err};
ghost use Rattle.undo_journal.specs.Memory.{committed};
ghost use Rattle.card_model.specs.Requests.{change_life_cycle as changing, terminate_card_usage as terminating};
ghost use Rattle.file_tree.specs.Table.{IsUsed};
ghost use Rattle.file_commands.specs.LifeParts.{change_at, changed_by, current_changed, is_for_kind, IsChanged};
ghost use Rattle.card_model.specs.LifeCycleCommands.{change_bit, change_refusals, command_of, no_subject};
ghost use Rattle.card_model.specs.Behaviours.{refused_by};
ghost use Rattle.command_base.specs.Served.{Executes};
ghost use Rattle.command_base.specs.InPlace.{ExecutesInPlace};
ghost use Rattle.command_base.specs.Stops.{Looks, reply};
ghost use Rattle.command_base.specs.Working.{card_in, session_in, table_in, IsIndexed, IsKept};

use crate::files::find_subject;
use apdu_core::{LifeCycleChange, Subject, Sw};
use card_model::{AccessBit, LifeCycle, LifeCycleCommand};
use command_base::{Current, Stop, TargetFile, allows};
use file_changes::{next_life_cycle, set_life_cycle, terminate_card};
use file_lookup::read_entry;
use file_tree::{Entry, EntryKind, EntryNumber, Index};
use undo_journal::{Board, Store};

/// A change of a file's life cycle: entry, and new state.
#[derive(Clone, Copy)]
pub(crate) struct Changed {
    pub number: EntryNumber,
    pub entry: Entry,
    pub life: LifeCycle,
}

/// Changes a file's life cycle, and selects the file.
/// It needs one transaction.
/// The commands are ACTIVATE FILE, DEACTIVATE FILE, TERMINATE DF and TERMINATE EF. A file that is in the state already
/// needs no write. Returns the status word.
///
/// # Errors
/// 6A82 or 6986 without the file; 6985 if an ancestor is barred, or by the file's life cycle; 6981 by its kind; 6982
/// by its rule. Or the store fails.
pub fn change_life_cycle<B: Board>(
    store: &mut Store<B>,
    index: &Index,
    current: &mut Current,
    change: LifeCycleChange,
    subject: Subject,
) -> Result<Sw, Stop>
    requires card { IsIndexed store.old current.old index.now }
    ensures { ExecutesInPlace (changing change subject) store.old current.old store.new current.new [] (reply result) }
{
    let changed = find_change(store, index, current, change, subject)?;
    set_life_cycle(store, changed.number, changed.life)?;
    *current = current.at(changed.number, &changed.entry);
    Ok(Sw::DONE)
}

/// TERMINATE CARD USAGE: permanently terminates the card, in one transaction.
/// The rule of the master file must allow it. Returns the status word.
///
/// # Errors
/// 6982 by the rule of the master file. Or the store fails.
pub fn terminate_card_usage<B: Board>(store: &mut Store<B>, current: &Current) -> Result<Sw, Stop>
    requires kept { IsKept store.old current.now }
    ensures { Executes (terminating) store.old current.now store.new current.now [] (reply result) }
{
    let number = EntryNumber::master();
    let entry = read_entry(store, number)?;
    let master = TargetFile { number, entry };
    if !allows(store, current, &master, AccessBit::Terminate)? {
        return Err(Stop::Refused(Sw::ACCESS_DENIED));
    }
    terminate_card(store)?;
    Ok(Sw::DONE)
}

/// Returns the file whose life cycle a command changes, or its refusal.
/// The refusals in order: there is no such file; a file above it is deactivated or terminated, or its own state doesn't
/// allow the change; it isn't of the command's kind; its rule doesn't allow the change.
#[tactic(auto, using(undo_journal::specs::laws::Calls::reads_then))]
fn find_change<B: Board>(
    store: &mut Store<B>,
    index: &Index,
    current: &Current,
    change: LifeCycleChange,
    subject: Subject,
) -> Result<Changed, Stop>
    requires card { IsIndexed store.old current.now index.now }
    ensures { Looks store.old store.new result
        (λ changed. IsChanged (committed store.old) current.now change subject changed)
        (λ refusal. refused_by (change_refusals (card_in store.old) (session_in store.old current.now) change subject)
        ≡ Some refusal) }
{
    let own = current_changed(current, change);
    let Some(number) = find_subject(store, index, current, own, subject)? else {
        return Err(Stop::Refused(no_subject(subject)));
    };
    read_change(store, current, change, number)
}

/// Returns the change of a used entry's file, or its refusal.
/// The refusal is by its life cycle, its kind or its rule.
#[tactic(auto, using(undo_journal::specs::laws::Calls::reads_then))]
fn read_change<B: Board>(
    store: &mut Store<B>,
    current: &Current,
    change: LifeCycleChange,
    number: EntryNumber,
) -> Result<Changed, Stop>
    requires kept { IsKept store.old current.now }
    requires used { IsUsed (table_in store.old) number }
    ensures { Looks store.old store.new result
        (λ changed. change_at (committed store.old) current.now change number ≡ Ok changed)
        (λ refusal. change_at (committed store.old) current.now change number ≡ Err refusal) }
{
    let (command, bit) = row_of(change);
    let entry = read_entry(store, number)?;
    let next = next_life_cycle(store, number, &entry, command)?;
    let allowed = allows(store, current, &TargetFile { number, entry }, bit)?;
    Ok(changed_by(change, number, entry, next, allowed)?)
}

/// Returns the change or its refusal.
/// The refusals in order: no state transition, the wrong kind of file, a rule that forbids it.
fn changed_by(
    change: LifeCycleChange,
    number: EntryNumber,
    entry: Entry,
    next: Option<LifeCycle>,
    allowed: bool,
) -> Result<Changed, Sw>
    ensures { result ≡ changed_by change number entry next allowed }
{
    let Some(life) = next else {
        return Err(Sw::CONDITIONS_NOT_SATISFIED);
    };
    if !is_for(change, &entry) {
        return Err(Sw::WRONG_STRUCTURE);
    }
    if !allowed {
        return Err(Sw::ACCESS_DENIED);
    }
    Ok(Changed {
        number,
        entry,
        life,
    })
}

/// Returns the entry of the file that a command without data changes.
fn current_changed(current: &Current, change: LifeCycleChange) -> Option<EntryNumber>
    ensures { result ≡ current_changed current.now change }
{
    match change {
        LifeCycleChange::Activate | LifeCycleChange::Deactivate => {
            Some(current.ef.unwrap_or(current.df))
        }
        LifeCycleChange::TerminateDf => Some(current.df),
        LifeCycleChange::TerminateEf => current.ef,
    }
}

/// Returns the status word for a missing file.
fn no_subject(subject: Subject) -> Sw
    ensures { result ≡ no_subject subject }
{
    match subject {
        Subject::Current => Sw::NO_CURRENT_EF,
        Subject::Identifier(_) => Sw::FILE_NOT_FOUND,
    }
}

/// Returns the command's row of states, and the required operation.
fn row_of(change: LifeCycleChange) -> (LifeCycleCommand, AccessBit)
    ensures { result ≡ (command_of change, change_bit change) }
{
    match change {
        LifeCycleChange::Activate => (LifeCycleCommand::Activate, AccessBit::Activate),
        LifeCycleChange::Deactivate => (LifeCycleCommand::Deactivate, AccessBit::Deactivate),
        LifeCycleChange::TerminateDf | LifeCycleChange::TerminateEf => {
            (LifeCycleCommand::Terminate, AccessBit::Terminate)
        }
    }
}

/// Returns true if the command is for files of this kind.
/// TERMINATE DF is for dedicated files, TERMINATE EF for elementary files, the others for all files.
fn is_for(change: LifeCycleChange, entry: &Entry) -> bool
    ensures { result ≡ is_for_kind change entry.now.kind }
{
    match change {
        LifeCycleChange::Activate | LifeCycleChange::Deactivate => true,
        LifeCycleChange::TerminateDf => entry.has_kind(EntryKind::Dedicated),
        LifeCycleChange::TerminateEf => !entry.has_kind(EntryKind::Dedicated),
    }
}
