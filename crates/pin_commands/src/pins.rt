//! VERIFY, CHANGE REFERENCE DATA, RESET RETRY COUNTER, DISABLE and ENABLE VERIFICATION REQUIREMENT
//! (ISO/IEC 7816-4, 11.5 and 11.6). Each permanently uses up a try before it compares anything.
ghost use Rattle.std.specs.Prelude.{◌≡◌, [], Some, option_map, IsSome};
ghost use Rattle.std.specs.Result.{result_err};
ghost use Rattle.undo_journal.specs.StoreCalls.{Learns};
ghost use Rattle.undo_journal.specs.Memory.{committed, IsReady};
ghost use Rattle.card_model.specs.Requests.{change_reference_data as changing, reset_retry_counter as resetting};
ghost use Rattle.card_model.specs.Requests.{verify as verifying, change_requirement as requiring};
ghost use Rattle.card_model.specs.Secrets.{Pin, tries_left};
ghost use Rattle.pin_store.specs.Trials.{pin_in, Charges, HasPins, TakesTry};
ghost use Rattle.card_model.specs.Behaviours.{first_applying};
ghost use Rattle.card_model.specs.PinCommands.{is_enabled_by, tries_status, unusable_by};
ghost use Rattle.command_base.specs.Served.{Executes};
ghost use Rattle.command_base.specs.Stops.{failure, reply, Checks, FindsOrRefuses};
ghost use Rattle.pin_commands.specs.PinParts.{end_of_attempt, refused_use, use_refusals};
ghost use Rattle.command_base.specs.Working.{IsKept};
ghost use Rattle.command_base.specs.CurrentFiles.{tried_from, unverifies};

use apdu_core::{Replacement, RequirementChange, Sw};
use card_model::PinNumber;
use command_base::{Current, Shown, Stop};
use pin_store::{
    Charged, Outcome, Secret, change, charge, is_enabled, reset_counter, set_enabled, settle, tries,
};
use undo_journal::{Board, Store, StoreErr};

/// The PINs that a command is for: enabled, disabled, or all.
#[derive(Clone, Copy)]
enum Usable {
    WhileEnabled,
    WhileDisabled,
    InAnyCase,
}

impl Usable {
    /// Refuses the command if the PIN is wrongly enabled or disabled.
    fn check(self, enabled: bool) -> Result<(), Sw>
        ensures { (pin : Pin) → pin.enabled ≡ enabled → result_err result ≡ first_applying (use_refusals self pin) }
    {
        match self {
            Usable::WhileEnabled if !enabled => Err(Sw::REFERENCE_DATA_NOT_USABLE),
            Usable::WhileDisabled if enabled => Err(Sw::CONDITIONS_NOT_SATISFIED),
            _ => Ok(()),
        }
    }
}

/// VERIFY: verifies the PIN if its value is presented.
/// Without data it returns the remaining tries. Returns the status word.
///
/// # Errors
/// 6983 without tries; 6984 if the PIN is disabled. Or the store fails.
pub fn verify<B: Board>(
    store: &mut Store<B>,
    current: &mut Current,
    pin: PinNumber,
    shown: Option<&[u8; 8]>,
) -> Result<Sw, Stop>
    requires kept { IsKept store.old current.old }
    ensures { Executes (verifying pin (option_map (λ value. value.now) shown.entry)) store.old current.old store.new
        current.new [] (reply result) }
{
    let secret = Secret::value_of(pin);
    let Some(shown) = shown else {
        return Ok(query_tries(store, secret)?);
    };
    let charged = use_up_try(store, secret, Usable::WhileEnabled)?;
    let outcome = settle(store, charged, shown)?;
    Ok(end_attempt(current, pin, Shown::Value, outcome))
}

/// CHANGE REFERENCE DATA: replaces the presented value, and verifies the PIN.
/// Returns the status word.
///
/// # Errors
/// 6983 without tries; 6984 if the PIN is disabled. Or the store fails.
pub fn change_reference_data<B: Board>(
    store: &mut Store<B>,
    current: &mut Current,
    pin: PinNumber,
    values: Replacement<'_>,
) -> Result<Sw, Stop>
    requires kept { IsKept store.old current.old }
    ensures { Executes (changing pin values.entry.shown.now values.entry.new.now) store.old current.old store.new
        current.new [] (reply result) }
{
    let secret = Secret::value_of(pin);
    let charged = use_up_try(store, secret, Usable::WhileEnabled)?;
    let outcome = change(store, charged, values.shown, values.new)?;
    Ok(end_attempt(current, pin, Shown::Value, outcome))
}

/// RESET RETRY COUNTER: sets a new value and resets the tries.
/// The unblocking value is presented.
/// It also verifies the PIN. Without data it returns the remaining unblocking tries. Returns the status word.
///
/// # Errors
/// 6983 without tries of the unblocking value. Or the store fails.
pub fn reset_retry_counter<B: Board>(
    store: &mut Store<B>,
    current: &mut Current,
    pin: PinNumber,
    values: Option<Replacement<'_>>,
) -> Result<Sw, Stop>
    requires kept { IsKept store.old current.old }
    ensures { Executes (resetting pin (option_map (λ values. (values.shown.now, values.new.now)) values.entry))
        store.old
        current.old store.new current.new [] (reply result) }
{
    let secret = Secret::unblocking_value_of(pin);
    let Some(values) = values else {
        return Ok(query_tries(store, secret)?);
    };
    let charged = use_up_try(store, secret, Usable::InAnyCase)?;
    let outcome = reset_counter(store, charged, values.shown, values.new)?;
    Ok(end_attempt(current, pin, Shown::UnblockingValue, outcome))
}

/// DISABLE or ENABLE VERIFICATION REQUIREMENT: changes the requirement, with the PIN's value.
/// It also verifies the PIN. Returns the status word.
///
/// # Errors
/// 6983 without tries; 6984 if DISABLE finds the PIN disabled; 6985 if ENABLE finds it enabled. Or the store fails.
pub fn change_requirement<B: Board>(
    store: &mut Store<B>,
    current: &mut Current,
    change: RequirementChange,
    pin: PinNumber,
    shown: &[u8; 8],
) -> Result<Sw, Stop>
    requires kept { IsKept store.old current.old }
    ensures { Executes (requiring change pin shown.now) store.old current.old store.new current.new [] (reply result) }
{
    let secret = Secret::value_of(pin);
    let charged = use_up_try(store, secret, usable_by(change))?;
    let outcome = set_enabled(store, charged, shown, is_enabled_by(change))?;
    Ok(end_attempt(current, pin, Shown::Value, outcome))
}

/// Returns which PINs a change of the requirement is for.
fn usable_by(change: RequirementChange) -> Usable
    ensures { use_refusals result ≡ unusable_by change }
{
    match change {
        RequirementChange::Disable => Usable::WhileEnabled,
        RequirementChange::Enable => Usable::WhileDisabled,
    }
}

/// Returns true if the change of the requirement enables the PIN.
fn is_enabled_by(change: RequirementChange) -> bool
    ensures { result ≡ is_enabled_by change }
{
    match change {
        RequirementChange::Disable => false,
        RequirementChange::Enable => true,
    }
}

/// Returns the status word with the remaining tries of a secret.
fn query_tries<B: Board>(store: &mut Store<B>, secret: Secret) -> Result<Sw, StoreErr>
    requires pins { HasPins store.old }
    ensures { Learns store.old store.new result
        (λ status. status ≡ tries_status (tries_left secret (pin_in store.old secret))) }
{
    let left = tries(store, secret)?;
    Ok(Sw::tries_left(left))
}

/// Uses up a try of a secret, or returns the refusal.
/// The refusals in order: no tries left; the PIN is disabled, or enabled.
fn use_up_try<B: Board>(
    store: &mut Store<B>,
    secret: Secret,
    usable: Usable,
) -> Result<Charged, Stop>
    requires pins { HasPins store.old }
    ensures done { FindsOrRefuses result
        (λ charged. (charged ≡ secret) × Charges secret store.old store.new
        × (refused_use usable secret (pin_in store.old secret) ≡ None))
        (λ refusal. (refused_use usable secret (pin_in store.old secret) ≡ Some refusal) × IsReady store.new) }
    ensures takes { TakesTry secret (IsSome (refused_use usable secret (pin_in store.old secret))) store.old store.new
        result (failure result) }
{
    check_use(store, secret, usable)?;
    Ok(charge(store, secret)?)
}

/// Refuses the presentation of a secret before a try is used up.
/// The refusals in order: no tries left; the PIN is disabled, or enabled.
fn check_use<B: Board>(store: &mut Store<B>, secret: Secret, usable: Usable) -> Result<(), Stop>
    requires pins { HasPins store.old }
    ensures { Checks store.old store.new (refused_use usable secret (pin_in store.old secret)) result }
{
    if tries(store, secret)? == 0 {
        return Err(Stop::Refused(Sw::METHOD_BLOCKED));
    }
    let enabled = is_enabled(store, secret)?;
    usable.check(enabled)?;
    Ok(())
}

/// Ends an attempt on a PIN: updates session, returns status word.
/// After a wrong value the status word has the remaining tries.
fn end_attempt(current: &mut Current, pin: PinNumber, shown: Shown, outcome: Outcome) -> Sw
    ensures session { current.new ≡ tried_from current.old pin (unverifies shown) outcome }
    ensures status { result ≡ end_of_attempt outcome }
{
    *current = current.after_attempt(pin, shown, outcome);
    match outcome {
        Outcome::Matched => Sw::DONE,
        Outcome::Wrong(left) => Sw::tries_left(left),
    }
}
