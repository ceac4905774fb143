//! Runs a command on a card, as one step of the card model.
ghost use Rattle.std.specs.Prelude.{◌≡◌, [], OnOk};
ghost use Rattle.apdu_core.specs.ParsedCommands.{IsCommandInRange, request_of};
ghost use Rattle.command_base.specs.Served.{ExecutesBytes, Executes};
ghost use Rattle.command_base.specs.Stops.{reply};
ghost use Rattle.card_core.specs.WholeCards.{IsWholeCard};
ghost use Rattle.command_base.specs.Working.{space_in, table_in};
ghost use Rattle.file_tree.specs.Indexes.{IsIndex};

use crate::card_parts::CardParts;
use apdu_core::{Answer, Command, Sw};
use card_start::{CARD_IN_USE, header_word};
use command_base::{Stop, reply};
use content_commands::{
    append_record, increase, read_binary, read_record, search_record, update_binary, update_record,
};
use file_commands::{change_life_cycle, create_file, delete_file, terminate_card_usage};
use file_tree::STATE_WORD;
use pin_commands::{change_reference_data, change_requirement, reset_retry_counter, verify};
use select_command::select_file;
use undo_journal::{Board, StoreErr};

/// Runs the bytes of a command, and writes its data into `answer`.
/// It updates the free space and the index. Returns the status word, also for a refusal.
pub(crate) fn run_command<B: Board>(
    parts: &mut CardParts<B>,
    command: &[u8],
    answer: &mut Answer,
) -> Result<Sw, StoreErr>
    requires whole { IsWholeCard parts.old }
    ensures carries { ExecutesBytes command.now parts.old.store parts.old.current parts.new.store parts.new.current
        answer.new.items result }
    ensures space { OnOk result (parts.new.free ≡ space_in parts.new.store) }
    ensures index { OnOk result (IsIndex (table_in parts.new.store) parts.new.index) }
{
    reply(parse_and_run(parts, command, answer))
}

/// Runs the bytes of a command, or stops.
/// It checks the form of the command first, and then whether the card is terminated.
fn parse_and_run<B: Board>(
    parts: &mut CardParts<B>,
    command: &[u8],
    answer: &mut Answer,
) -> Result<Sw, Stop>
    requires whole { IsWholeCard parts.old }
    ensures carries { ExecutesBytes command.now parts.old.store parts.old.current parts.new.store parts.new.current
        answer.new.items (reply result) }
    ensures space { OnOk (reply result) (parts.new.free ≡ space_in parts.new.store) }
    ensures index { OnOk (reply result) (IsIndex (table_in parts.new.store) parts.new.index) }
{
    answer.clear();
    let command = match Command::parse(command) {
        Ok(command) => command,
        Err(refusal) => return Err(Stop::Refused(refusal)),
    };
    let state = header_word(&mut parts.store, STATE_WORD)?;
    if state != CARD_IN_USE {
        return Err(Stop::Refused(Sw::CONDITIONS_NOT_SATISFIED));
    }
    dispatch(parts, &command, answer)
}

/// Runs a parsed command on a card in use. Each command borrows only the parts that it needs.
fn dispatch<B: Board>(
    parts: &mut CardParts<B>,
    command: &Command<'_>,
    answer: &mut Answer,
) -> Result<Sw, Stop>
    requires whole { IsWholeCard parts.old }
    requires in_range { IsCommandInRange command.now }
    ensures serves { Executes (request_of command.now) parts.old.store parts.old.current parts.new.store
        parts.new.current
        answer.new.items (reply result) }
    ensures space { OnOk (reply result) (parts.new.free ≡ space_in parts.new.store) }
    ensures index { OnOk (reply result) (IsIndex (table_in parts.new.store) parts.new.index) }
{
    answer.clear();
    let CardParts {
        store,
        current,
        free,
        index,
    } = parts;
    match *command {
        Command::Select {
            selector,
            returned,
            expected,
        } => select_file(store, index, current, selector, returned, expected, answer),
        Command::ReadBinary { place, expected } => read_binary(
            store, current, place, expected, answer,
        ),
        Command::UpdateBinary { place, bytes } => update_binary(store, current, place, bytes),
        Command::CreateFile { template } => create_file(store, current, free, index, template),
        Command::DeleteFile { subject } => delete_file(store, current, free, index, subject),
        Command::ReadRecord {
            target,
            choice,
            expected,
        } => read_record(store, current, target, choice, expected, answer),
        Command::UpdateRecord {
            target,
            choice,
            bytes,
        } => update_record(store, current, target, choice, bytes),
        Command::AppendRecord { target, bytes } => append_record(store, current, target, bytes),
        Command::SearchRecord {
            target,
            first,
            direction,
            text,
            expected,
        } => search_record(
            store, current, target, first, direction, text, expected, answer,
        ),
        Command::Increase { amount, expected } => increase(
            store, current, amount, expected, answer,
        ),
        Command::ChangeLifeCycle { change, subject } => change_life_cycle(
            store, index, current, change, subject,
        ),
        Command::TerminateCardUsage => terminate_card_usage(store, current),
        Command::Verify { pin, shown } => verify(store, current, pin, shown),
        Command::ChangeReferenceData { pin, values } => change_reference_data(
            store, current, pin, values,
        ),
        Command::ResetRetryCounter { pin, values } => reset_retry_counter(
            store, current, pin, values,
        ),
        Command::ChangeRequirement { change, pin, shown } => change_requirement(
            store, current, change, pin, shown,
        ),
    }
}
