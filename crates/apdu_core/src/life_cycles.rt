//! Commands on life cycles (ISO/IEC 7816-9).
ghost use Rattle.std.specs.Prelude.{Some};
ghost use Rattle.card_model.specs.CommandTable.{life_cycle_row, terminate_card_usage_row};
ghost use Rattle.apdu_core.specs.Parsing.{Parses};

use crate::commands::{Command, Parsed};
use crate::files::subject_of;
use crate::form::{CommandBody, Operands};
use card_model::{LifeCycleChange, Sw};

/// Parses a command that changes a life cycle, after its instruction.
///
/// # Errors
/// 6A86 unless P1 and P2 are 00 00; 6700 for a length other than 0 and 2, or with Le.
pub(crate) fn parse_life_cycle_change(change: LifeCycleChange, operands: Operands<'_>) -> Parsed<'_>
    ensures { Parses (Some (life_cycle_row change)) operands.entry result }
{
    operands.no_parameters()?;
    let subject = subject_of(CommandBody::parse(operands.rest)?)?;
    Ok(Command::ChangeLifeCycle { change, subject })
}

/// Parses TERMINATE CARD USAGE after its instruction.
///
/// # Errors
/// 6A86 unless P1 and P2 are 00 00; 6700 with data, or with Le.
pub(crate) fn parse_terminate_card_usage(operands: Operands<'_>) -> Parsed<'_>
    ensures { Parses (Some terminate_card_usage_row) operands.entry result }
{
    operands.no_parameters()?;
    let body = CommandBody::parse(operands.rest)?;
    if body.sent.is_empty() && body.expected.is_none() {
        Ok(Command::TerminateCardUsage)
    } else {
        Err(Sw::WRONG_LENGTH)
    }
}
