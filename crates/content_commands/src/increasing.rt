//! INCREASE (ETSI TS 102 221, 11.1.8).
ghost use Rattle.std.specs.Prelude.{◌≡◌, ◌≤◌, ◌+◌, ◌++◌, ◌||◌, nat_lt, [], length, Some};
ghost use Rattle.card_model.specs.Requests.{increase as increasing};
ghost use Rattle.command_base.specs.InPlace.{ExecutesInPlace};
ghost use Rattle.command_base.specs.Stops.{reply};
ghost use Rattle.command_base.specs.Working.{IsKept};

use crate::records::find_records;
use apdu_core::{Answer, Sw, Target};
use card_model::AccessBit;
use card_model::limits::MOST_ANSWER_DATA;
use command_base::{
    AcceptedStructure, Current, Need, ResponseData, Stop, asks_less, give, right_length,
};
use ef_body::Cyclic;
use undo_journal::{Board, Store};

/// What INCREASE needs of its file.
const INCREASING: Need = Need {
    structure: AcceptedStructure::Cyclic,
    bit: AccessBit::Update,
};

/// INCREASE: adds a number to the newest record.
/// The file is the current cyclic one, and the new record becomes the current record. The sum and then the sent number
/// go into `answer`. Returns the status word.
///
/// # Errors
/// Those of `find_file`; then 6700 if the number or the answer is too long, 6A83 without a record, 9850 if the sum
/// overflows the record, and 6CXX if Le requests less than the answer.
// It isn't inlined, so that other commands don't pay for its space on the stack.
#[inline(never)]
pub fn increase<B: Board>(
    store: &mut Store<B>,
    current: &mut Current,
    amount: &[u8],
    expected: Option<u8>,
    answer: &mut Answer,
) -> Result<Sw, Stop>
    requires kept { IsKept store.old current.old }
    requires few { length amount.now ≤ 255 }
    ensures { ExecutesInPlace (increasing amount.now expected) store.old current.old store.new current.new
        answer.new.items (reply result) }
{
    answer.clear();
    let file = find_records(store, current, Target::Current, INCREASING)?;
    if exceeds_limits(file.ring, amount) {
        return Err(Stop::Refused(Sw::WRONG_LENGTH));
    }
    let mut sum = ResponseData::new();
    let slot = file.ring.raise(store, amount, &mut sum)?;
    let response = answer_of(&sum, amount);
    if asks_less(expected, &response) {
        return Err(Stop::Refused(right_length(&response)));
    }
    slot.replace_oldest(store, &sum)?;
    give(expected, &response, answer);
    *current = current.pointing(Target::Current, file.number, Some(1));
    Ok(Sw::DONE)
}

/// Returns the answer of INCREASE: new record, sent number.
fn answer_of(sum: &ResponseData, amount: &[u8]) -> ResponseData
    requires { length sum.now.items + length amount.now ≤ 256 }
    ensures { result.items ≡ sum.now.items ++ amount.now }
{
    let mut response = ResponseData::new();
    response.try_extend_from_slice(sum).unwrap();
    response.try_extend_from_slice(amount).unwrap();
    response
}

/// Returns true if the number or the answer is too long.
/// The number may have the length of a record, and the answer 256 bytes.
fn exceeds_limits(ring: Cyclic, amount: &[u8]) -> bool
    requires { length amount.now ≤ 255 }
    ensures { result ≡ (nat_lt ring.record_length (length amount.now)
        || nat_lt 256 (ring.record_length + length amount.now)) }
{
    let long = usize::from(ring.record_length);
    long < amount.len() || MOST_ANSWER_DATA < long + amount.len()
}
