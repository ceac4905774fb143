//! The response data field of a command, and how Le limits it (ISO/IEC 7816-4, 5.1).
ghost use Rattle.std.specs.Prelude.{◌≡◌, ◌≤◌, [], length};
ghost use Rattle.card_model.specs.Guards.{asks_less, given, right_length};

use apdu_core::{Answer, Sw};
use arrayvec::ArrayVec;
use card_model::limits::MOST_ANSWER_DATA;

/// The response data of a command, at most 256 bytes.
pub type ResponseData = ArrayVec<u8, MOST_ANSWER_DATA>;

/// Returns true if Le requests fewer bytes than the data. Le 00 requests all.
pub fn asks_less(expected: Option<u8>, response: &ResponseData) -> bool
    ensures { result ≡ asks_less expected response.now.items }
{
    match expected {
        Some(le) => le != 0 && usize::from(le) < response.len(),
        None => false,
    }
}

/// Returns the status word 6CXX with the length of the data.
pub fn right_length(response: &ResponseData) -> Sw
    ensures { result ≡ right_length response.now.items }
{
    Sw::right_length(response.len())
}

/// Writes the data into an empty answer, if Le is present.
pub fn give(expected: Option<u8>, response: &ResponseData, answer: &mut Answer)
    requires { answer.old.items ≡ [] }
    ensures given { answer.new.items ≡ given expected response.now.items }
    ensures room { length answer.new.items ≤ 256 }
{
    if expected.is_some() {
        answer.try_extend_from_slice(response).unwrap();
    }
}
