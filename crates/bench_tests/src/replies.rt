//! Checks the result of a turn.

use bench_turns::Item;

/// Returns true if the card's end sent this block.
pub fn is_reply(trace: &[Item; 1], wanted: &[u8]) -> bool {
    match trace {
        [Item::Reply(block)] => block.as_slice() == wanted,
        _ => false,
    }
}
