//! Power-on undoes a journal.

use bench_turns::{Item, Turn};
use card_tests::fixtures::formatted;
use card_turns::Bench;
use simulated_boards::CutBoard;
use std::test::Fail;
use store_tests::fixtures::with_words;

// Two counting pairs for the first word of the file, which was written since. The first of them has the original word.
const SET_TWICE: &[(u16, u32)] = &[
    (1168, 2),
    (1184, 2049),
    (1185, 0x9810_3254),
    (1186, 2049),
    (1187, 0),
    (2049, 7),
];

// READ BINARY of four bytes of the file, and its answer.
const READ: &[u8] = &[0x00, 0x00, 0x05, 0x00, 0xB0, 0x82, 0x00, 0x04, 0x33];

const FOUR_BYTES: &[u8] = &[0x00, 0x00, 0x06, 0x98, 0x10, 0x32, 0x54, 0x90, 0x00, 0x78];

/// Returns true if the first block after power-on reads the original word.
fn is_read_after_start(board: CutBoard) -> bool {
    let mut bench = Bench::new(board);
    let mut trace = [Item::Mute, Item::Mute];
    bench.play(&[Turn::On, Turn::Block(READ)], &mut trace);
    let _ = bench.into_board();
    match &trace {
        [Item::Atr, Item::Reply(block)] => block.as_slice() == FOUR_BYTES,
        _ => false,
    }
}

#[test]
fn journal_is_undone_by_a_start(rt: HostRuntime) -> Result<(), Fail> {
    let board = formatted(CutBoard::new(rt.alloc())?)?;
    assert!(rt; is_read_after_start(with_words(board, SET_TWICE)?));
    Ok(())
}
