//! Why power-on fails on a memory that is no card. It then writes no word.

use crate::fixtures::{formatted, formatted_old};
use card_core::Card;
use card_start::StartFault;
use nvm_board::Armed;
use simulated_boards::CutBoard;
use std::alloc::Global;
use std::test::Fail;
use store_tests::fixtures::with_words;

/// Returns the factory image in format 2, on this many pages.
fn new_board(alloc: Global, pages: u16) -> Result<CutBoard, Fail> {
    formatted(CutBoard::with_pages(alloc, pages.clamp(1024, 4096))?)
}

/// Returns the factory image in format 1, on this many pages.
fn old_board(alloc: Global, pages: u16) -> Result<CutBoard, Fail> {
    formatted_old(CutBoard::with_pages(alloc, pages.clamp(1024, 4096))?)
}

/// Returns why power-on fails, if it fails and writes nothing.
fn refusal(board: CutBoard) -> Option<StartFault> {
    let mut board = board;
    board.arm(1, 0x0000);
    let Err((board, fault)) = Card::start(board) else {
        return None;
    };
    if board.pending() { Some(fault) } else { None }
}

/// A factory image: its format, and the pages of its board.
#[derive(Clone, Copy, Debug)]
enum Image {
    Old(u16),
    New(u16),
}

impl Image {
    /// Returns a board with this image, except for these words.
    fn with(self, alloc: Global, words: &[(u16, u32)]) -> Result<CutBoard, Fail> {
        let board = match self {
            Image::Old(pages) => old_board(alloc, pages)?,
            Image::New(pages) => new_board(alloc, pages)?,
        };
        with_words(board, words)
    }
}

/// Words of a memory that are changed.
type Changes = &'static [(u16, u32)];

// Another mark, in both formats.
const OTHER_MARK: Changes = &[(0, 0x5453_4330)];

// A pair too many; counting pairs that name the gate, and the first address past the last word.
const TOO_MANY: Changes = &[(1168, 433)];

const NAMES_THE_GATE: Changes = &[(1168, 1), (1184, 1168)];

const BEHIND_1024: Changes = &[(1168, 1), (1184, 16_384), (1185, 1025)];

const BEHIND_1030: Changes = &[(1168, 1), (1184, 16_480), (1185, 1025)];

const BEHIND_4095: Changes = &[(1168, 1), (1184, 65_520), (1185, 1025)];

// Factory images, their changes, and why power-on fails.
const REFUSED: &[(Image, Changes, StartFault)] = &[
    (Image::Old(1024), OTHER_MARK, StartFault::Damaged),
    (Image::New(1024), OTHER_MARK, StartFault::Damaged),
    (Image::Old(1030), OTHER_MARK, StartFault::Damaged),
    (Image::New(1030), OTHER_MARK, StartFault::Damaged),
    (Image::New(1024), TOO_MANY, StartFault::BadJournal),
    (Image::New(1024), NAMES_THE_GATE, StartFault::BadJournal),
    (Image::Old(1024), BEHIND_1024, StartFault::BadJournal),
    (Image::New(1024), BEHIND_1024, StartFault::BadJournal),
    (Image::Old(1030), BEHIND_1030, StartFault::BadJournal),
    (Image::New(1030), BEHIND_1030, StartFault::BadJournal),
    (Image::Old(4095), BEHIND_4095, StartFault::BadJournal),
    (Image::New(4095), BEHIND_4095, StartFault::BadJournal),
    // The end of the blocks of a memory of format 2 on 1,030 pages: past the board, also with a free chain that goes
    // on; before page 1,024, with a chain that ends there too; nowhere.
    (Image::New(1030), &[(3, 1031)], StartFault::Damaged),
    (
        Image::New(1030),
        &[(3, 1031), (16_464, 1030)],
        StartFault::Damaged,
    ),
    (Image::New(1030), &[(3, 0xFFFF_FFFF)], StartFault::Damaged),
    (
        Image::New(1030),
        &[(3, 1023), (16_352, 0)],
        StartFault::Damaged,
    ),
    (Image::New(1030), &[(3, 1025)], StartFault::Damaged),
    (Image::New(1030), &[(3, 0)], StartFault::Damaged),
];

#[test]
fn power_on_says_why_it_fails(rt: HostRuntime) -> Result<(), Fail> {
    for &(image, words, want) in REFUSED {
        let board = image.with(rt.alloc(), words)?;
        assert!(rt; refusal(board) == Some(want), "{image:?} with {words:?}");
    }
    Ok(())
}

#[test]
fn other_mark_of_a_pin_is_damaged(rt: HostRuntime) -> Result<(), Fail> {
    for pin in 0..8u16 {
        for mark in [2u32, 3, 0xFFFF_FFFF] {
            let words = [(16 * (65 + pin) + 6, mark)];
            let board = Image::New(1030).with(rt.alloc(), &words)?;
            assert!(rt;
                refusal(board) == Some(StartFault::Damaged),
                "with {words:?}"
            );
        }
    }
    Ok(())
}
