//! Writes the factory image, in either format.
ghost use Rattle.std.specs.Prelude.{◌≡◌, ◌+◌, ◌<◌, ◌≤◌, false, OnOk};
ghost use Rattle.nvm_board.specs.Aims.{AimsOn};
ghost use Rattle.nvm_board.specs.Facts.{Answered, pages_of};
ghost use Rattle.nvm_board.specs.declared.board.TheConstants.{LEAST_PAGES};
ghost use Rattle.block_chain.specs.declared.layout.TheConstants.{HEADER_PAGE};
ghost use Rattle.block_chain.specs.BlockWords.{page_words};
ghost use Rattle.file_tree.specs.declared.layout.TheConstants.{OLD_END_PAGE};
ghost use Rattle.undo_journal.specs.Spending.{WritesAtMost};
ghost use Rattle.card_start.specs.declared.memory_format.MemoryFormat.TheVariants as MemoryFormat;
ghost use Rattle.card_start.specs.Factory.{Formats, IsWritten, factory_free_block};
ghost use Rattle.card_start.specs.Factory.{factory_header, factory_page as factory_page_of, factory_pin_page};

use crate::layout::CARD_IN_USE;
use crate::memory_format::MemoryFormat;
use block_chain::{FIRST_BLOCK_PAGE, HEADER_PAGE};
use file_tree::{FIRST_ENTRY_PAGE, MARK, OLD_END_PAGE, OLD_MARK};
use pin_store::{FIRST_PIN_PAGE, PINS};
use undo_journal::{Board, DeviceErr, PAGE_WORDS};

/// The words of a page.
type PageWords = [u32; PAGE_WORDS as usize];

/// The first free block.
const FIRST_FREE: u32 = FIRST_BLOCK_PAGE as u32 + 1;

/// The master file, with its rule.
#[rattlefmt::skip]
const MASTER_ENTRY: PageWords = [0x0105_3F00, 5, 0x2718_0000, 0, 0, 0, 0, 0, 0, 0, 0, 0, 0, 0, 0, 0];

/// The elementary file 2FE2, with its rule, its size and its block.
#[rattlefmt::skip]
const FILE_ENTRY: PageWords = [
    0x0205_2FE2, 0x0002_0003, 0x0311_0000, 0, 0, 0, 0, 0, 0x000A_0000, 0x0080_0080, 0, 0, 0, 0, 0, 0,
];

/// The contents of the elementary file.
#[rattlefmt::skip]
const FILE_BLOCK: PageWords = [
    0, 0x9810_3254, 0x7698_1032, 0x5476_FFFF, 0xFFFF_FFFF, 0xFFFF_FFFF, 0xFFFF_FFFF, 0xFFFF_FFFF,
    0xFFFF_FFFF, 0xFFFF_FFFF, 0xFFFF_FFFF, 0xFFFF_FFFF, 0xFFFF_FFFF, 0xFFFF_FFFF, 0xFFFF_FFFF, 0xFFFF_FFFF,
];

/// Returns the words of the header.
/// They are the mark, the first free block, and the state in use.
/// The page where the blocks end is part of format 2 only.
#[rattlefmt::skip]
fn header(format: MemoryFormat, end: u16) -> PageWords
    ensures { result ≡ factory_header format end }
{
    let (mark, end) = match format {
        MemoryFormat::One => (OLD_MARK, 0),
        MemoryFormat::Two => (MARK, u32::from(end)),
    };
    [
        mark, FIRST_FREE, CARD_IN_USE, end, 0, 0, 0, 0,
        0, 0, 0, 0, 0, 0, 0, 0,
    ]
}

/// Returns the page of each PIN, with its mark in format 2.
#[rattlefmt::skip]
fn pin_page(format: MemoryFormat) -> PageWords
    ensures { result ≡ factory_pin_page format }
{
    let mark = match format {
        MemoryFormat::One => 0,
        MemoryFormat::Two => 1,
    };
    [
        3, 10, 0x3132_3334, 0xFFFF_FFFF, 0x3132_3334, 0x3536_3738, mark, 0,
        0, 0, 0, 0, 0, 0, 0, 0,
    ]
}

/// Returns the words of a page of the factory image.
/// Its blocks end at `end`.
fn factory_page(format: MemoryFormat, end: u16, page: u16) -> PageWords
    requires page { page < end }
    ensures words { result ≡ factory_page_of format end page }
{
    if page == HEADER_PAGE {
        header(format, end)
    } else if page == FIRST_ENTRY_PAGE {
        MASTER_ENTRY
    } else if page == FIRST_ENTRY_PAGE + 1 {
        FILE_ENTRY
    } else if (FIRST_PIN_PAGE..FIRST_PIN_PAGE + u16::from(PINS)).contains(&page) {
        pin_page(format)
    } else if page < FIRST_BLOCK_PAGE {
        [0; PAGE_WORDS as usize]
    } else if page == FIRST_BLOCK_PAGE {
        FILE_BLOCK
    } else {
        free_block(end, page)
    }
}

/// Returns a free block, linked to the next page.
/// The last one has link 0.
fn free_block(end: u16, page: u16) -> PageWords
    requires page { page < end }
    ensures words { result ≡ factory_free_block end page }
{
    let next = if page + 1 == end {
        0
    } else {
        u32::from(page + 1)
    };
    [next, 0, 0, 0, 0, 0, 0, 0, 0, 0, 0, 0, 0, 0, 0, 0]
}

/// Writes the factory image, with one device write a page.
fn write_factory<B: Board>(board: &mut B, format: MemoryFormat, end: u16) -> Result<(), DeviceErr>
    requires least { LEAST_PAGES ≤ end }
    requires inside { end ≤ pages_of (B.facts board.old).words }
    ensures written { OnOk result (IsWritten format end (B.facts board.old).words (B.facts board.new).words) }
    ensures power { Answered (B.facts board.old) (B.facts board.new) result }
    ensures counts { WritesAtMost end (B.facts board.old) (B.facts board.new) }
{
    board.write(HEADER_PAGE, 0, &header(format, end))?;
    write_pages(board, format, end)
}

/// Writes all pages after the header.
fn write_pages<B: Board>(board: &mut B, format: MemoryFormat, end: u16) -> Result<(), DeviceErr>
    requires lit { (B.facts board.old).dark ≡ false }
    requires least { LEAST_PAGES ≤ end }
    requires inside { end ≤ pages_of (B.facts board.old).words }
    requires header { page_words (B.facts board.old).words HEADER_PAGE ≡ factory_page_of format end HEADER_PAGE }
    ensures written { OnOk result (IsWritten format end (B.facts board.old).words (B.facts board.new).words) }
    ensures power { Answered (B.facts board.old) (B.facts board.new) result }
    ensures writes { (B.facts board.new).writes + 1 ≤ (B.facts board.old).writes + end }
    ensures more { (B.facts board.old).writes ≤ (B.facts board.new).writes }
    ensures cut { AimsOn (B.facts board.old) (B.facts board.new) }
    ensures compares { (B.facts board.new).compares ≡ (B.facts board.old).compares }
    ensures matches { (B.facts board.new).matches ≡ (B.facts board.old).matches }
{
    for page in HEADER_PAGE + 1..end {
        board.write(page, 0, &factory_page(format, end, page))?;
    }
    Ok(())
}

/// Writes the factory image to a board, in this format.
fn format_as<B: Board>(mut board: B, format: MemoryFormat) -> Result<B, (B, DeviceErr)>
    ensures { Formats B.facts format board result }
{
    let end = match format {
        MemoryFormat::One => OLD_END_PAGE,
        MemoryFormat::Two => board.pages(),
    };
    match write_factory(&mut board, format, end) {
        Ok(()) => Ok(board),
        Err(error) => Err((board, error)),
    }
}

/// Writes the factory image to a board, in format 2.
/// It has two files and the PINs. All blocks but one and 62 entries are free.
///
/// # Errors
/// The device's answer, with the board: power was off, or was lost, or the device failed. The contents of the memory
/// are then unspecified.
pub fn format<B: Board>(board: B) -> Result<B, (B, DeviceErr)>
    ensures { Formats B.facts MemoryFormat.Two board result }
{
    format_as(board, MemoryFormat::Two)
}

/// Writes the factory image to a board, in format 1.
/// It uses the first 1,024 pages and leaves the others unchanged. After its first power-on the card has all blocks of
/// the board.
///
/// # Errors
/// The device's answer, with the board: power was off, or was lost, or the device failed. The contents of the memory
/// are then unspecified.
pub fn format_old<B: Board>(board: B) -> Result<B, (B, DeviceErr)>
    ensures { Formats B.facts MemoryFormat.One board result }
{
    format_as(board, MemoryFormat::One)
}
