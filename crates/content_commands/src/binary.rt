//! READ BINARY and UPDATE BINARY (ISO/IEC 7816-4, 11.3).
ghost use Rattle.std.specs.Prelude.{◌≡◌, ◌==◌, if◌then◌else◌, []};
ghost use Rattle.card_model.specs.Requests.{read_binary as reading, update_binary as updating, HasBetween};
ghost use Rattle.command_base.specs.Served.{Executes};
ghost use Rattle.command_base.specs.InPlace.{ExecutesInPlace};
ghost use Rattle.command_base.specs.Stops.{reply};
ghost use Rattle.command_base.specs.NamedFiles.{HasTarget};
ghost use Rattle.card_model.specs.BinaryCommands.{end_status};

use apdu_core::{Answer, BinaryPlace, Sw};
use block_chain::Chain;
use card_model::AccessBit;
use card_model::limits::MOST_ANSWER_DATA;
use command_base::{AcceptedStructure, Current, Need, Stop, find_file};
use ef_body::Transparent;
use file_tree::Entry;
use undo_journal::{Board, Store};

/// What READ BINARY needs of its file.
const READING: Need = Need {
    structure: AcceptedStructure::Bytes,
    bit: AccessBit::Read,
};

/// What UPDATE BINARY needs of its file.
const UPDATING: Need = Need {
    structure: AcceptedStructure::Bytes,
    bit: AccessBit::Update,
};

/// READ BINARY: writes up to Le bytes into `answer`.
/// Returns the status word.
pub fn read_binary<B: Board>(
    store: &mut Store<B>,
    current: &mut Current,
    place: BinaryPlace,
    expected: u8,
    answer: &mut Answer,
) -> Result<Sw, Stop>
    requires target { HasTarget store.old current.old place.target }
    ensures { Executes (reading place.target place.offset expected) store.old current.old store.new current.new
        answer.new.items (reply result) }
{
    answer.clear();
    let file = find_file(store, current, place.target, READING)?;
    let body = transparent_body(&file.entry);
    body.read(store, place.offset, most_of(expected), answer)?;
    *current = current.naming(place.target, file.number);
    Ok(read_status(answer.len(), expected))
}

/// UPDATE BINARY: overwrites the bytes from the place on, in one transaction.
pub fn update_binary<B: Board>(
    store: &mut Store<B>,
    current: &mut Current,
    place: BinaryPlace,
    bytes: &[u8],
) -> Result<Sw, Stop>
    requires target { HasTarget store.old current.old place.target }
    requires bytes { HasBetween 1 255 bytes.now }
    ensures { ExecutesInPlace (updating place.target place.offset bytes.now) store.old current.old store.new
        current.new [] (reply result) }
{
    let file = find_file(store, current, place.target, UPDATING)?;
    let body = transparent_body(&file.entry);
    body.update(store, place.offset, bytes)?;
    *current = current.naming(place.target, file.number);
    Ok(Sw::DONE)
}

/// Returns the body of a transparent file, from its entry.
fn transparent_body(entry: &Entry) -> Transparent
    ensures { result
        ≡ record { chain = record { first = entry.now.first; last = entry.now.last }; size = entry.now.size } }
{
    Transparent {
        chain: Chain {
            first: entry.first,
            last: entry.last,
        },
        size: entry.size,
    }
}

/// Returns the most bytes for an Le byte; 00 means 256.
fn most_of(expected: u8) -> u16
    ensures { result ≡ (if expected == 0 then 256 else expected) }
{
    if expected == 0 {
        MOST_ANSWER_DATA as u16
    } else {
        u16::from(expected)
    }
}

/// Returns the status word of READ BINARY after `count` bytes.
/// It is 6282 if Le requested more.
fn read_status(count: usize, expected: u8) -> Sw
    ensures { result ≡ end_status count expected }
{
    if count < usize::from(expected) {
        Sw::END_REACHED
    } else {
        Sw::DONE
    }
}
