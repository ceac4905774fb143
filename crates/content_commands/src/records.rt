//! READ, UPDATE, APPEND and SEARCH RECORD (ISO/IEC 7816-4, 11.4).
ghost use Rattle.std.specs.Prelude.{◌≡◌, ◌≢◌, ◌≤◌, ◌==◌, ◌&&◌, not, [], length, Some};
ghost use Rattle.undo_journal.specs.Memory.{committed};
ghost use Rattle.card_model.specs.Requests.{append_record as appending, read_record as reading};
ghost use Rattle.card_model.specs.Requests.{search_record as searching, update_record as updating, HasBetween};
ghost use Rattle.command_base.specs.declared.target_file.AcceptedStructure.TheVariants as AcceptedStructure;
ghost use Rattle.card_model.specs.Behaviours.{refused_by};
ghost use Rattle.command_base.specs.NamedFiles.{fits};
ghost use Rattle.card_model.specs.Guards.{file_refusals};
ghost use Rattle.command_base.specs.Served.{Executes};
ghost use Rattle.command_base.specs.InPlace.{ExecutesInPlace};
ghost use Rattle.command_base.specs.Stops.{reply, Looks};
ghost use Rattle.command_base.specs.Working.{card_in, session_in};
ghost use Rattle.command_base.specs.NamedFiles.{HasTarget};
ghost use Rattle.content_commands.specs.RecordParts.{need_replacing, IsRecordFile};
ghost use Rattle.card_model.specs.RecordCommands.{pointer_found, search_status};

use crate::record_file::{RecordFile, pointer_after};
use apdu_core::{Answer, RecordChoice, RecordPlace, Sw, Target};
use card_model::{AccessBit, Direction};
use command_base::{
    AcceptedStructure, Current, Need, ResponseData, Stop, asks_less, find_file, give, right_length,
};
use undo_journal::{Board, Store};

/// What READ RECORD and SEARCH RECORD need of their file.
const READING: Need = Need {
    structure: AcceptedStructure::Records,
    bit: AccessBit::Read,
};

/// What APPEND RECORD needs of its file.
const APPENDING: Need = Need {
    structure: AcceptedStructure::Records,
    bit: AccessBit::Append,
};

/// Returns what UPDATE RECORD needs of its file.
/// In a cyclic file only the mode previous is allowed.
fn replacing(choice: RecordChoice) -> Need
    ensures { result ≡ need_replacing choice }
{
    let structure = match choice {
        RecordChoice::Previous => AcceptedStructure::Records,
        RecordChoice::Next | RecordChoice::At(_) => AcceptedStructure::Linear,
    };
    Need {
        structure,
        bit: AccessBit::Update,
    }
}

/// Returns the named record file, or the refusal by it.
pub(crate) fn find_records<B: Board>(
    store: &mut Store<B>,
    current: &Current,
    target: Target,
    need: Need,
) -> Result<RecordFile, Stop>
    requires target { HasTarget store.old current.now target }
    requires records { need.structure ≢ AcceptedStructure.Bytes }
    ensures { Looks store.old store.new result
        (IsRecordFile (committed store.old) current.now target need)
        (λ refusal. refused_by (file_refusals (card_in store.old) (session_in store.old current.now) target
        (fits need.structure) need.bit) ≡ Some refusal) }
{
    let file = find_file(store, current, target, need)?;
    Ok(RecordFile::of(file.number, &file.entry))
}

/// READ RECORD: writes the record into `answer`.
/// Le is 00 or the length of a record. Returns the status word.
///
/// # Errors
/// Those of `find_file`; then 6A83 without the record, and 6CXX unless Le is 00 or the length of the record.
pub fn read_record<B: Board>(
    store: &mut Store<B>,
    current: &mut Current,
    target: Target,
    choice: RecordChoice,
    expected: u8,
    answer: &mut Answer,
) -> Result<Sw, Stop>
    requires target { HasTarget store.old current.old target }
    ensures { Executes (reading target choice expected) store.old current.old store.new current.new
        answer.new.items (reply result) }
{
    answer.clear();
    let file = find_records(store, current, target, READING)?;
    let pointer = current.pointer_at(target);
    let slot = file.find_chosen(pointer, choice)?;
    let length = file.ring.record_length;
    if is_other_length(expected, length) {
        return Err(Stop::Refused(Sw::right_length(usize::from(length))));
    }
    slot.read(store, answer)?;
    let after = pointer_after(pointer, choice, slot.number);
    *current = current.pointing(target, file.number, after);
    Ok(Sw::DONE)
}

/// UPDATE RECORD: replaces a record, in one transaction.
/// In a cyclic file only the oldest record can be replaced (mode previous). The new one becomes record 1 and current.
///
/// # Errors
/// Those of `find_file`; in a cyclic file each mode but previous is 6981. Then 6A83 without the record, and 6700 for
/// another length.
pub fn update_record<B: Board>(
    store: &mut Store<B>,
    current: &mut Current,
    target: Target,
    choice: RecordChoice,
    bytes: &[u8],
) -> Result<Sw, Stop>
    requires target { HasTarget store.old current.old target }
    requires bytes { HasBetween 1 255 bytes.now }
    ensures { ExecutesInPlace (updating target choice bytes.now) store.old current.old store.new current.new []
        (reply result) }
{
    let file = find_records(store, current, target, replacing(choice))?;
    let pointer = current.pointer_at(target);
    let slot = file.find_replaced(pointer, choice, bytes)?;
    file.replace(slot, store, bytes)?;
    let after = file.pointer_replaced(pointer, choice, slot.number);
    *current = current.pointing(target, file.number, after);
    Ok(Sw::DONE)
}

/// APPEND RECORD: adds a record, in one transaction.
/// It becomes the last record of a linear file or the first of a cyclic one, and the current record.
///
/// # Errors
/// Those of `find_file`; then 6A84 if a linear file is full, and 6700 for another length.
pub fn append_record<B: Board>(
    store: &mut Store<B>,
    current: &mut Current,
    target: Target,
    bytes: &[u8],
) -> Result<Sw, Stop>
    requires target { HasTarget store.old current.old target }
    requires bytes { HasBetween 1 255 bytes.now }
    ensures { ExecutesInPlace (appending target bytes.now) store.old current.old store.new current.new []
        (reply result) }
{
    let file = find_records(store, current, target, APPENDING)?;
    let room = file.room_for(bytes)?;
    room.fill(store, bytes)?;
    *current = current.pointing(target, file.number, Some(file.added()));
    Ok(Sw::DONE)
}

/// SEARCH RECORD: writes the numbers of matching records into `answer`.
/// The first of them becomes the current record. Returns the status word.
///
/// # Errors
/// Those of `find_file`; then 6A83 without the first record, and 6CXX if Le is below the length of the answer.
// It isn't inlined, so that other commands don't pay for its space on the stack.
#[inline(never)]
pub fn search_record<B: Board>(
    store: &mut Store<B>,
    current: &mut Current,
    target: Target,
    first: RecordPlace,
    direction: Direction,
    text: &[u8],
    expected: Option<u8>,
    answer: &mut Answer,
) -> Result<Sw, Stop>
    requires target { HasTarget store.old current.old target }
    requires few { length text.now ≤ 255 }
    ensures { Executes (searching target first direction text.now expected) store.old current.old store.new current.new
        answer.new.items (reply result) }
{
    answer.clear();
    let file = find_records(store, current, target, READING)?;
    let pointer = current.pointer_at(target);
    let slot = file.find_chosen(pointer, RecordChoice::At(first))?;
    let mut numbers = ResponseData::new();
    slot.search(store, direction, text, &mut numbers)?;
    if asks_less(expected, &numbers) {
        return Err(Stop::Refused(right_length(&numbers)));
    }
    give(expected, &numbers, answer);
    let after = first_of(&numbers, pointer);
    *current = current.pointing(target, file.number, after);
    Ok(status_of_search(&numbers))
}

/// Returns true if Le is neither 00 nor the record length.
fn is_other_length(expected: u8, record_length: u16) -> bool
    ensures { result ≡ (not (expected == 0) && not (expected == record_length)) }
{
    expected != 0 && u16::from(expected) != record_length
}

/// Returns the record pointer after a search: the first match, or unchanged.
fn first_of(numbers: &ResponseData, pointer: Option<u8>) -> Option<u8>
    ensures { result ≡ pointer_found pointer numbers.now.items }
{
    numbers.first().copied().or(pointer)
}

/// Returns the status word of a search with these matches.
fn status_of_search(numbers: &ResponseData) -> Sw
    ensures { result ≡ search_status numbers.now.items }
{
    match numbers.first() {
        Some(_) => Sw::DONE,
        None => Sw::END_REACHED,
    }
}
