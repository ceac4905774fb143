//! Record files, and the checks of a command before it writes a record.
ghost use Rattle.std.specs.Prelude.{◌≡◌, ◌≤◌, ◌⊎◌, ◌==◌, if◌then◌else◌, length, None, Some, IfOk};
ghost use Rattle.std.specs.Result.{result_err};
ghost use Rattle.card_model.specs.declared.status.TheConstants.Sw.{NO_ROOM};
ghost use Rattle.undo_journal.specs.Memory.{committed};
ghost use Rattle.ef_body.specs.declared.layout.TheConstants.{RECORD_WRITES};
ghost use Rattle.ef_body.specs.Bodies.{cyclic_body_records};
ghost use Rattle.ef_contents.specs.BodyCalls.{Commits};
ghost use Rattle.ef_body.specs.RingCalls.{FindsRecord};
ghost use Rattle.ef_body.specs.StoredBodies.{TakesRecord};
ghost use Rattle.file_tree.specs.declared.kinds.EntryKind.TheVariants as kinds;
ghost use Rattle.file_tree.specs.Kinds.{kind_byte};
ghost use Rattle.card_model.specs.RecordCommands.{next_record, place_number, pointer_after, previous_record};
ghost use Rattle.content_commands.specs.RecordParts.{appended_in, chosen_in, is_full_in, number_added_in};
ghost use Rattle.content_commands.specs.RecordParts.{number_replaced_in, record_file_in};
ghost use Rattle.content_commands.specs.RecordParts.{replaced_in, ring_room, unadded, unreplaced};
ghost use Rattle.content_commands.specs.RecordParts.{wraps_room, RingBecomes, IsRecordEntry};
ghost use Rattle.command_base.specs.TemplateParts.{IsToldEntry};

use apdu_core::{RecordChoice, RecordPlace};
use block_chain::Chain;
use card_model::Sw;
use ef_body::{Cyclic, FreeSlot, RecordSlot};
use file_tree::{Entry, EntryKind, EntryNumber, RECORDS_WORD, entry_address};
use undo_journal::{Board, Store, StoreErr};

/// A record file: its entry number, its ring, and its kind.
/// `wraps` is true for a cyclic file.
/// Record 1 of a linear file is in slot 0.
#[derive(Clone, Copy)]
pub(crate) struct RecordFile {
    pub number: EntryNumber,
    pub ring: Cyclic,
    pub wraps: bool,
}

/// The place for an added record.
#[derive(Clone, Copy)]
pub(crate) enum Room {
    /// After the last record, in a free slot.
    Behind(FreeSlot),
    /// In front of the first record. In a full file it overwrites the oldest one.
    InFront(Cyclic),
}

impl RecordFile {
    /// Returns the record file of a used entry.
    pub fn of(number: EntryNumber, entry: &Entry) -> RecordFile
        requires { IsRecordEntry number entry.now }
        ensures { result ≡ record_file_in number entry.now }
    {
        let ring = Cyclic {
            chain: Chain {
                first: entry.first,
                last: entry.last,
            },
            record_length: entry.record_length,
            capacity: entry.size / entry.record_length,
            records: entry.records,
            start: entry.start,
            counts_at: entry_address(number) + RECORDS_WORD,
        };
        RecordFile {
            number,
            ring,
            wraps: entry.has_kind(EntryKind::Cyclic),
        }
    }

    /// Returns the number of the selected record, which may not exist.
    fn chosen(&self, pointer: Option<u8>, choice: RecordChoice) -> u16
        ensures { result ≡ chosen_in self.now pointer choice }
    {
        match choice {
            RecordChoice::Next => next_record(self.wraps, self.ring.records, pointer),
            RecordChoice::Previous => previous_record(self.wraps, self.ring.records, pointer),
            RecordChoice::At(place) => place_number(place, pointer),
        }
    }

    /// Returns the selected record.
    ///
    /// # Errors
    /// 6A83 if and only if the record doesn't exist.
    pub fn find_chosen(&self, pointer: Option<u8>, choice: RecordChoice) -> Result<RecordSlot, Sw>
        ensures { FindsRecord self.now.ring (chosen_in self.now pointer choice) result }
    {
        self.ring.find(self.chosen(pointer, choice))
    }

    /// Returns the number of the record to overwrite.
    /// In a cyclic file it is 1: the new record goes in front of record 1.
    fn replaced(&self, pointer: Option<u8>, choice: RecordChoice) -> u16
        ensures { result ≡ number_replaced_in self.now pointer choice }
    {
        if self.wraps {
            1
        } else {
            self.chosen(pointer, choice)
        }
    }

    /// Returns the record that the bytes replace.
    ///
    /// # Errors
    /// 6A83 if and only if the record doesn't exist; 6700 if it exists and has another length.
    pub fn find_replaced(
        &self,
        pointer: Option<u8>,
        choice: RecordChoice,
        bytes: &[u8],
    ) -> Result<RecordSlot, Sw>
        ensures found { IfOk result (λ slot. (slot.ring ≡ self.now.ring)
            × (slot.number ≡ number_replaced_in self.now pointer choice)) }
        ensures refusal { result_err result
            ≡ unreplaced self.now (number_replaced_in self.now pointer choice) bytes.now }
    {
        let slot = self.ring.find(self.replaced(pointer, choice))?;
        if !self.takes(bytes) {
            return Err(Sw::WRONG_LENGTH);
        }
        Ok(slot)
    }

    /// Returns the number that an added record gets.
    pub fn added(&self) -> u8
        requires { self.now.ring.records ≤ 254 }
        ensures { result ≡ number_added_in self.now }
    {
        if self.wraps {
            1
        } else {
            self.ring.records as u8 + 1
        }
    }

    /// Returns true if the bytes have the length of a record.
    fn takes(&self, bytes: &[u8]) -> bool
        ensures { result ≡ (length bytes.now == self.now.ring.record_length) }
    {
        bytes.len() == usize::from(self.ring.record_length)
    }

    /// Returns the record pointer after the replacement of record `number`.
    pub fn pointer_replaced(
        &self,
        pointer: Option<u8>,
        choice: RecordChoice,
        number: u16,
    ) -> Option<u8>
        requires { number ≤ 255 }
        ensures { result ≡ (if self.now.wraps then Some 1 else pointer_after pointer choice number) }
    {
        if self.wraps {
            Some(1)
        } else {
            pointer_after(pointer, choice, number)
        }
    }

    /// Replaces the record of a slot, in one transaction.
    /// In a cyclic file it overwrites the oldest record, and the new one becomes record 1.
    ///
    /// # Errors
    /// The store fails: power was lost, or the device failed.
    pub fn replace<B: Board>(
        &self,
        slot: RecordSlot,
        store: &mut Store<B>,
        bytes: &[u8],
    ) -> Result<(), StoreErr>
        requires body { TakesRecord store.old slot.ring bytes.now }
        ensures { Commits (RingBecomes self.now.wraps (committed store.old) slot.ring (replaced_in
            self.now.wraps (cyclic_body_records (committed store.old) slot.ring) slot.number bytes.now))
            RECORD_WRITES store.old store.new result }
    {
        if self.wraps {
            slot.replace_oldest(store, bytes)
        } else {
            slot.replace(store, bytes)
        }
    }

    /// Returns the place for the bytes as an added record.
    ///
    /// # Errors
    /// 6A84 if and only if a linear file is full; 6700 if there is space, and the records have another length.
    pub fn room_for(&self, bytes: &[u8]) -> Result<Room, Sw>
        ensures ring { IfOk result (λ room. ring_room room ≡ self.now.ring) }
        ensures wraps { IfOk result (λ room. wraps_room room ≡ self.now.wraps) }
        ensures refusal { result_err result ≡ unadded self.now bytes.now }
    {
        let room = self.find_room()?;
        if !self.takes(bytes) {
            return Err(Sw::WRONG_LENGTH);
        }
        Ok(room)
    }

    /// Returns the place for an added record.
    ///
    /// # Errors
    /// 6A84 if and only if a linear file is full.
    fn find_room(&self) -> Result<Room, Sw>
        ensures ring { IfOk result (λ room. ring_room room ≡ self.now.ring) }
        ensures wraps { IfOk result (λ room. wraps_room room ≡ self.now.wraps) }
        ensures refusal { result_err result ≡ (if is_full_in self.now then Some NO_ROOM else None) }
    {
        if self.wraps {
            return Ok(Room::InFront(self.ring));
        }
        let slot = self.ring.find_behind()?;
        Ok(Room::Behind(slot))
    }
}

impl Room {
    /// Adds a record, in one transaction.
    ///
    /// # Errors
    /// The store fails: power was lost, or the device failed.
    pub fn fill<B: Board>(self, store: &mut Store<B>, bytes: &[u8]) -> Result<(), StoreErr>
        requires body { TakesRecord store.old (ring_room self) bytes.now }
        ensures { Commits (RingBecomes (wraps_room self) (committed store.old) (ring_room self) (appended_in
            (wraps_room self) (ring_room self).capacity (cyclic_body_records (committed store.old) (ring_room self))
            bytes.now)) RECORD_WRITES store.old store.new result }
    {
        match self {
            Room::Behind(slot) => slot.append(store, bytes),
            Room::InFront(ring) => ring.push_front(store, bytes),
        }
    }
}

/// Returns the record number after the pointer, or 1 without pointer.
/// After the last record of a cyclic file it is 1.
fn next_record(wraps: bool, last: u16, pointer: Option<u8>) -> u16
    ensures { result ≡ next_record wraps last pointer }
{
    match pointer {
        None => 1,
        Some(number) if wraps && last <= u16::from(number) => 1,
        Some(number) => u16::from(number) + 1,
    }
}

/// Returns the record number before the pointer, or the last without pointer.
/// Before the first record of a cyclic file it is the last; 0 means none.
fn previous_record(wraps: bool, last: u16, pointer: Option<u8>) -> u16
    ensures { result ≡ previous_record wraps last pointer }
{
    match pointer {
        None => last,
        Some(number) if wraps && number <= 1 => last,
        Some(number) => u16::from(number).saturating_sub(1),
    }
}

/// Returns the record number of a place; 0 without a current record.
fn place_number(place: RecordPlace, pointer: Option<u8>) -> u16
    ensures { result ≡ place_number place pointer }
{
    match place {
        RecordPlace::CurrentRecord => u16::from(pointer.unwrap_or(0)),
        RecordPlace::Number(number) => u16::from(number),
    }
}

/// Returns the record pointer after a record was read or replaced.
/// Modes next and previous move it to that record.
pub(crate) fn pointer_after(pointer: Option<u8>, choice: RecordChoice, number: u16) -> Option<u8>
    requires { number ≤ 255 }
    ensures { result ≡ pointer_after pointer choice number }
{
    match choice {
        RecordChoice::Next | RecordChoice::Previous => Some(number as u8),
        RecordChoice::At(_) => pointer,
    }
}
