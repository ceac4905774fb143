//! The slots of a ring of records, and the results of lookups: a record, or a free slot.
ghost use Rattle.std.specs.Prelude.{◌≡◌, ◌≤◌, ◌<◌, ◌+◌, ◌-◌, ◌*◌, ◌%◌};
ghost use Rattle.ef_body.specs.ReadParts.{IsSlotNumber};

use crate::cyclic::Cyclic;

/// A record that was found in a ring, by its number. Calls on it refuse nothing.
#[derive(Clone, Copy)]
pub struct RecordSlot {
    pub ring: Cyclic,
    pub number: u16,
    ghost from_first: { 1 ≤ number },
    ghost to_last: { number ≤ ring.records },
}

/// A free slot that was found behind the last record. Calls on it refuse nothing.
#[derive(Clone, Copy)]
pub struct FreeSlot {
    pub ring: Cyclic,
    ghost room: { ring.records < ring.capacity },
}

/// Returns the slot of a number. The first slot follows the last one, so the slot before that of record 1 has the
/// capacity as its number.
pub(crate) fn slot_of(ring: Cyclic, number: u16) -> u16
    requires { IsSlotNumber ring number }
    ensures slot { result ≡ (ring.start + number - 1) % ring.capacity }
    ensures within { result < ring.capacity }
{
    (ring.start + number - 1) % ring.capacity
}

/// Returns the offset of a slot in the bytes of the chain.
pub(crate) fn offset_of(ring: Cyclic, slot: u16) -> u16
    requires within { slot < ring.capacity }
    requires small { ring.capacity * ring.record_length ≤ 32767 }
    ensures { result ≡ slot * ring.record_length }
{
    slot * ring.record_length
}
