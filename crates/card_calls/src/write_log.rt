//! The log of a board's device writes, from which the caller takes them for the device.
ghost use Rattle.std.specs.Prelude.{◌≡◌, ◌↔◌, [], Bool, IfOk, IsTrue};
ghost use Rattle.nvm_board.specs.History.{and_run};
ghost use Rattle.card_calls.specs.Devices.{AllStored, TellsNext, logs_none, run_of, shown_log};

use crate::write::Write;
use circular_buffer::HeapCircularBuffer;
use simulated_boards::Follower;
use std::alloc::{AllocError, Global};

/// The device writes that a log has room for until they are stored, on the smallest board. A block makes at most 700,
/// and a power-on 448. A larger board has room for one more for each page more: so many more may a migration make.
pub const LOG_WRITES: usize = 704;

/// The next device write of a log.
#[derive(Drop)]
pub enum NextWrite {
    /// The device has all writes.
    Nothing,
    /// The device lacks this write, and has all earlier ones.
    Write(Write),
    /// The device lacks a write that the log has lost.
    Lost,
}

/// The last writes of a board, and the number of all, modulo 2^64.
#[derive(Drop)]
pub struct WriteLog {
    writes: HeapCircularBuffer<Write>,
    count: u64,
}

impl WriteLog {
    /// Returns an empty log with room for so many writes.
    ///
    /// # Errors
    /// There is too little memory.
    pub fn new(alloc: Global, room: usize) -> Result<WriteLog, AllocError>
        ensures { IfOk result (λ log. shown_log log ≡ logs_none room) }
    {
        let writes = HeapCircularBuffer::with_capacity(alloc, room)?;
        Ok(WriteLog { writes, count: 0 })
    }

    /// Logs a write, in place of the oldest one if the log is full.
    fn push(&mut self, write: Write)
        ensures { shown_log self.new ≡ and_run (shown_log self.old) (run_of write) }
    {
        self.writes.push_back(write);
        self.count = self.count.wrapping_add(1);
    }

    /// Forgets all writes, and begins to count at 0.
    pub fn clear(&mut self)
        ensures { shown_log self.new ≡ logs_none self.old.writes.capacity }
    {
        self.writes.clear();
        self.count = 0;
    }

    /// Returns true if a device that has so many of all writes, modulo 2^64, has them all.
    pub fn is_stored(&self, stored: u64) -> bool
        ensures { IsTrue result ↔ AllStored (shown_log self.now) stored }
    {
        self.count.wrapping_sub(stored) == 0
    }

    /// Returns the first write that a device lacks which has so many of all writes, modulo 2^64.
    pub fn next(&self, stored: u64) -> NextWrite
        ensures { TellsNext (shown_log self.now) stored result }
    {
        let fresh = self.count.wrapping_sub(stored);
        let held = self.writes.len();
        if fresh == 0 {
            return NextWrite::Nothing;
        }
        if fresh > held as u64 {
            return NextWrite::Lost;
        }
        match self.writes.get(held - fresh as usize) {
            Some(write) => NextWrite::Write(*write),
            None => NextWrite::Lost,
        }
    }
}

impl Follower for WriteLog {
    ghost log = { shown_log };

    // It takes each write whole.
    ghost behind = { λ _. Bool.false };

    fn take(&mut self, at: usize, words: &[u32]) -> bool {
        self.push(Write::new(at, words));
        true
    }
}
