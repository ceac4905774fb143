//! The device writes of a command, and what each does to the memory.
ghost use Rattle.std.specs.Prelude.{◌≡◌, ◌++◌, OnOk, string_bytes};
ghost use Rattle.undo_journal.specs.Undo.{gate, in_journal};
ghost use Rattle.sweep_reports.specs.DeviceWrites.{IsWriteKind, kind_at, kind_name, kinds_text};
ghost use Rattle.sweep_reports.specs.DeviceWrites.{write_text};

use card_sweeps::first_change;
use std::alloc::{AllocError, Global};
use undo_journal::{GATE, JOURNAL_END};

/// A device write of the command.
#[derive(Clone, Copy, Drop)]
pub struct DeviceWrite {
    /// The number of its words.
    pub words: u8,
    /// What it does to the memory.
    pub kind: WriteKind,
}

/// What a device write does to the memory.
#[derive(Clone, Copy, Drop)]
pub enum WriteKind {
    /// It sets the gate, the number of pairs that count.
    Gate,
    /// It sets the gate back to 0.
    Commit,
    /// It changes words of the journal.
    Pairs,
    /// It changes data words, while pairs count.
    Words,
    /// It is one data word, while no pair counts.
    Alone,
    /// It is several data words, while no pair counts.
    Fill,
    /// It changes no word.
    Same,
}

impl WriteKind {
    /// Returns the kind of a write of this many words, from the memories before and after it.
    pub fn of(words: u8, before: &[u32], after: &[u32]) -> WriteKind
        ensures { IsWriteKind words before.now after.now result }
    {
        let counting = gate(after);
        if counting == gate(before) {
            WriteKind::at(words, before, first_change(before, after))
        } else if counting == 0 {
            WriteKind::Commit
        } else {
            WriteKind::Gate
        }
    }

    /// Returns the kind of a write that doesn't change the gate, from the lowest address that it changes.
    fn at(words: u8, before: &[u32], changed: Option<usize>) -> WriteKind
        ensures { result ≡ kind_at words before.now changed }
    {
        let Some(at) = changed else {
            return WriteKind::Same;
        };
        if is_in_journal(at) {
            WriteKind::Pairs
        } else if gate(before) > 0 {
            WriteKind::Words
        } else if words == 1 {
            WriteKind::Alone
        } else {
            WriteKind::Fill
        }
    }

    /// Returns its name.
    fn name(self) -> &'static str
        ensures { result.now ≡ kind_name self }
    {
        match self {
            WriteKind::Gate => "gate",
            WriteKind::Commit => "commit",
            WriteKind::Pairs => "pairs",
            WriteKind::Words => "words",
            WriteKind::Alone => "alone",
            WriteKind::Fill => "fill",
            WriteKind::Same => "same",
        }
    }
}

/// Returns the gate of a memory, the number of pairs that count.
fn gate(words: &[u32]) -> u32
    ensures { result ≡ gate words.now }
{
    match words.get(GATE as usize) {
        Some(gate) => *gate,
        None => 0,
    }
}

/// Returns true if an address lies in the gate's page or in the journal's pages.
fn is_in_journal(at: usize) -> bool
    ensures { result ≡ in_journal at }
{
    GATE as usize <= at && at < JOURNAL_END as usize
}

/// Appends the line of a device write.
#[tactic(auto, unfolding(crate::specs::DeviceWrites::write_text))]
fn push_kind(
    alloc: Global,
    text: &mut String,
    number: usize,
    it: &DeviceWrite,
) -> Result<(), AllocError>
    ensures { OnOk result (string_bytes text.new ≡ string_bytes text.old ++ write_text number it.now) }
{
    let words = it.words;
    let name = it.kind.name();
    let line = format!(in alloc;
        "{{\"write\": {number}, \"words\": {words}, \"kind\": \"{name}\"}}\n"
    )?;
    text.push_str(&line)
}

/// Appends a line for each device write.
///
/// # Errors
/// There is too little memory.
pub fn push_kinds(
    alloc: Global,
    text: &mut String,
    writes: &[DeviceWrite],
) -> Result<(), AllocError>
    ensures { OnOk result (string_bytes text.new ≡ string_bytes text.old ++ kinds_text 1 writes.now) }
{
    let mut number = 1;
    let mut rest = writes;
    while let [write, later @ ..] = rest {
        push_kind(alloc, text, number, write)?;
        number += 1;
        rest = later;
    }
    Ok(())
}
