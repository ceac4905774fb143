//! The reader's end of T=1 for C: a reader is a pointer that the caller keeps, and doesn't look behind.
ghost use Rattle.std.specs.Prelude.{◌≡◌, None, Some};
ghost use Rattle.card_calls.specs.ReaderCalls.{CallsCommand, CallsReceive, MakesReader, ResetsReader};

use crate::reader_handle::ReaderHandle;
use card_calls::{CallOutcome, begin, receive};
use core::mem::{replace, replace_with};
use std::alloc::Global;
use t1_link::ReaderEnd;

/// Ends the reader of a handle, and puts another one in its place.
fn exchange_reader(reader: ReaderHandle, end: Box<ReaderEnd>) -> (ReaderHandle, ())
    ensures { result.0.value ≡ Some end.value }
{
    drop(reader.into_reader());
    (ReaderHandle::of(end), ())
}

/// Ends the reader of a handle.
fn end_reader(reader: ReaderHandle, alloc: Global) -> (ReaderHandle, ())
    ensures { result.0.value ≡ None }
{
    drop(reader.into_reader());
    (ReaderHandle::empty(alloc), ())
}

/// Makes a reader's end as after power-on, in place of the handle's one, if there is memory for it.
#[unsafe(no_mangle)]
pub extern "C" fn soffitfennel_reader_new(alloc: Global, reader: &mut ReaderHandle) -> i32
    ensures { MakesReader reader.old.value reader.new.value result }
{
    match Box::new(alloc, ReaderEnd::new()) {
        Ok(made) => {
            replace_with(reader, made, exchange_reader);
            CallOutcome::Done.number()
        }
        Err(_) => CallOutcome::Memory.number(),
    }
}

/// Begins a command, and copies its first block out.
#[unsafe(no_mangle)]
pub extern "C" fn soffitfennel_reader_command(
    alloc: Global,
    reader: &mut ReaderHandle,
    command: &[u8],
    block: &mut [u8],
    size: &mut usize,
) -> i32
    ensures { CallsCommand command.now reader.old.value reader.new.value block.old block.new size.new result }
{
    let Some(mut end) = replace(reader, ReaderHandle::empty(alloc)).into_reader() else {
        *size = 0;
        return CallOutcome::Absent.number();
    };
    let (outcome, count) = begin(&mut end, command, block);
    *size = count;
    replace_with(reader, end, exchange_reader);
    outcome.number()
}

/// Passes a received block on, or that none came in time, if it has no bytes. Copies the next block or the answer out.
#[unsafe(no_mangle)]
pub extern "C" fn soffitfennel_reader_receive(
    alloc: Global,
    reader: &mut ReaderHandle,
    block: &[u8],
    out: &mut [u8],
    size: &mut usize,
) -> i32
    ensures { CallsReceive block.now reader.old.value reader.new.value out.old out.new size.new result }
{
    let Some(mut end) = replace(reader, ReaderHandle::empty(alloc)).into_reader() else {
        *size = 0;
        return CallOutcome::Absent.number();
    };
    let (outcome, count) = receive(&mut end, block, out);
    *size = count;
    replace_with(reader, end, exchange_reader);
    outcome.number()
}

/// Sets a handle's reader back to its state after power-on.
fn reset(reader: ReaderHandle, alloc: Global) -> (ReaderHandle, i32)
    ensures { ResetsReader reader.value result.0.value result.1 }
{
    match reader.into_reader() {
        Some(mut end) => {
            end.reset();
            (ReaderHandle::of(end), CallOutcome::Done.number())
        }
        None => (ReaderHandle::empty(alloc), CallOutcome::Absent.number()),
    }
}

/// Sets the reader back to its state after power-on, as the card's reset does with the card's end.
#[unsafe(no_mangle)]
pub extern "C" fn soffitfennel_reader_reset(alloc: Global, reader: &mut ReaderHandle) -> i32
    ensures { ResetsReader reader.old.value reader.new.value result }
{
    replace_with(reader, alloc, reset)
}

/// Ends the handle's reader, frees its memory, and sets the handle to null.
#[unsafe(no_mangle)]
pub extern "C" fn soffitfennel_reader_free(alloc: Global, reader: &mut ReaderHandle)
    ensures { reader.new.value ≡ None }
{
    replace_with(reader, alloc, end_reader);
}
