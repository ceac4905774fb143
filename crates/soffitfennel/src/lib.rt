//! Card and reader's end as a library for C: each is a pointer that the caller keeps, and doesn't look behind.
//!
//! Each export returns 32 bits: WebAssembly has no narrower results.
#![tactic(auto)]

mod bench;
mod device_writes;
mod handle;
mod held;
mod reader;
mod reader_handle;
mod session;

ghost use Rattle.std.specs.Prelude.{◌≡◌, ◌≢◌, ◌≤◌, ◌<◌, length, None, Some, pos, []};
ghost use Rattle.bench_lines.specs.Orders.{IsOrderSized, On, Off, Apdu, Block, Cut, Lose, Garble};
ghost use Rattle.bench_lines.specs.OrderViews.{order_with};
ghost use Rattle.command_base.specs.Finding.{HasCard};
ghost use Rattle.simulated_boards.specs.Cut.{cut_facts};
ghost use Rattle.card_calls.specs.ScriptCalls.{RunsScript};
ghost use Rattle.card_calls.specs.SessionStates.{begun_at};
ghost use Rattle.card_calls.specs.Telling.{AnswersOrder, ChecksWords, ClearsFaults, CopiesNothing, FitsCall};
ghost use Rattle.card_calls.specs.Telling.{IsFactoryFresh, RefusesCall, RefusesPages, RefusesWords};
ghost use Rattle.card_calls.specs.Telling.{ReturnsSpace, ReturnsState, Tells};
ghost use Rattle.card_calls.specs.WriteCalls.{FallsBehind, ReturnsDevice, ReturnsFirst, ReturnsNext};
ghost use Rattle.card_calls.specs.declared.sizes.TheConstants.{ROOM};
ghost use Rattle.card_calls.specs.Telling.{TellsBytes, TellsWords, inserted, outcome_number, refusal_of};

use crate::bench::printed;
use crate::device_writes::{fall_behind, first, read_device, take_next_write};
use crate::handle::Handle;
use crate::session::Session;
use bench_lines::RunFault;
use card_bench::Order;
use card_calls::{
    CallOutcome, OrderResult, ROOM, block_fits, board_from_words, check_words, command_fits, copy,
    copy_write, factory_of, order_fits,
};
use core::mem::{replace, replace_with};
use simulated_boards::CutBoard;
use std::alloc::Global;

/// Runs an order on the card of a handle that the caller keeps. A buffer with room for any answer has its bytes then.
fn perform(
    alloc: Global,
    card: &mut Handle,
    order: Order,
    given: &[u8],
    out: &mut [u8],
) -> Result<OrderResult, CallOutcome>
    requires { IsOrderSized (order_with order given.now) }
    ensures { AnswersOrder (order_with order given.now) card.old.value card.new.value out.old out.new result }
{
    let Some(mut session) = replace(card, Handle::empty(alloc)).into_session() else {
        return Err(CallOutcome::Absent);
    };
    let result = session.perform(order, given, out);
    replace_with(card, session, exchange_card);
    result
}

/// Runs an order without bytes, and returns the number of its outcome. It refuses a number that is out of its range.
#[tactic(auto, using(crate::proofs::CallLaws::told_tells, crate::proofs::CallLaws::failed_tells))]
fn run_order(alloc: Global, card: &mut Handle, order: Order) -> i32
    ensures fits { IsOrderSized (order_with order [])
        → Tells (order_with order []) card.old.value card.new.value result }
    ensures unfit { ¬ IsOrderSized (order_with order []) → RefusesCall card.old.value card.new.value result }
{
    if !order_fits(order) {
        return refuse(alloc, card);
    }
    match perform(alloc, card, order, &[], &mut []) {
        Ok(result) => result.outcome().number(),
        Err(outcome) => outcome.number(),
    }
}

/// Runs an order with bytes, copies the result's bytes out, and returns the number of its outcome.
#[tactic(auto, using(crate::proofs::CallLaws::told_copies, crate::proofs::CallLaws::failed_copies))]
fn perform_into(
    alloc: Global,
    card: &mut Handle,
    order: Order,
    given: &[u8],
    out: &mut [u8],
    size: &mut usize,
) -> i32
    requires { FitsCall (order_with order given.now) out.old }
    ensures { TellsBytes (order_with order given.now) card.old.value card.new.value out.old out.new size.new
        result }
{
    match perform(alloc, card, order, given, out) {
        Ok(result) => {
            *size = result.size;
            result.outcome().number()
        }
        Err(outcome) => {
            *size = 0;
            outcome.number()
        }
    }
}

/// Returns what a handle's card is in.
fn read_state(card: Handle, alloc: Global) -> (Handle, (CallOutcome, u32))
    ensures same { result.0.value ≡ card.value }
    ensures returns { ReturnsState card.value result.1.1 (outcome_number result.1.0) }
{
    match card.into_session() {
        Some(session) => {
            let state = session.state();
            (Handle::of(session), (CallOutcome::Done, state))
        }
        None => (Handle::empty(alloc), (CallOutcome::Absent, 0)),
    }
}

/// Takes back what is to come of a handle's card, and switches power off.
fn clear_card(card: Handle, alloc: Global) -> (Handle, CallOutcome)
    ensures { ClearsFaults card.value result.0.value (outcome_number result.1) }
{
    match card.into_session() {
        Some(mut session) => {
            session.clear_faults();
            (Handle::of(session), CallOutcome::Done)
        }
        None => (Handle::empty(alloc), CallOutcome::Absent),
    }
}

/// Ends the card of a handle, and puts another one in its place.
pub(crate) fn exchange_card(card: Handle, session: Box<Session>) -> (Handle, ())
    ensures { result.0.value ≡ Some session.value }
{
    if let Some(ended) = card.into_session() {
        free_session(ended);
    }
    (Handle::of(session), ())
}

/// Frees the memory of a card. This is a function of its own, so that where there is none, the usual case, nothing is
/// saved for it.
#[inline(never)]
fn free_session(session: Box<Session>) {
    drop(session);
}

/// Ends the card of a handle.
fn end_card(card: Handle, alloc: Global) -> (Handle, ())
    ensures { result.0.value ≡ None }
{
    drop(card.into_session());
    (Handle::empty(alloc), ())
}

/// Tells why a size or a number is refused.
fn tell_refusal(card: Handle, alloc: Global) -> (Handle, CallOutcome)
    ensures same { result.0.value ≡ card.value }
    ensures why { result.1 ≡ refusal_of card.value }
{
    match card.into_session() {
        Some(session) => (Handle::of(session), CallOutcome::Size),
        None => (Handle::empty(alloc), CallOutcome::Absent),
    }
}

/// Returns the number of a call whose size or number is out of its range.
fn refuse(alloc: Global, card: &mut Handle) -> i32
    ensures { RefusesCall card.old.value card.new.value result }
{
    replace_with(card, alloc, tell_refusal).number()
}

/// Puts a card on a board behind a handle, if there is memory for it.
fn place_card(alloc: Global, card: &mut Handle, board: CutBoard, device: Option<i32>) -> CallOutcome
    requires { HasCard (cut_facts board).words }
    ensures done { result ≡ CallOutcome.Done → card.new.value ≡ Some (begun_at (cut_facts board) device) }
    ensures undone { result ≢ CallOutcome.Done → (result ≡ CallOutcome.Memory) × (card.new.value ≡ card.old.value) }
{
    let Ok(session) = Session::new(alloc, board, device) else {
        return CallOutcome::Memory;
    };
    match Box::new(alloc, session) {
        Ok(made) => {
            replace_with(card, made, exchange_card);
            CallOutcome::Done
        }
        Err(_) => CallOutcome::Memory,
    }
}

/// Makes the card whose memory has these words, with power off, in place of the handle's card.
fn insert(alloc: Global, card: &mut Handle, words: &[u32], device: Option<i32>) -> i32
    ensures done { result ≡ pos 0 → card.new.value ≡ Some (inserted words.now device) }
    ensures undone { result ≢ pos 0 → (card.new.value ≡ card.old.value) × RefusesWords words.now result }
{
    match board_from_words(alloc, words) {
        Ok(board) => place_card(alloc, card, board, device).number(),
        Err(outcome) => outcome.number(),
    }
}

/// Makes the factory card on a new memory of 1,024 to 4,096 pages, with power off, in place of the handle's card.
#[unsafe(no_mangle)]
pub extern "C" fn soffitfennel_factory(alloc: Global, card: &mut Handle, pages: usize) -> i32
    ensures done { result ≡ pos 0 → IsFactoryFresh pages card.new.value }
    ensures undone { result ≢ pos 0 → (card.new.value ≡ card.old.value) × RefusesPages pages result }
{
    match factory_of(alloc, pages) {
        Ok(board) => place_card(alloc, card, board, None).number(),
        Err(outcome) => outcome.number(),
    }
}

/// Makes the card whose memory has these words, with power off, in place of the handle's card. Nothing keeps it.
#[unsafe(no_mangle)]
pub extern "C" fn soffitfennel_insert(alloc: Global, card: &mut Handle, words: &[u32]) -> i32
    ensures done { result ≡ pos 0 → card.new.value ≡ Some (inserted words.now None) }
    ensures undone { result ≢ pos 0 → (card.new.value ≡ card.old.value) × RefusesWords words.now result }
{
    insert(alloc, card, words, None)
}

/// Makes the card whose memory has these words, with power off, in place of the handle's card. The device of this
/// number has the words already.
#[unsafe(no_mangle)]
pub extern "C" fn soffitfennel_attach(
    alloc: Global,
    card: &mut Handle,
    words: &[u32],
    device: i32,
) -> i32
    ensures done { result ≡ pos 0 → card.new.value ≡ Some (inserted words.now (Some device)) }
    ensures undone { result ≢ pos 0 → (card.new.value ≡ card.old.value) × RefusesWords words.now result }
{
    insert(alloc, card, words, Some(device))
}

/// Switches power on, after power off if it is on. A caller stores the writes before it tells the outcome.
#[unsafe(no_mangle)]
pub extern "C" fn soffitfennelcore_power_on(alloc: Global, card: &mut Handle) -> i32
    ensures { Tells On card.old.value card.new.value result }
{
    run_order(alloc, card, Order::On)
}

/// Switches power off.
#[unsafe(no_mangle)]
pub extern "C" fn soffitfennel_power_off(alloc: Global, card: &mut Handle) -> i32
    ensures { Tells Off card.old.value card.new.value result }
{
    run_order(alloc, card, Order::Off)
}

/// Sends a command through both ends of the link. A caller stores the command's first write before this call, and the
/// others before it hands the answer out. On a card with a device, a command that can compare a PIN runs only if its
/// first write was handed out.
#[unsafe(no_mangle)]
pub extern "C" fn soffitfennelcore_command(
    alloc: Global,
    card: &mut Handle,
    command: &[u8],
    answer: &mut [u8],
    size: &mut usize,
) -> i32
    ensures fits { FitsCall (Apdu command.now) answer.old
        → TellsBytes (Apdu command.now) card.old.value card.new.value answer.old answer.new size.new result }
    ensures unfit { ¬ FitsCall (Apdu command.now) answer.old → RefusesCall card.old.value card.new.value result
        × CopiesNothing answer.old answer.new size.new }
{
    if !command_fits(command, answer) {
        *size = 0;
        return refuse(alloc, card);
    }
    perform_into(alloc, card, Order::Apdu, command, answer, size)
}

/// Sends a block of T=1 to the card's end of the link. A caller stores the block's first write before this call, and
/// the others before it hands the reply out. On a card with a device, a block runs only if its first write was handed
/// out.
#[unsafe(no_mangle)]
pub extern "C" fn soffitfennelcore_block(
    alloc: Global,
    card: &mut Handle,
    block: &[u8],
    reply: &mut [u8],
    size: &mut usize,
) -> i32
    ensures fits { FitsCall (Block block.now) reply.old
        → TellsBytes (Block block.now) card.old.value card.new.value reply.old reply.new size.new result }
    ensures unfit { ¬ FitsCall (Block block.now) reply.old → RefusesCall card.old.value card.new.value result
        × CopiesNothing reply.old reply.new size.new }
{
    if !block_fits(block, reply) {
        *size = 0;
        return refuse(alloc, card);
    }
    perform_into(alloc, card, Order::Block, block, reply, size)
}

/// Copies the first device write of a command out, if it can compare a PIN. The command may run then.
#[unsafe(no_mangle)]
pub extern "C" fn soffitfennelcore_first_of_command(
    alloc: Global,
    card: &mut Handle,
    command: &[u8],
    out: &mut [u8],
    offset: &mut usize,
    size: &mut usize,
) -> i32
    ensures fits { FitsCall (Apdu command.now) out.old → ReturnsFirst (Apdu command.now) card.old.value card.new.value
        out.old out.new offset.new size.new result }
    ensures unfit { ¬ FitsCall (Apdu command.now) out.old → RefusesCall card.old.value card.new.value result
        × CopiesNothing out.old out.new size.new }
{
    if !command_fits(command, out) {
        *size = 0;
        return refuse(alloc, card);
    }
    first(alloc, card, Order::Apdu, command, out, offset, size)
}

/// Copies the first device write of a block's command out, if the block ends one. The block may run then.
#[unsafe(no_mangle)]
pub extern "C" fn soffitfennelcore_first_of_block(
    alloc: Global,
    card: &mut Handle,
    block: &[u8],
    out: &mut [u8],
    offset: &mut usize,
    size: &mut usize,
) -> i32
    ensures fits { FitsCall (Block block.now) out.old → ReturnsFirst (Block block.now) card.old.value card.new.value
        out.old out.new offset.new size.new result }
    ensures unfit { ¬ FitsCall (Block block.now) out.old → RefusesCall card.old.value card.new.value result
        × CopiesNothing out.old out.new size.new }
{
    if !block_fits(block, out) {
        *size = 0;
        return refuse(alloc, card);
    }
    first(alloc, card, Order::Block, block, out, offset, size)
}

/// Copies the next write that the device lacks out. From then on it counts as stored.
#[unsafe(no_mangle)]
pub extern "C" fn soffitfennelcore_next_write(
    alloc: Global,
    card: &mut Handle,
    out: &mut [u8],
    offset: &mut usize,
    size: &mut usize,
) -> i32
    ensures fits { ROOM ≤ length out.old
        → ReturnsNext card.old.value card.new.value out.old out.new offset.new size.new result }
    ensures unfit { length out.old < ROOM → RefusesCall card.old.value card.new.value result
        × CopiesNothing out.old out.new size.new }
{
    if out.len() < ROOM {
        *size = 0;
        return refuse(alloc, card);
    }
    let told = replace_with(card, alloc, take_next_write);
    copy_write(told, out, offset, size)
}

/// Notes that the device didn't take a write. No further order runs.
#[unsafe(no_mangle)]
pub extern "C" fn soffitfennelcore_fall_behind(alloc: Global, card: &mut Handle) -> i32
    ensures { FallsBehind card.old.value card.new.value result }
{
    replace_with(card, alloc, fall_behind).number()
}

/// Returns the number of the card's device.
#[unsafe(no_mangle)]
pub extern "C" fn soffitfennelcore_device(alloc: Global, card: &mut Handle, device: &mut i32) -> i32
    ensures same { card.new.value ≡ card.old.value }
    ensures returns { ReturnsDevice card.old.value device.new result }
{
    let (outcome, number) = replace_with(card, alloc, read_device);
    *device = number;
    outcome.number()
}

/// Sets a power cut for a later device write.
#[unsafe(no_mangle)]
pub extern "C" fn soffitfennel_cut(alloc: Global, card: &mut Handle, number: u32, mask: u16) -> i32
    ensures fits { IsOrderSized (Cut number mask)
        → Tells (Cut number mask) card.old.value card.new.value result }
    ensures unfit { ¬ IsOrderSized (Cut number mask) → RefusesCall card.old.value card.new.value result }
{
    run_order(alloc, card, Order::Cut { number, mask })
}

/// Sets the block that the line loses.
#[unsafe(no_mangle)]
pub extern "C" fn soffitfennel_lose(alloc: Global, card: &mut Handle, number: u32) -> i32
    ensures fits { IsOrderSized (Lose number) → Tells (Lose number) card.old.value card.new.value result }
    ensures unfit { ¬ IsOrderSized (Lose number) → RefusesCall card.old.value card.new.value result }
{
    run_order(alloc, card, Order::Lose(number))
}

/// Sets the block that the line garbles.
#[unsafe(no_mangle)]
pub extern "C" fn soffitfennel_garble(alloc: Global, card: &mut Handle, number: u32) -> i32
    ensures fits { IsOrderSized (Garble number) → Tells (Garble number) card.old.value card.new.value result }
    ensures unfit { ¬ IsOrderSized (Garble number) → RefusesCall card.old.value card.new.value result }
{
    run_order(alloc, card, Order::Garble(number))
}

/// Takes back a cut, a loss and a garbling that are to come, and switches power off.
#[unsafe(no_mangle)]
pub extern "C" fn soffitfennel_clear_faults(alloc: Global, card: &mut Handle) -> i32
    ensures { ClearsFaults card.old.value card.new.value result }
{
    replace_with(card, alloc, clear_card).number()
}

/// Returns what the card is in, as a number: the sum of 1 if power is on, 2 if it has a device, 4 if a cut is to come,
/// 8 if a block is to be lost, 16 if one is to be garbled, and 32 if its device didn't store a write.
#[unsafe(no_mangle)]
pub extern "C" fn soffitfennel_state(alloc: Global, card: &mut Handle, state: &mut u32) -> i32
    ensures same { card.new.value ≡ card.old.value }
    ensures returns { ReturnsState card.old.value state.new result }
{
    let (outcome, bits) = replace_with(card, alloc, read_state);
    *state = bits;
    outcome.number()
}

/// Returns the free space: unused blocks of the memory, and unused entries of the file table.
#[tactic(auto, using(crate::proofs::CallLaws::told_space, crate::proofs::CallLaws::failed_space))]
#[unsafe(no_mangle)]
pub extern "C" fn soffitfennel_free_space(
    alloc: Global,
    card: &mut Handle,
    blocks: &mut u16,
    entries: &mut u16,
) -> i32
    ensures { ReturnsSpace card.old.value card.new.value blocks.new entries.new result }
{
    match perform(alloc, card, Order::Free, &[], &mut []) {
        Ok(result) => {
            let space = result.space();
            *blocks = space.blocks;
            *entries = space.entries;
            result.outcome().number()
        }
        Err(outcome) => {
            *blocks = 0;
            *entries = 0;
            outcome.number()
        }
    }
}

/// Copies the memory's words out, and returns their number. It asks for no memory.
#[unsafe(no_mangle)]
pub extern "C" fn soffitfennel_words(
    alloc: Global,
    card: &mut Handle,
    words: &mut [u32],
    size: &mut usize,
) -> i32
    ensures same { card.new.value ≡ card.old.value }
    ensures reads { TellsWords card.old.value words.old words.new size.new result }
{
    match replace(card, Handle::empty(alloc)).into_session() {
        Some(session) => {
            let (outcome, count) = session.copy_words(words);
            *size = count;
            replace_with(card, session, exchange_card);
            outcome.number()
        }
        None => {
            *size = 0;
            CallOutcome::Absent.number()
        }
    }
}

/// Ends the handle's card, frees its memory, and sets the handle to null.
#[unsafe(no_mangle)]
pub extern "C" fn soffitfennel_free(alloc: Global, card: &mut Handle)
    ensures { card.new.value ≡ None }
{
    replace_with(card, alloc, end_card);
}

/// Tells whether words are a valid card image, and if not, what is wrong with them.
#[unsafe(no_mangle)]
pub extern "C" fn soffitfennel_check(alloc: Global, words: &[u32], why: &mut u32) -> i32
    ensures { ChecksWords words.now result why.new }
{
    let (outcome, reason) = check_words(alloc, words);
    *why = reason;
    outcome.number()
}

/// Runs a script on the factory card, as the bench does, and returns the bench's exit status. The output is in the
/// buffer. If the buffer has too little room for it, nothing is copied, and the status is that of an output that can't
/// be written.
#[unsafe(no_mangle)]
pub extern "C" fn soffitfennel_run(
    alloc: Global,
    script: &[u8],
    output: &mut [u8],
    size: &mut usize,
) -> i32
    ensures { RunsScript script.now output.old output.new size.new result }
{
    let (text, stopped) = printed(alloc, script);
    if text.len() > output.len() {
        *size = 0;
        return i32::from(RunFault::Write.status());
    }
    *size = copy(&text, output);
    match stopped {
        None => 0,
        Some(fault) => i32::from(fault.status()),
    }
}
