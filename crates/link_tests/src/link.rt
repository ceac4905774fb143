//! The reader's end of T=1 (ISO/IEC 7816-3, third edition, clause 11). The rows test the card's end, and `blocks` tests
//! both ends with every kind of block.

use std::process::Abort;
use t1_link::{BlockBytes, Failure, Next, ReaderEnd};

/// An event at the reader's end.
#[derive(Clone, Copy, Debug)]
enum Event {
    Send(&'static [u8]),
    Got(&'static [u8]),
    TimedOut,
}

/// The reaction of the reader's end: block, answer, or none.
#[derive(Clone, Copy)]
enum Says {
    Block(&'static [u8]),
    Answer(&'static [u8]),
    Unknown,
    LinkLost,
    BadAnswer,
}

fn tell(rt: &impl Abort, reader: &mut ReaderEnd, event: Event, out: &mut BlockBytes) -> Next {
    match event {
        Event::Send(bytes) => {
            assert!(rt; !reader.busy() && 1 <= bytes.len() && bytes.len() <= 261);
            reader.send(bytes, out)
        }
        Event::Got(bytes) => {
            assert!(rt; reader.busy());
            reader.got(bytes, out)
        }
        Event::TimedOut => {
            assert!(rt; reader.busy());
            reader.timed_out(out)
        }
    }
}

/// Returns true if this is the reaction.
/// A command is in progress if and only if it is a block.
fn is_said(next: Next, reader: &ReaderEnd, block: &BlockBytes, says: Says) -> bool {
    match (next, says) {
        (Next::Send, Says::Block(bytes)) => reader.busy() && block.as_slice() == bytes,
        (Next::Done, Says::Answer(bytes)) => !reader.busy() && reader.answer() == bytes,
        (Next::Unknown, Says::Unknown)
        | (Next::Failed(Failure::LinkLost), Says::LinkLost)
        | (Next::Failed(Failure::BadAnswer), Says::BadAnswer) => !reader.busy(),
        _ => false,
    }
}

/// An event at the reader's end, and its reaction.
type Row = (Event, Says);

// A command to send, and its first block.
macro_rules! sends {
    ($command:expr, $block:expr) => {
        (Event::Send($command), Says::Block($block))
    };
}

// A received block, and the next one to send.
macro_rules! goes_on {
    ($block:expr, $next:expr) => {
        (Event::Got($block), Says::Block($next))
    };
}

// The last block of an answer, and the answer.
macro_rules! answers {
    ($block:expr, $answer:expr) => {
        (Event::Got($block), Says::Answer($answer))
    };
}

const SELECT: Row = sends!(
    b"\x00\xA4\x00\x0C\x02\x3F\x00",
    b"\x00\x00\x07\x00\xA4\x00\x0C\x02\x3F\x00\x92"
);

// Three blocks are sent again, and the fourth timeout causes RESYNCH.
const TIME_OUT: Row = (Event::TimedOut, Says::Block(b"\x00\x82\x00\x82"));

const RESYNCH: Row = (Event::TimedOut, Says::Block(b"\x00\xC0\x00\xC0"));

// Each list starts after power-on.
const EXCHANGES: &[&[Row]] = &[
    &[
        SELECT,
        answers!(b"\x00\x00\x02\x90\x00\x92", b"\x90\x00"),
        sends!(
            b"\x00\xB0\x82\x00\x01",
            b"\x00\x40\x05\x00\xB0\x82\x00\x01\x76"
        ),
        answers!(b"\x00\x40\x03\x98\x90\x00\x4B", b"\x98\x90\x00"),
    ],
    // A garbled block, a block with another number, and an R-block that requests the command again.
    &[
        SELECT,
        goes_on!(b"\x00\x00\x02\x90\x00\x93", b"\x00\x81\x00\x81"),
        goes_on!(b"\x00\x40\x02\x90\x00\xD2", b"\x00\x82\x00\x82"),
        goes_on!(
            b"\x00\x80\x00\x80",
            b"\x00\x00\x07\x00\xA4\x00\x0C\x02\x3F\x00\x92"
        ),
        answers!(b"\x00\x00\x02\x90\x00\x92", b"\x90\x00"),
    ],
    // An answered RESYNCH: it is unknown whether the command ran, and numbers start anew.
    &[
        SELECT,
        TIME_OUT,
        TIME_OUT,
        TIME_OUT,
        RESYNCH,
        (Event::Got(b"\x00\xE0\x00\xE0"), Says::Unknown),
        SELECT,
    ],
    // An unanswered RESYNCH, three times.
    &[
        SELECT,
        TIME_OUT,
        TIME_OUT,
        TIME_OUT,
        RESYNCH,
        goes_on!(b"\x00\x00\x02\x90\x00\x92", b"\x00\xC0\x00\xC0"),
        RESYNCH,
        (Event::TimedOut, Says::LinkLost),
        (Event::Send(b"\x00\xA4\x00\x0C\x02\x3F\x00"), Says::LinkLost),
    ],
    // An answer of one byte.
    &[
        SELECT,
        (Event::Got(b"\x00\x00\x01\x90\x91"), Says::BadAnswer),
        (Event::Send(b"\x00\xA4\x00\x0C\x02\x3F\x00"), Says::LinkLost),
    ],
    // An answer in two blocks.
    &[
        sends!(
            b"\x00\xB0\x82\x00\x02",
            b"\x00\x00\x05\x00\xB0\x82\x00\x02\x35"
        ),
        goes_on!(b"\x00\x20\x02\x01\x02\x21", b"\x00\x90\x00\x90"),
        answers!(b"\x00\x40\x02\x90\x00\xD2", b"\x01\x02\x90\x00"),
    ],
];

/// Checks the reaction to an event.
fn check(rt: &impl Abort, reader: &mut ReaderEnd, row: Row) {
    let (event, says) = row;
    let mut block = BlockBytes::new();
    let next = tell(rt, reader, event, &mut block);
    assert!(rt; is_said(next, reader, &block, says), "when told {event:?}");
}

#[test]
fn reader_end_has_its_commands_answered(rt: HostRuntime) {
    for exchange in EXCHANGES {
        let mut reader = ReaderEnd::new();
        for row in *exchange {
            check(&rt, &mut reader, *row);
        }
    }
}

/// The longest command takes two blocks.
#[test]
fn longest_command_goes_in_a_chain(rt: HostRuntime) {
    let mut reader = ReaderEnd::new();
    let mut block = BlockBytes::new();
    let begins = match reader.send(&[0xAA; 261], &mut block) {
        Next::Send => block.as_slice().len() == 258
            && block.as_slice().starts_with(&[0x00, 0x20, 0xFE]),
        _ => false,
    };
    assert!(rt; begins);
    let rest = b"\x00\x40\x07\xAA\xAA\xAA\xAA\xAA\xAA\xAA\xED";
    check(&rt, &mut reader, goes_on!(b"\x00\x90\x00\x90", rest));
}
