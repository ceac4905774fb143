//! Blocks of every length and kind to both ends of T=1 (ISO/IEC 7816-3, third edition, clause 11). The expected
//! reactions are those of the tables, written here again as plain code.

use std::process::Abort;
use t1_link::{Action, AnswerBytes, BlockBytes, CardEnd, Failure, Next, ReaderEnd};

/// What bytes mean as a block. The first of several faults counts.
#[derive(Clone, Copy)]
enum Heard {
    WrongLength,
    WrongCheck,
    /// Another node address, an unknown control byte, or a wrong field.
    Unknown,
    Information { number: u8, more: bool },
    ReceiveReady { number: u8 },
    ResynchRequest,
    ResynchResponse,
    IfsRequest { size: u8 },
    IfsResponse,
}

/// Returns the exclusive-or of all bytes.
fn exclusive_or(bytes: &[u8]) -> u8 {
    let mut check = 0;
    for byte in bytes {
        check ^= *byte;
    }
    check
}

/// Returns what these bytes mean.
fn block_heard(block: &[u8]) -> Heard {
    let [node, control, size, rest @ ..] = block else {
        return Heard::WrongLength;
    };
    if *size == 0xFF || rest.len() != usize::from(*size) + 1 {
        Heard::WrongLength
    } else if exclusive_or(block) != 0 {
        Heard::WrongCheck
    } else if *node != 0x00 {
        Heard::Unknown
    } else {
        kind_of(*control, *size, rest)
    }
}

/// Returns the kind of a block from control byte and field.
fn kind_of(control: u8, size: u8, rest: &[u8]) -> Heard {
    match (control, size, rest) {
        (0x00 | 0x20 | 0x40 | 0x60, _, _) => Heard::Information {
            number: (control & 0x40) / 0x40,
            more: control & 0x20 != 0,
        },
        (0x80 | 0x81 | 0x82, 0, _) => Heard::ReceiveReady { number: 0 },
        (0x90 | 0x91 | 0x92, 0, _) => Heard::ReceiveReady { number: 1 },
        (0xC0, 0, _) => Heard::ResynchRequest,
        (0xE0, 0, _) => Heard::ResynchResponse,
        (0xC1, 1, [size @ 0x01..=0xFE, ..]) => Heard::IfsRequest { size: *size },
        (0xE1, 1, [0x01..=0xFE, ..]) => Heard::IfsResponse,
        _ => Heard::Unknown,
    }
}

/// An I-block that an end has sent.
#[derive(Clone, Copy)]
struct Sent {
    number: u8,
    more: bool,
    field: &'static [u8],
}

/// A block to send: its control byte, and its information field.
#[derive(Clone, Copy)]
struct Wanted {
    control: u8,
    field: &'static [u8],
}

impl Sent {
    /// Returns the block again.
    fn block(self) -> Wanted {
        Wanted {
            control: if self.number == 0 { 0x00 } else { 0x40 }
                | if self.more { 0x20 } else { 0x00 },
            field: self.field,
        }
    }
}

/// Returns the other number: I-blocks have the numbers 0 and 1 alternately.
fn other(number: u8) -> u8 {
    if number == 0 { 1 } else { 0 }
}

// The error in an R-block: none, a wrong exclusive-or, any other.
const NO_ERROR: u8 = 0;

const REDUNDANCY: u8 = 1;

const OTHER_ERROR: u8 = 2;

/// Returns an R-block that expects this number.
fn receive_ready(number: u8, error: u8) -> Wanted {
    Wanted {
        control: if number == 0 { 0x80 } else { 0x90 } | error,
        field: &[],
    }
}

const ANSWER: &[u8] = b"ABCDEFGHIJKLMNOPQRSTUVWXYZabcdefghijklmnopqrstuvwxyz0123456789.,:;!?-_";

/// The state of the card's end.
#[derive(Clone, Copy)]
struct CardTable {
    /// The numbers of the next I-block and of the expected one.
    next: u8,
    expected: u8,
    /// The information field size that the reader takes.
    size: u8,
    last: Option<Sent>,
    /// The rest of the answer to send.
    rest: &'static [u8],
    /// The number of stored bytes of a command.
    kept: usize,
}

/// The reaction of the card's end to a block.
#[derive(Clone, Copy)]
enum CardDoes {
    Sends(Wanted),
    TellsSize(u8),
    Runs,
}

const CARD_FRESH: CardTable = CardTable {
    next: 0,
    expected: 0,
    size: 32,
    last: None,
    rest: &[],
    kept: 0,
};

impl CardTable {
    /// Takes a block with `field` bytes of information.
    fn takes(&mut self, heard: Heard, field: usize) -> CardDoes {
        match heard {
            Heard::WrongLength | Heard::Unknown => self.asks(OTHER_ERROR),
            Heard::ResynchResponse | Heard::IfsResponse => self.asks(OTHER_ERROR),
            Heard::WrongCheck => self.asks(REDUNDANCY),
            Heard::ResynchRequest => {
                *self = CARD_FRESH;
                CardDoes::Sends(Wanted {
                    control: 0xE0,
                    field: &[],
                })
            }
            Heard::IfsRequest { size } => {
                self.size = size;
                CardDoes::TellsSize(size)
            }
            Heard::ReceiveReady { number } => self.takes_receive_ready(number),
            Heard::Information { number, more } => self.takes_information(number, more, field),
        }
    }

    /// Replies with an R-block that has the expected number.
    fn asks(&self, error: u8) -> CardDoes {
        CardDoes::Sends(receive_ready(self.expected, error))
    }

    /// Takes an R-block: repeats, continues or acknowledges.
    fn takes_receive_ready(&mut self, number: u8) -> CardDoes {
        match self.last {
            Some(last) if last.number == number => CardDoes::Sends(last.block()),
            Some(last) if last.more => CardDoes::Sends(self.sends_next()),
            _ => self.asks(NO_ERROR),
        }
    }

    /// Takes an I-block: a part of a command, or its end.
    /// It is refused while an answer is under way, or if it has another number.
    fn takes_information(&mut self, number: u8, more: bool, field: usize) -> CardDoes {
        if self.last.is_some_and(|last| last.more) || number != self.expected {
            return self.asks(OTHER_ERROR);
        }
        self.kept = self.kept.saturating_add(field);
        self.expected = other(self.expected);
        if more {
            self.asks(NO_ERROR)
        } else {
            CardDoes::Runs
        }
    }

    /// Sends the first I-block of the answer.
    fn answers(&mut self) -> Wanted {
        self.kept = 0;
        self.rest = ANSWER;
        self.sends_next()
    }

    /// Sends the next I-block of the answer, of the reader's size.
    fn sends_next(&mut self) -> Wanted {
        let (field, rest) = self
            .rest
            .split_at(self.rest.len().min(usize::from(self.size)));
        let sent = Sent {
            number: self.next,
            more: !rest.is_empty(),
            field,
        };
        self.rest = rest;
        self.next = other(self.next);
        self.last = Some(sent);
        sent.block()
    }
}

/// Returns true if bytes are this block.
fn is_block(bytes: &[u8], wanted: Wanted) -> bool {
    match bytes {
        [0x00, control, size, rest @ ..] => {
            *control == wanted.control
                && usize::from(*size) == wanted.field.len()
                && rest.len() == wanted.field.len() + 1
                && rest.starts_with(wanted.field)
                && exclusive_or(bytes) == 0
        }
        _ => false,
    }
}

/// A card's end, and its state by the table.
#[derive(Drop)]
struct Card {
    end: CardEnd,
    table: CardTable,
    out: BlockBytes,
}

impl Card {
    /// Returns the end after power-on.
    fn new() -> Card {
        Card {
            end: CardEnd::new(),
            table: CARD_FRESH,
            out: BlockBytes::new(),
        }
    }

    /// Returns true if the end reacts as the table says.
    fn is_right(&mut self, block: &[u8]) -> bool {
        if self.end.waiting() {
            return false;
        }
        let field = field_of(block);
        let wanted = self.table.takes(block_heard(block), field.len());
        let action = self.end.take(block, &mut self.out);
        match (action, wanted) {
            (Action::Reply, CardDoes::Sends(wanted)) => is_block(self.out.as_slice(), wanted),
            (Action::Reply, CardDoes::TellsSize(size)) => {
                self.out.as_slice() == [0x00, 0xE1, 0x01, size, 0xE0 ^ size].as_slice()
            }
            (Action::Run, CardDoes::Runs) => self.is_run(field) && self.is_answered(),
            _ => false,
        }
    }

    /// Whether a command is to be run that ends with these bytes, behind those of the one block before, if there was
    /// one. Of its bytes 262 are kept.
    fn is_run(&self, field: &[u8]) -> bool {
        if !self.end.waiting() {
            return false;
        }
        let command = self.end.command();
        command.len() == self.table.kept.min(262)
            && (self.table.kept == field.len() || command.starts_with(LONGEST_FIELD))
            && (self.table.kept > 262 || command.ends_with(field))
    }

    /// Returns true if the first block of the answer is right.
    fn is_answered(&mut self) -> bool {
        let mut answer = AnswerBytes::new();
        if !self.end.waiting() || answer.try_extend_from_slice(ANSWER).is_err() {
            return false;
        }
        self.end.answer(&answer, &mut self.out);
        is_block(self.out.as_slice(), self.table.answers())
    }
}

// Their bytes differ from one place to the next, so that their order shows.
const COMMAND: &[u8] = b"\
    ABCDEFGHIJKLMNOPQRSTUVWXYZabcdefghijklmnopqrstuvwxyz0123456789BCDEFGHIJKLMNOPQRSTUVWXYZ\
    abcdefghijklmnopqrstuvwxyz0123456789ACDEFGHIJKLMNOPQRSTUVWXYZabcdefghijklmnopqrstuvwxyz\
    0123456789ABDEFGHIJKLMNOPQRSTUVWXYZabcdefghijklmnopqrstuvwxyz0123456789ABCEFGHIJKLMNOPQ";

/// The state of the reader's end with a command in progress.
#[derive(Clone, Copy)]
struct ReaderTable {
    /// The numbers of the next I-block and of the expected one.
    next: u8,
    expected: u8,
    tries: u8,
    /// The number of RESYNCH requests.
    requests: u8,
    last: Sent,
    /// The rest of the command to send.
    rest: &'static [u8],
    /// The number of received bytes of the answer.
    came: usize,
}

/// The reaction of the reader's end to a block.
#[derive(Clone, Copy)]
enum ReaderSays {
    Sends(Wanted),
    /// The command was answered with this number of bytes.
    Done(usize),
    Unknown,
    Failed(Failure),
}

impl ReaderTable {
    /// Returns the state after power-on and this command.
    fn new(command: &'static [u8]) -> ReaderTable {
        let mut table = ReaderTable {
            next: 0,
            expected: 0,
            tries: 0,
            requests: 0,
            last: Sent {
                number: 0,
                more: false,
                field: &[],
            },
            rest: command,
            came: 0,
        };
        table.sends_next();
        table
    }

    /// Sends the next I-block of the command, of 254 bytes.
    fn sends_next(&mut self) -> ReaderSays {
        let (field, rest) = self.rest.split_at(self.rest.len().min(254));
        self.last = Sent {
            number: self.next,
            more: !rest.is_empty(),
            field,
        };
        self.rest = rest;
        self.next = other(self.next);
        self.tries = 0;
        ReaderSays::Sends(self.last.block())
    }

    /// Takes a block with `field` bytes of information.
    fn gets(&mut self, heard: Heard, field: usize) -> ReaderSays {
        if self.requests > 0 {
            return self.gets_after_request(heard);
        }
        match heard {
            Heard::WrongCheck => self.asks(REDUNDANCY),
            Heard::ReceiveReady { number } => self.gets_receive_ready(number),
            Heard::Information { number, more } => self.gets_information(number, more, field),
            _ => self.asks(OTHER_ERROR),
        }
    }

    /// Takes a block after a RESYNCH request.
    /// The request is repeated up to three times.
    fn gets_after_request(&mut self, heard: Heard) -> ReaderSays {
        match heard {
            Heard::ResynchResponse => ReaderSays::Unknown,
            _ if self.requests >= 3 => ReaderSays::Failed(Failure::LinkLost),
            _ => self.requests_resynch(),
        }
    }

    /// Requests RESYNCH.
    fn requests_resynch(&mut self) -> ReaderSays {
        self.requests = self.requests.saturating_add(1);
        ReaderSays::Sends(Wanted {
            control: 0xC0,
            field: &[],
        })
    }

    /// Sends a block as one of three tries.
    fn tries(&mut self, wanted: Wanted) -> ReaderSays {
        if self.tries >= 3 {
            return self.requests_resynch();
        }
        self.tries += 1;
        ReaderSays::Sends(wanted)
    }

    /// Sends an R-block with the expected number, as a try.
    fn asks(&mut self, error: u8) -> ReaderSays {
        self.tries(receive_ready(self.expected, error))
    }

    /// Takes an R-block: repeats, continues or asks for the answer.
    fn gets_receive_ready(&mut self, number: u8) -> ReaderSays {
        if number == self.last.number {
            self.tries(self.last.block())
        } else if self.last.more {
            self.sends_next()
        } else {
            self.asks(OTHER_ERROR)
        }
    }

    /// Takes an I-block: a part of the answer, or its end.
    /// It is refused before the whole command is sent, or if it has another number.
    fn gets_information(&mut self, number: u8, more: bool, field: usize) -> ReaderSays {
        if self.last.more || number != self.expected {
            return self.asks(OTHER_ERROR);
        }
        self.came = self.came.saturating_add(field);
        self.expected = other(self.expected);
        if self.came > 258 || !more && self.came < 2 {
            return ReaderSays::Failed(Failure::BadAnswer);
        }
        if !more {
            return ReaderSays::Done(self.came);
        }
        self.tries = 0;
        ReaderSays::Sends(receive_ready(self.expected, NO_ERROR))
    }
}

/// Returns the information field of a block, if it is one.
fn field_of(block: &[u8]) -> &[u8] {
    block.get(3..block.len().saturating_sub(1)).unwrap_or(&[])
}

/// A reader's end, and its state by the table.
#[derive(Drop)]
struct Reader {
    end: ReaderEnd,
    block: BlockBytes,
    table: ReaderTable,
}

impl Reader {
    /// Returns the end after power-on and this command.
    /// The command has 1 to 261 bytes.
    fn new(command: &'static [u8]) -> Option<Reader> {
        if command.is_empty() || command.len() > 261 {
            return None;
        }
        let mut end = ReaderEnd::new();
        let mut block = BlockBytes::new();
        let _ = end.send(command, &mut block);
        Some(Reader {
            end,
            block,
            table: ReaderTable::new(command),
        })
    }

    /// Returns true if the end reacts as the table says.
    fn is_right(&mut self, block: &[u8]) -> bool {
        if !self.end.busy() {
            return false;
        }
        let field = field_of(block);
        let wanted = self.table.gets(block_heard(block), field.len());
        match (self.end.got(block, &mut self.block), wanted) {
            (Next::Send, ReaderSays::Sends(wanted)) => is_block(self.block.as_slice(), wanted),
            (Next::Done, ReaderSays::Done(size)) => {
                let answer = self.end.answer();
                answer.len() == size
                    && answer.ends_with(field)
                    && (size == field.len() || answer.starts_with(LONGEST_FIELD))
            }
            (Next::Unknown, ReaderSays::Unknown) => true,
            (Next::Failed(Failure::LinkLost), ReaderSays::Failed(Failure::LinkLost)) => true,
            (Next::Failed(Failure::BadAnswer), ReaderSays::Failed(Failure::BadAnswer)) => true,
            _ => false,
        }
    }
}

// READ BINARY of a byte of 2FE2 in an I-block, and R-blocks that expect numbers 0 and 1.
const READ: &[u8] = b"\x00\x00\x05\x00\xB0\x82\x00\x01\x36";

const READ_AGAIN: &[u8] = b"\x00\x40\x05\x00\xB0\x82\x00\x01\x76";

const READY_0: &[u8] = b"\x00\x80\x00\x80";

const READY_1: &[u8] = b"\x00\x90\x00\x90";

// Too few bytes for a block.
const NO_BLOCK: &[u8] = b"";

// The reader takes 254 bytes per information field.
const LARGEST_SIZE: &[u8] = b"\x00\xC1\x01\xFE\x3E";

// An I-block of 254 bytes, with number 0, that more blocks follow, and what it carries.
const LONGEST_BEGIN: &[u8] = b"\x00\x20\xFE\
    ABCDEFGHIJKLMNOPQRSTUVWXYZabcdefghijklmnopqrstuvwxyz0123456789BCDEFGHIJKLMNOPQRSTUVW\
    XYZabcdefghijklmnopqrstuvwxyz0123456789ACDEFGHIJKLMNOPQRSTUVWXYZabcdefghijklmnopqrst\
    uvwxyz0123456789ABDEFGHIJKLMNOPQRSTUVWXYZabcdefghijklmnopqrstuvwxyz0123456789ABCEFGH\
    IJ\
    \xD1";

const LONGEST_FIELD: &[u8] = b"\
    ABCDEFGHIJKLMNOPQRSTUVWXYZabcdefghijklmnopqrstuvwxyz0123456789BCDEFGHIJKLMNOPQRSTUVW\
    XYZabcdefghijklmnopqrstuvwxyz0123456789ACDEFGHIJKLMNOPQRSTUVWXYZabcdefghijklmnopqrst\
    uvwxyz0123456789ABDEFGHIJKLMNOPQRSTUVWXYZabcdefghijklmnopqrstuvwxyz0123456789ABCEFGH\
    IJ";

// Blocks after power-on, for each of the states of the card's end.
const CARD_STATES: &[&[&[u8]]] = &[
    &[],
    // The first of three blocks of an answer was sent; all were; an answer of one block was sent.
    &[READ],
    &[READ, READY_1, READY_0],
    &[LARGEST_SIZE, READ],
    // A command has begun. Two commands were answered.
    &[LONGEST_BEGIN],
    &[LARGEST_SIZE, READ, READ_AGAIN],
];

// The length of a command, and blocks after it, for each of the states of the reader's end.
const READER_STATES: &[(usize, &[&[u8]])] = &[
    (5, &[]),
    // The first block of a long command was sent, and the second.
    (261, &[]),
    (261, &[READY_1]),
    // An answer has begun.
    (5, &[LONGEST_BEGIN]),
    (261, &[READY_1, LONGEST_BEGIN]),
    // After three tries; after one RESYNCH request; after three requests.
    (5, &[NO_BLOCK, NO_BLOCK, NO_BLOCK]),
    (5, &[NO_BLOCK, NO_BLOCK, NO_BLOCK, NO_BLOCK]),
    (
        5,
        &[NO_BLOCK, NO_BLOCK, NO_BLOCK, NO_BLOCK, NO_BLOCK, NO_BLOCK],
    ),
];

/// Returns the card's end after these blocks, if each reaction was right.
fn card_after(before: &[&[u8]]) -> Option<Card> {
    let mut card = Card::new();
    for block in before {
        if !card.is_right(block) {
            return None;
        }
    }
    Some(card)
}

/// Returns the reader's end after these blocks, if right throughout.
fn reader_after(size: usize, before: &[&[u8]]) -> Option<Reader> {
    let mut reader = Reader::new(COMMAND.get(..size)?)?;
    for block in before {
        if !reader.is_right(block) {
            return None;
        }
    }
    Some(reader)
}

/// Returns true if both ends react rightly after power-on.
/// The reader's end has a short command in progress.
fn is_right_at_first(block: &[u8]) -> bool {
    Card::new().is_right(block)
        && reader_after(5, &[]).is_some_and(|mut reader| reader.is_right(block))
}

/// Returns true if the card's end reacts rightly.
/// The R-blocks show its state.
fn is_right_card(before: &[&[u8]], block: &[u8]) -> bool {
    card_after(before).is_some_and(|mut card| {
        card.is_right(block) && card.is_right(READY_0) && card.is_right(READY_1)
    })
}

/// Returns true if the reader's end reacts rightly.
/// It may also have no command in progress.
fn is_right_reader(size: usize, before: &[&[u8]], block: &[u8]) -> bool {
    reader_after(size, before).is_some_and(|mut reader| {
        reader.is_right(block)
            && (!reader.end.busy() || reader.is_right(READY_0))
            && (!reader.end.busy() || reader.is_right(READY_1))
    })
}

/// Returns true if the card's end reacts rightly in each state.
fn is_right_to_card(block: &[u8]) -> bool {
    CARD_STATES
        .iter()
        .all(|before| is_right_card(before, block))
}

/// Returns true if the reader's end reacts rightly in each state.
fn is_right_to_reader(block: &[u8]) -> bool {
    READER_STATES
        .iter()
        .all(|(size, before)| is_right_reader(*size, before, block))
}

/// The ends that take a block, and in which states.
#[derive(Clone, Copy)]
enum Taken {
    ByBothAtFirst,
    ByCard,
    ByReader,
}

impl Taken {
    /// Returns true if they react as their tables say.
    fn is_right(self, block: &[u8]) -> bool {
        match self {
            Taken::ByBothAtFirst => is_right_at_first(block),
            Taken::ByCard => is_right_to_card(block),
            Taken::ByReader => is_right_to_reader(block),
        }
    }
}

/// Checks a block, and the same with another check byte.
fn check_block<R: Abort>(rt: &R, block: &mut [u8], taken: Taken) {
    let check = exclusive_or(block);
    for spoils in [check, 0x01] {
        if let Some(last) = block.last_mut() {
            *last ^= spoils;
        }
        assert!(rt; taken.is_right(block), "when {block:?} comes");
    }
}

/// Returns a block with this control byte and this length byte.
fn bytes_of(control: u8, size: u8) -> [u8; 300] {
    let mut bytes = [0x5A; 300];
    bytes[0] = 0x00;
    bytes[1] = control;
    bytes[2] = size;
    bytes
}

/// Checks blocks of this length, with each control byte.
/// `sizes` are their length bytes.
fn check_length<R: Abort>(rt: &R, length: usize, sizes: &[u8], taken: Taken) {
    for control in 0x00..=0xFF {
        for &size in sizes {
            let mut bytes = bytes_of(control, size);
            check_block(rt, &mut bytes[..length.min(300)], taken);
        }
    }
}

/// Each control byte occurs, with right and wrong lengths.
#[test]
fn blocks_of_all_lengths_are_taken(rt: HostRuntime) {
    for length in 0..=300 {
        check_length(&rt, length, &[0x00, 0x01, 0xFE, 0xFF], Taken::ByBothAtFirst);
    }
}

// Blocks with no byte, one, two and the most, and their length bytes.
const LENGTHS: &[(usize, u8)] = &[(4, 0x00), (5, 0x01), (6, 0x02), (258, 0xFE)];

#[test]
fn blocks_are_taken_in_each_state(rt: HostRuntime) {
    assert!(rt; LONGEST_BEGIN.len() == 258);
    for &(length, size) in LENGTHS {
        check_length(&rt, length, &[size], Taken::ByCard);
        check_length(&rt, length, &[size], Taken::ByReader);
    }
}

/// The valid sizes in an S-block are 01 to FE.
#[test]
fn sizes_of_all_values_are_taken(rt: HostRuntime) {
    for size in 0x00..=0xFF {
        for control in [0xC1, 0xE1] {
            let block = [0x00, control, 0x01, size, 0x01 ^ control ^ size];
            assert!(rt; is_right_at_first(&block), "when {block:?} comes");
        }
    }
}
