//! Scripts with one command that is cut at each of its device writes, and the state after the next power-on.

use crate::scripts::outcome_of;
use std::alloc::Global;
use std::process::Abort;
use std::test::Fail;

/// A command that is cut at each of its device writes.
struct Torn {
    /// The lines before it, and the line of the command.
    prepare: &'static str,
    command: &'static str,
    /// The number of its device writes. The last one decides.
    writes: u32,
    /// The answer without a cut.
    answer: &'static str,
    /// True if each write is torn with each single word.
    /// Otherwise it is torn with few masks.
    has_all_masks: bool,
    /// True if cut power-ons come between the cut and the next power-on.
    has_torn_starts: bool,
    /// The next power-on, and the lines that show the state.
    look: &'static str,
    /// The outputs of `look`, by the cut write.
    /// They are those before the first write, before the last one, and at the end.
    found: [&'static str; 3],
}

// The new words of a torn write: none, all, or a single one; and whether the first is new.
const MASKS: &[(&str, bool)] = &[
    ("0000", false),
    ("FFFF", true),
    ("0001", true),
    ("0002", false),
    ("0004", false),
    ("0008", false),
    ("0010", false),
    ("0020", false),
    ("0040", false),
    ("0080", false),
    ("0100", false),
    ("0200", false),
    ("0400", false),
    ("0800", false),
    ("1000", false),
    ("2000", false),
    ("4000", false),
    ("8000", false),
];

const FEW_MASKS: &[(&str, bool)] = &[
    ("0000", false),
    ("FFFF", true),
    ("0001", true),
    ("0002", false),
    ("4000", false),
];

// No power-on, and power-ons with a cut at one of the first writes.
const STARTS: &[&str] = &[
    "",
    "cut 1 0000\non\n",
    "cut 1 0001\non\n",
    "cut 2 0000\non\n",
    "cut 2 0001\non\n",
    "cut 3 0000\non\n",
    "cut 3 0001\non\n",
    "cut 4 0000\non\n",
    "cut 4 0001\non\n",
];

// Three answers: the tries of PIN 1, those of its unblocking value, and the answer to VERIFY with another value.
const TRIES: &str =
    "on\ncut 999999 0000\napdu 00200001\napdu 002C0001\napdu 002000010835363738FFFFFFFF\n";

const FRESH: &str = "< 63C3\n< 63CA\n< 63C2\n";

const CHARGED: &str = "< 63C2\n< 63CA\n< 63C1\n";

const UNBLOCKING_CHARGED: &str = "< 63C3\n< 63C9\n< 63C2\n";

const CHANGED: &str = "< 63C3\n< 63CA\n< 9000\n";

// A command with a secret of PIN 1 of the factory card.
macro_rules! on_pin {
    ($command:expr, $writes:expr, $answer:expr, $charged:expr, $done:expr) => {
        Torn {
            prepare: "on\n",
            command: $command,
            writes: $writes,
            answer: $answer,
            has_all_masks: false,
            has_torn_starts: false,
            look: TRIES,
            found: [FRESH, $charged, $done],
        }
    };
}

const SPACES: &[Torn] = &[
    // DELETE FILE of the factory's file: the pairs of a word of its entry, of its chain and of the header; the gate;
    // each of these words, as none is next to another; and the commit.
    Torn {
        prepare: "on\n",
        command: "apdu 00E40000022FE2\n",
        writes: 6,
        answer: "< 9000",
        has_all_masks: true,
        has_torn_starts: false,
        look: "on\nfree\n",
        found: ["free 895 62\n", "free 895 62\n", "free 896 63\n"],
    },
    // DELETE FILE of a dedicated file with two files and a dedicated file in it: words of four entries, of two chains,
    // and of the header.
    Torn {
        prepare: "on\napdu 00E000001362118202782183027F108A01058C0407000000\n\
            apdu 00E000001962178202412183026F018801088002000A8A01058C03030000\n\
            apdu 00E000001862168202412183026F0588008002003D8A01058C03030000\n\
            apdu 00E000001362118202782183025F018A01058C0407000000\n\
            apdu 00A4000C023F00\n",
        command: "apdu 00E40000027F10\n",
        writes: 10,
        answer: "< 9000",
        has_all_masks: true,
        has_torn_starts: false,
        look: "on\nfree\n",
        found: ["free 892 58\n", "free 892 58\n", "free 895 62\n"],
    },
    // CREATE FILE of a file of two blocks. They are filled; then the pairs of eight words, the gate, the header's word,
    // six of the entry, and a link; then the pairs of five, the gate, and the other five of the entry; and the commit.
    Torn {
        prepare: "on\n",
        command: "apdu 00E000001862168202412183026F0588008002003D8A01058C03030000\n",
        writes: 11,
        answer: "< 9000",
        has_all_masks: false,
        has_torn_starts: false,
        look: "on\nfree\n",
        found: ["free 895 62\n", "free 895 62\n", "free 893 61\n"],
    },
];

const UPDATES: &[Torn] = &[
    // UPDATE BINARY of eight bytes from byte 1 on, which are in three words: their pairs, the gate, the words, and the
    // commit.
    Torn {
        prepare: "on\napdu 00E000001962178202412183026F018801088002000A8A01058C03030000\n",
        command: "apdu 00D68101080102030405060708\n",
        writes: 4,
        answer: "< 9000",
        has_all_masks: false,
        has_torn_starts: true,
        look: "on\napdu 00B081000A\n",
        found: [
            "< FFFFFFFFFFFFFFFFFFFF9000\n",
            "< FFFFFFFFFFFFFFFFFFFF9000\n",
            "< FF0102030405060708FF9000\n",
        ],
    },
    // UPDATE RECORD of a cyclic file, whose slot 1 touches two words. One word of the entry is set too, and written
    // first.
    Torn {
        prepare: "on\napdu 00E000001A621882044621000383026F038800800200098A01058C03030000\n\
            apdu 00DC000303010203\n",
        command: "apdu 00DC000303040506\n",
        writes: 5,
        answer: "< 9000",
        has_all_masks: false,
        has_torn_starts: false,
        look: "on\napdu 00A4000C026F03\napdu 00B2010403\napdu 00B2020403\napdu 00B2030403\n",
        found: [
            "< 9000\n< 0102039000\n< FFFFFF9000\n< FFFFFF9000\n",
            "< 9000\n< 0102039000\n< FFFFFF9000\n< FFFFFF9000\n",
            "< 9000\n< 0405069000\n< 0102039000\n< FFFFFF9000\n",
        ],
    },
];

const COMPARISONS: &[Torn] = &[
    // VERIFY, wrong and right; CHANGE REFERENCE DATA, whose tries and value are two runs; and RESET RETRY COUNTER,
    // which sets one run. The first write uses up the try.
    on_pin!(
        "apdu 002000010835363738FFFFFFFF\n",
        1,
        "< 63C2",
        CHARGED,
        CHARGED
    ),
    on_pin!(
        "apdu 002000010831323334FFFFFFFF\n",
        2,
        "< 9000",
        CHARGED,
        FRESH
    ),
    on_pin!(
        "apdu 002400011031323334FFFFFFFF35363738FFFFFFFF\n",
        6,
        "< 9000",
        CHARGED,
        CHANGED
    ),
    on_pin!(
        "apdu 002C000110313233343536373835363738FFFFFFFF\n",
        5,
        "< 9000",
        UNBLOCKING_CHARGED,
        CHANGED
    ),
];

/// Returns the expected outputs of a cut command and of `look`.
fn wanted_of(torn: &Torn, write: u32, is_new: bool) -> (&'static str, &'static str) {
    let [before, charged, after] = torn.found;
    if write > torn.writes {
        (torn.answer, after)
    } else if write == torn.writes && is_new {
        ("dark", after)
    } else if write == 1 && !is_new {
        ("dark", before)
    } else {
        ("dark", charged)
    }
}

/// Returns the output of a script with a cut command.
/// A power-on may be cut after it.
fn printed_by(alloc: Global, torn: &Torn, cut: &str, start: &str) -> Result<Vec<u8>, Fail> {
    let Torn {
        prepare,
        command,
        look,
        ..
    } = torn;
    let script = format!(in alloc; "{prepare}{cut}{command}{start}{look}")?;
    match outcome_of(alloc, &mut script.as_bytes()) {
        (printed, 0) => Ok(printed),
        _ => Err(Fail::from("the script isn't played")),
    }
}

/// Returns true if the output ends with these three parts.
/// They are the output of the command unless a cut power-on follows, that of power-on, and that of `look`.
fn ends_by(printed: &[u8], start: &str, (says, found): (&str, &str)) -> bool {
    let Some(rest) = printed.strip_suffix(found.as_bytes()) else {
        return false;
    };
    match rest.strip_suffix("\natr 3B808131FE458B\n".as_bytes()) {
        Some(rest) => !start.is_empty() || rest.ends_with(says.as_bytes()),
        None => false,
    }
}

/// Checks that any power-on after a cut leads to the same state.
fn check_starts<R: Abort + AllocGlobal>(
    rt: &R,
    torn: &Torn,
    cut: &str,
    wanted: (&str, &str),
) -> Result<(), Fail> {
    let starts = if torn.has_torn_starts { STARTS } else { &[""] };
    for start in starts {
        let printed = printed_by(rt.alloc(), torn, cut, start)?;
        assert!(rt;
            ends_by(&printed, start, wanted),
            "{} at {cut}",
            torn.command
        );
    }
    Ok(())
}

/// Checks a command with a cut at a write, with each mask.
fn check_masks<R: Abort + AllocGlobal>(rt: &R, torn: &Torn, write: u32) -> Result<(), Fail> {
    let masks = if torn.has_all_masks { MASKS } else { FEW_MASKS };
    for &(mask, is_new) in masks {
        let cut = format!(in rt.alloc(); "cut {write} {mask}\n")?;
        check_starts(rt, torn, &cut, wanted_of(torn, write, is_new))?;
    }
    Ok(())
}

/// Checks a command with a cut at each write, and past them.
fn check_writes<R: Abort + AllocGlobal>(rt: &R, torn: &Torn) -> Result<(), Fail> {
    for write in 1..=torn.writes.saturating_add(1) {
        check_masks(rt, torn, write)?;
    }
    Ok(())
}

/// The free space is that before the command, or that after it.
#[test]
fn files_come_and_go_whole(rt: HostRuntime) -> Result<(), Fail> {
    for torn in SPACES {
        check_writes(&rt, torn)?;
    }
    Ok(())
}

#[test]
fn contents_are_those_before_or_after(rt: HostRuntime) -> Result<(), Fail> {
    for torn in UPDATES {
        check_writes(&rt, torn)?;
    }
    Ok(())
}

/// The PIN is as before, as charged, or as after the command.
#[test]
fn a_try_is_taken_at_each_cut(rt: HostRuntime) -> Result<(), Fail> {
    for torn in COMPARISONS {
        check_writes(&rt, torn)?;
    }
    Ok(())
}
