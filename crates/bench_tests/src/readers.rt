//! Lines at the length limit, readers that never end or fail once, and writers that take little or fail once.

use crate::scripts::{ends_so, outcome_of, status_of};
use card_bench::run;
use card_turns::Bench;
use simulated_boards::CutBoard;
use std::alloc::Global;
use std::io::{self, BufRead, Error, ErrorKind, Read, Write};
use std::process::Abort;
use std::test::Fail;

/// A script of parts: one first, one repeated, and a tail.
/// The second is repeated up to a size, and the tail without end.
/// It fails where the part is empty.
#[derive(Drop)]
struct Parts<'a> {
    rest: &'a [u8],
    line: &'a [u8],
    tail: &'a [u8],
    given: usize,
    whole: usize,
}

/// The run reads only its buffer.
impl Read for Parts<'_> {
    fn read(&mut self, _: &mut [u8]) -> io::Result<usize> {
        Err(Error::from(ErrorKind::Unsupported))
    }
}

impl BufRead for Parts<'_> {
    fn fill_buf(&mut self) -> io::Result<&[u8]> {
        if self.rest.is_empty() {
            return Err(Error::from(ErrorKind::Other));
        }
        Ok(self.rest)
    }

    fn consume(&mut self, amount: usize) {
        self.given = self.given.saturating_add(amount);
        let next = if self.given < self.whole {
            self.line
        } else {
            self.tail
        };
        self.rest = match self.rest.get(amount..) {
            None | Some([]) => next,
            Some(rest) => rest,
        };
    }
}

/// Returns true if a script with a failure ends so.
/// The failure is at its end, and `printed` is its output.
fn fails_so(alloc: Global, script: &[u8], printed: &str, wanted: u8) -> bool {
    let mut reader = Parts {
        rest: script,
        line: &[],
        tail: &[],
        given: 0,
        whole: 0,
    };
    ends_so(alloc, &mut reader, printed, wanted) && reader.rest.is_empty()
}

/// Returns a comment of this many bytes, with this end.
fn comment(alloc: Global, size: usize, end: &str) -> Result<Vec<u8>, Fail> {
    let mut script = vec![in alloc; b'#'; size]?;
    script.extend_from_slice(end.as_bytes())?;
    Ok(script)
}

// Sizes of comments, their ends, and the status of a run if the script ends there, and if its reader fails there.
const COMMENTS: &[(usize, &str, u8, u8)] = &[
    (1024, "\n", 0, 3),
    (1024, "\r\n", 0, 3),
    (1024, "", 0, 3),
    (1024, "\r#", 2, 2),
    (1025, "\n", 2, 2),
    (1025, "", 2, 2),
    (1024, "\r", 2, 3),
];

/// A line has at most 1,024 bytes without its end.
/// A line that is too long is bad before its end is read: the reader isn't asked for more. A line whose 1,025th byte is
/// a carriage return can still be valid.
#[test]
fn long_lines(rt: HostRuntime) -> Result<(), Fail> {
    for &(size, end, ended, failed) in COMMENTS {
        let script = comment(rt.alloc(), size, end)?;
        assert!(rt;
            ends_so(rt.alloc(), &mut script.as_slice(), "", ended)
                && fails_so(rt.alloc(), &script, "", failed),
            "at {size}"
        );
    }
    Ok(())
}

/// Output before the reader fails stays.
#[test]
fn failing_reader(rt: HostRuntime) {
    let begun = "on\napdu 00A4000C02".as_bytes();
    let is_bad = ends_so(rt.alloc(), &mut [b'#'; 5000].as_slice(), "", 2);
    assert!(rt; is_bad && fails_so(rt.alloc(), begun, "atr 3B808131FE458B\n", 3));
}

// A script, and the output of each of its lines.
const LINES: &[(&str, &str)] = &[
    ("on\n", "atr 3B808131FE458B\n"),
    ("# Select the master file.\n", ""),
    ("apdu 00A4000C023F00\r\n", "< 9000\n"),
    ("free\n", "free 895 62\n"),
    ("off", ""),
];

/// Returns the script, and the output for its first `read` bytes.
/// This is the output of the whole lines in them.
fn script_and_text(alloc: Global, read: usize) -> Result<(String, String), Fail> {
    let mut script = String::new(alloc);
    let mut text = String::new(alloc);
    for &(line, printed) in LINES {
        script.push_str(line)?;
        if line.ends_with('\n') && script.len() <= read {
            text.push_str(printed)?;
        }
    }
    Ok((script, text))
}

/// A script in pieces. One of its reads fails, and later ones wouldn't.
#[derive(Drop)]
struct Broken<'a> {
    rest: &'a [u8],
    piece: usize,
    given: usize,
    reads: usize,
    fails_at: usize,
}

/// The run reads only its buffer.
impl Read for Broken<'_> {
    fn read(&mut self, _: &mut [u8]) -> io::Result<usize> {
        Err(Error::from(ErrorKind::Unsupported))
    }
}

impl BufRead for Broken<'_> {
    fn fill_buf(&mut self) -> io::Result<&[u8]> {
        self.reads = self.reads.saturating_add(1);
        if self.reads == self.fails_at {
            return Err(Error::from(ErrorKind::Interrupted));
        }
        Ok(self.rest.get(..self.piece).unwrap_or(self.rest))
    }

    fn consume(&mut self, amount: usize) {
        self.given = self.given.saturating_add(amount);
        self.rest = self.rest.get(amount..).unwrap_or(&[]);
    }
}

/// Returns the status of a run with a failing read.
/// It is `None` unless the output is that of the lines before it, and no read follows.
fn broken_at(alloc: Global, piece: usize, fails_at: usize) -> Result<Option<u8>, Fail> {
    let (script, _) = script_and_text(alloc, 0)?;
    let mut reader = Broken {
        rest: script.as_bytes(),
        piece,
        given: 0,
        reads: 0,
        fails_at,
    };
    let (printed, status) = outcome_of(alloc, &mut reader);
    let (_, text) = script_and_text(alloc, reader.given)?;
    let is_right = printed.as_slice() == text.as_bytes() && reader.reads <= fails_at;
    Ok(if is_right { Some(status) } else { None })
}

/// Returns the number of the first read whose failure stops no run.
/// All earlier ones failed in turn, and this one is past the end of the script.
fn reads_of(alloc: Global, piece: usize) -> Result<Option<usize>, Fail> {
    for fails_at in 1..=200 {
        match broken_at(alloc, piece, fails_at)? {
            Some(0) => return Ok(Some(fails_at)),
            Some(3) => {}
            _ => return Ok(None),
        }
    }
    Ok(None)
}

/// Any failing read ends a run.
/// A later read would succeed.
#[test]
fn each_read_fails_in_turn(rt: HostRuntime) -> Result<(), Fail> {
    let (script, _) = script_and_text(rt.alloc(), 0)?;
    // Each read gives a byte, and one more finds the end.
    assert!(rt; reads_of(rt.alloc(), 1)? == Some(script.len() + 2));
    for piece in 2..=30 {
        let reads = reads_of(rt.alloc(), piece)?;
        assert!(rt;
            reads.is_some_and(|reads| reads > LINES.len()),
            "by {piece}"
        );
    }
    Ok(())
}

// The number of bytes before the tail, and the status of the run.
const ENDLESS: &[(usize, u8)] = &[(usize::MAX, 3), (16_776_000, 2)];

/// Returns true if an endless script is read so far.
/// Its run has this status.
fn is_endless(alloc: Global, [line, tail]: [&[u8]; 2], whole: usize, wanted: u8) -> bool {
    let mut reader = Parts {
        rest: line,
        line,
        tail,
        given: 0,
        whole,
    };
    ends_so(alloc, &mut reader, "", wanted) && reader.given == 16_777_216
}

/// A script past 16,777,216 bytes is a read fault.
/// Its lines must be valid.
/// A line that is too long by then is a bad line.
#[test]
fn endless_scripts(rt: HostRuntime) {
    let mut line = [b'#'; 1000];
    line[999] = b'\n';
    let mut tail = [b'#'; 2191];
    tail[190] = b'\n';
    for &(whole, wanted) in ENDLESS {
        assert!(rt;
            is_endless(rt.alloc(), [&line, &tail], whole, wanted),
            "after {whole}"
        );
    }
}

/// The failing call of a writer.
#[derive(Clone, Copy)]
enum Failing {
    Nothing,
    /// A write takes nothing.
    Takes,
    Writes,
    Flushes,
}

/// A writer that takes some bytes at a time, and fails once.
/// It fails at one call, or takes nothing there.
/// Later ones wouldn't fail.
#[derive(Drop)]
struct Narrow {
    printed: Vec<u8>,
    /// The number of bytes at its last flush.
    flushed: usize,
    piece: usize,
    writes: usize,
    flushes: usize,
    failing: Failing,
    fails_at: usize,
}

impl Write for Narrow {
    fn write(&mut self, buf: &[u8]) -> io::Result<usize> {
        self.writes = self.writes.saturating_add(1);
        match self.failing {
            Failing::Takes if self.writes == self.fails_at => return Ok(0),
            Failing::Writes if self.writes == self.fails_at => {
                return Err(Error::from(ErrorKind::Interrupted));
            }
            _ => {}
        }
        let taken = buf.get(..self.piece).unwrap_or(buf);
        self.printed.extend_from_slice(taken)?;
        Ok(taken.len())
    }

    fn flush(&mut self) -> io::Result<()> {
        self.flushes = self.flushes.saturating_add(1);
        match self.failing {
            Failing::Flushes if self.flushes == self.fails_at => {
                Err(Error::from(ErrorKind::Interrupted))
            }
            _ => {
                self.flushed = self.printed.len();
                Ok(())
            }
        }
    }
}

/// Returns a writer after the run of the script, and the status.
fn written_to(
    alloc: Global,
    piece: usize,
    (failing, fails_at): (Failing, usize),
) -> Result<(Narrow, u8), Fail> {
    let (script, _) = script_and_text(alloc, 0)?;
    let mut writer = Narrow {
        printed: Vec::new(alloc),
        flushed: 0,
        piece,
        writes: 0,
        flushes: 0,
        failing,
        fails_at,
    };
    let status = status_of(run::<Bench<CutBoard>, _, _>(
        alloc,
        &mut script.as_bytes(),
        &mut writer,
    ));
    Ok((writer, status))
}

/// A writer that takes few bytes at a time gets the text.
/// All of it is flushed.
#[test]
fn narrow_writers(rt: HostRuntime) -> Result<(), Fail> {
    let (_, text) = script_and_text(rt.alloc(), usize::MAX)?;
    for piece in [1, 2, 7, 100] {
        let (writer, status) = written_to(rt.alloc(), piece, (Failing::Nothing, 0))?;
        assert!(rt;
            status == 0 && writer.printed.as_slice() == text.as_bytes(),
            "by {piece}"
        );
        assert!(rt; writer.flushed == text.len(), "by {piece}");
    }
    Ok(())
}

/// Checks that any failing write ends a run.
/// Earlier bytes stay, and no more follow.
fn check_writes<R: Abort + AllocGlobal>(rt: &R, failing: Failing) -> Result<(), Fail> {
    let (_, text) = script_and_text(rt.alloc(), usize::MAX)?;
    for fails_at in 1..=text.len() {
        let (writer, status) = written_to(rt.alloc(), 1, (failing, fails_at))?;
        let begun = text.as_bytes().get(..fails_at - 1);
        assert!(rt;
            status == 4 && Some(writer.printed.as_slice()) == begun,
            "at {fails_at}"
        );
        assert!(rt; writer.writes == fails_at, "at {fails_at}");
    }
    let (_, status) = written_to(rt.alloc(), 1, (failing, text.len() + 1))?;
    assert!(rt; status == 0);
    Ok(())
}

#[test]
fn each_write_fails_in_turn(rt: HostRuntime) -> Result<(), Fail> {
    check_writes(&rt, Failing::Takes)?;
    check_writes(&rt, Failing::Writes)
}

// The number of bytes when each line with output is flushed.
const FLUSHED: &[usize] = &[19, 26, 38];

/// Any failing flush ends a run.
/// The line of the flush stays, and no more output follows.
#[test]
fn each_flush_fails_in_turn(rt: HostRuntime) -> Result<(), Fail> {
    for (i, size) in FLUSHED.iter().enumerate() {
        let (writer, status) = written_to(rt.alloc(), 100, (Failing::Flushes, i + 1))?;
        assert!(rt; status == 4 && writer.printed.len() == *size, "at {size}");
        assert!(rt;
            writer.writes == i + 1 && writer.flushes == i + 1,
            "at {size}"
        );
    }
    let (_, status) = written_to(rt.alloc(), 100, (Failing::Flushes, FLUSHED.len() + 1))?;
    assert!(rt; status == 0);
    Ok(())
}
