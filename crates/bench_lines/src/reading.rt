//! Reads the lines of a script from the reader's own buffer.
ghost use Rattle.std.specs.Prelude.{◌≡◌, ◌≢◌, ◌⊎◌, ◌↔◌, ◌+◌, ◌<◌, ◌≤◌};
ghost use Rattle.std.specs.Prelude.{length, slice_index, take, [], ◌++◌, IsTrue, IfOk, IfErr, OnErr, OnOk, Err};
ghost use Rattle.std.specs.Io.KnownBytes.{Keeps};
ghost use Rattle.std.specs.Str.Lines.{strip_carriage_return};
ghost use Rattle.bench_lines.specs.Scripts.{CountsTaken, IsInLine, IsTooLong, TakesInto, TakesLine, TakesPart};
ghost use Rattle.bench_lines.specs.Scripts.{TakesTooMuch, WhereKnown, part_size};
ghost use Rattle.bench_lines.specs.declared.order.TheConstants.{LINE_LIMIT};
ghost use Rattle.bench_lines.specs.declared.reading.TheConstants.{SCRIPT_LIMIT};

use crate::order::LINE_LIMIT;
use std::io::BufRead;
use std::marker::Model;

/// The most bytes of a script.
pub const SCRIPT_LIMIT: u32 = 16_777_216;

/// The space for a line, a carriage return, and another byte.
/// The last byte makes the line too long.
const LINE_ROOM: usize = LINE_LIMIT + 2;

/// The bytes of a line, without its line feed and carriage return, written by `read_line`.
// The array's bytes after `size` have no meaning. An `ArrayVec` would clear them, in 30 instructions a line.
#[derive(Drop)]
pub struct LineBytes {
    bytes: [u8; LINE_ROOM],
    size: usize,
}

impl Model for LineBytes {
    ghost use Rattle.std.specs.Prelude.{◌≤◌, ℕ, List, take};
    ghost use Rattle.bench_lines.specs.declared.reading.TheConstants.{LINE_ROOM};

    ghost Value = { List ℕ };

    ghost view = { λ line. take line.size line.bytes };

    ghost invariant = { λ line. line.size ≤ LINE_ROOM };
}

impl LineBytes {
    /// Returns an empty line.
    pub fn new() -> LineBytes
        ensures { result ≡ [] }
    {
        LineBytes {
            bytes: [0; LINE_ROOM],
            size: 0,
        }
    }

    /// Returns the bytes.
    pub fn as_slice(&self) -> &[u8]
        ensures { result.now ≡ self.now }
    {
        &self.bytes[..self.size]
    }

    /// Returns the number of bytes.
    fn len(&self) -> usize
        ensures { result ≡ length self.now }
    {
        self.size
    }

    /// Drops all bytes.
    fn clear(&mut self)
        ensures { self.new ≡ [] }
    {
        self.size = 0;
    }

    /// Appends bytes.
    fn append(&mut self, more: &[u8])
        requires { length self.old + length more.now ≤ LINE_ROOM }
        ensures { self.new ≡ self.old ++ more.now }
    {
        let size = self.size + more.len();
        self.bytes[self.size..size].copy_from_slice(more);
        self.size = size;
    }

    /// Drops a carriage return at the end.
    fn drop_carriage_return(&mut self)
        ensures { self.new ≡ strip_carriage_return self.old }
    {
        if self.as_slice().last() == Some(&b'\r') {
            self.size -= 1;
        }
    }
}

/// How a line ended.
#[derive(Clone, Copy)]
pub enum LineEnd {
    /// With a line feed.
    LineFeed,
    /// With the script.
    EndOfScript,
}

/// Why a line couldn't be read.
#[derive(Clone, Copy)]
pub enum LineFault {
    /// The reader failed.
    Read,
    /// The script is longer than the most bytes allowed.
    TooMuch,
    /// The line is too long, whether or not its end was read.
    TooLong,
}

/// The part of a line in the reader's buffer.
#[derive(Clone, Copy)]
enum LinePart {
    /// Nothing: the script is at its end.
    End,
    /// This number of bytes, without a line feed.
    Begun(usize),
    /// This number of bytes, with a line feed at the end only.
    LineFeed(usize),
}

/// Appends the line's part in the reader's buffer, without line feed.
/// It takes at most `most` bytes.
/// If `most` is 0, it fails unless the script is at its end.
fn read_part<R: BufRead>(
    reader: &mut R,
    most: usize,
    line: &mut LineBytes,
) -> Result<LinePart, LineFault>
    requires { length line.old + most ≤ LINE_ROOM }
    ensures part { IfOk result
        (TakesPart (R.remaining reader.old) (R.remaining reader.new) line.old line.new) }
    ensures size { IfOk result (λ part. part_size part ≤ most) }
    // It fails with the reader, or if it may read no more bytes and some remain; then it has read nothing.
    ensures failed { IfErr result (λ e. e ≢ LineFault.TooLong) }
    ensures past { result ≡ Err LineFault.TooMuch → (most ≡ 0)
        × WhereKnown (R.remaining reader.old) (R.remaining reader.new) (λ script left. left ≢ []) }
    ensures kept { OnErr result (Keeps (R.remaining reader.old) (R.remaining reader.new)) }
{
    let available = match reader.fill_buf() {
        Ok(available) => available,
        Err(_) => return Err(LineFault::Read),
    };
    if available.is_empty() {
        return Ok(LinePart::End);
    }
    if most == 0 {
        return Err(LineFault::TooMuch);
    }
    let seen = &available[..available.len().min(most)];
    let size = size_in_line(seen);
    let is_fed = size < seen.len();
    line.append(&seen[..size]);
    if is_fed {
        reader.consume(size + 1);
        return Ok(LinePart::LineFeed(size + 1));
    }
    reader.consume(size);
    Ok(LinePart::Begun(size))
}

/// Returns the number of bytes before the first line feed.
/// Without a line feed it is the number of all bytes.
fn size_in_line(bytes: &[u8]) -> usize
    ensures within { result ≤ length bytes.now }
    ensures before { IsInLine (take result bytes.now) }
    ensures at { result < length bytes.now → slice_index bytes.now result ≡ 10 }
{
    match memchr::memchr_iter(b'\n', bytes).next() {
        Some(size) => size,
        None => bytes.len(),
    }
}

/// Reads the next line into the buffer, and counts its bytes.
/// A script has at most 16,777,216 bytes. The last line may lack its line feed. After it, and in an empty script, an
/// empty line is read.
///
/// # Errors
///
/// `Read` if the reader fails; `TooMuch` if the script is longer than allowed; `TooLong` if more than 1,024 bytes
/// were read without the end of a line, not counting a carriage return. The bytes read so far are counted.
pub fn read_line<R: BufRead>(
    reader: &mut R,
    taken: &mut u32,
    line: &mut LineBytes,
) -> Result<LineEnd, LineFault>
    requires { taken.old ≤ SCRIPT_LIMIT }
    ensures line { IfOk result (TakesLine (R.remaining reader.old) (R.remaining reader.new) line.new) }
    ensures too_long { result ≡ Err LineFault.TooLong
        → TakesTooMuch (R.remaining reader.old) (R.remaining reader.new) taken.old taken.new }
    ensures stopped { IfErr result (λ e. e ≢ LineFault.TooLong
        → TakesInto (R.remaining reader.old) (R.remaining reader.new) taken.old taken.new) }
    ensures past { result ≡ Err LineFault.TooMuch → (taken.new ≡ SCRIPT_LIMIT)
        × WhereKnown (R.remaining reader.old) (R.remaining reader.new) (λ script left. left ≢ []) }
    ensures fed { IfOk result (λ end. end ≡ LineEnd.LineFeed → taken.old < taken.new) }
    ensures counted { OnOk result (CountsTaken (R.remaining reader.old) (R.remaining reader.new) taken.old taken.new) }
    ensures taken { taken.new ≤ SCRIPT_LIMIT }
{
    line.clear();
    // Each iteration reads at least one byte.
    for _ in 0..=LINE_ROOM {
        let most = (LINE_ROOM - line.len()).min((SCRIPT_LIMIT - *taken) as usize);
        match read_part(reader, most, line) {
            Ok(LinePart::End) => return Ok(LineEnd::EndOfScript),
            Ok(LinePart::Begun(size)) => *taken += size as u32,
            Ok(LinePart::LineFeed(size)) => {
                *taken += size as u32;
                line.drop_carriage_return();
                return Ok(LineEnd::LineFeed);
            }
            Err(fault) => return Err(fault),
        }
        if is_too_long(line.as_slice()) {
            return Err(LineFault::TooLong);
        }
    }
    Err(LineFault::TooLong)
}

/// Returns true if the part of a line is too long.
/// After 1,024 bytes only a carriage return may follow, as a line feed may follow that.
fn is_too_long(line: &[u8]) -> bool
    ensures long { IsTrue result ↔ IsTooLong line.now }
    ensures short { IsTrue result ⊎ (length line.now ≤ LINE_LIMIT + 1) }
{
    let size = line.len();
    if size == LINE_LIMIT + 1 {
        line[LINE_LIMIT] != b'\r'
    } else {
        size > LINE_LIMIT
    }
}
