//! Returns the board that the command line asks for: opens the file of a card, or makes one with the factory card.
ghost use Rattle.std.specs.Prelude.{◌≡◌, None, Some, IfErr, IfOk, false};
ghost use Rattle.card_boards.specs.FactoryBoards.{IsFactoryBoard};
ghost use Rattle.card_files.specs.AskedBoards.{IsBoardOf, facts_of, followed_file, syncs};
ghost use Rattle.card_files.specs.CommandLines.{new_card_pages, pages_number};
ghost use Rattle.card_files.specs.FileRefusals.{HasPagesOf, IsFileFault, IsRefusedAs};
ghost use Rattle.card_files.specs.declared.options.Asked.TheVariants as asked;
ghost use Rattle.card_files.specs.declared.options.CardOptions.{CardOptions};
ghost use Rattle.command_base.specs.Finding.{HasCard};
ghost use Rattle.simulated_boards.specs.Kept.{kept_words};

use crate::kept_file::{CardBoard, KeptFile, Stamp};
use crate::options::{Asked, CardOptions};
use crate::reading::card_in;
use card_boards::{factory_board, factory_board_of};
use simulated_boards::KeptBoard;
use std::alloc::Global;
use std::fs::{self, File, OpenOptions, TryLockError};
use std::io::{self, ErrorKind, Write};
use std::os::unix::fs::OpenOptionsExt;
use std::random::RandomSource;
use thiserror::Error;

/// The permission of a card's file, which has the PINs in plain bytes.
const OWNER_ALONE: u32 = 0o600;

/// What takes the number of a closed stream. It is open to read alone, so that what is printed fails.
const NO_STREAM: &str = "/dev/null";

/// Why a file is not taken as a card's. The file stays as it was.
#[derive(Debug, Drop, Error)]
pub enum CardFault {
    #[error("usage: bench_cli --card FILE [--pages N] [--sync], with N from 1024 to 4096")]
    Usage,
    #[error("the file can't be opened: {0}")]
    Open(io::Error),
    #[error("the file can't be read: {0}")]
    Read(io::Error),
    #[error("the file can't be made: {0}")]
    Make(io::Error),
    #[error("it is not a regular file")]
    NotAFile,
    #[error("the file is in use by another program")]
    InUse,
    #[error("the file can't be locked: {0}")]
    Lock(io::Error),
    #[error("the file has {0} bytes; a card's memory has 64 a page, and 1024 to 4096 pages")]
    Size(u64),
    #[error("the file has {0} pages, not the number that --pages gives")]
    OtherPages(u64),
    #[error("no card is found in the file: the words of its memory break a rule")]
    NoCard,
    #[error("there is too little memory")]
    Memory,
}

/// Why there is no board with what the command line asks for.
pub enum NoBoard {
    /// There is too little memory for a board that no file keeps.
    Memory,
    /// The file is not taken as a card's.
    Card(CardFault),
}

/// Returns the board with the card that the command line asks for. No cut is pending.
pub fn open_board(rt: &HostRuntime, asked: Asked) -> Result<CardBoard, NoBoard>
    ensures card { IfOk result (λ board. HasCard (kept_words board)) }
    ensures board { IfOk result (IsBoardOf asked) }
    ensures uncut { IfOk result (λ board. (facts_of board).pending ≡ None) }
    ensures refused { IfErr result (IsRefusedAs asked) }
{
    match asked {
        Asked::Factory => match factory_board(rt.alloc()) {
            Ok(board) => Ok(KeptBoard::new(board, None)),
            Err(_) => Err(NoBoard::Memory),
        },
        Asked::Unknown => Err(NoBoard::Card(CardFault::Usage)),
        Asked::Card(options) => match open_card(rt, &options) {
            Ok(board) => Ok(board),
            Err(fault) => Err(NoBoard::Card(fault)),
        },
    }
}

/// Returns the card in the file, or the factory card in a new file.
fn open_card(rt: &HostRuntime, options: &CardOptions) -> Result<CardBoard, CardFault>
    ensures card { IfOk result (λ board. HasCard (kept_words board)) }
    ensures kept { IfOk result (λ board. syncs board ≡ Some options.now.sync) }
    ensures pages { IfOk result (λ board. HasPagesOf options.now (kept_words board)) }
    ensures uncut { IfOk result (λ board. (facts_of board).pending ≡ None) }
    ensures refused { IfErr result (IsFileFault options.now) }
{
    let _streams = fill_streams(rt);
    let path = options.path.as_str();
    match OpenOptions::new().read(true).write(true).open(rt, path) {
        Ok(file) => read_card(rt.alloc(), file, options),
        Err(error) if error.kind() == ErrorKind::NotFound => make_card(rt, options),
        Err(error) => Err(CardFault::Open(error)),
    }
}

/// Opens files in place of the standard streams that are closed. As long as they are open, no other file takes the
/// number of a stream: what the program prints would go into a card.
pub(crate) fn fill_streams(
    rt: &HostRuntime,
) -> (io::Result<File>, io::Result<File>, io::Result<File>) {
    let first = File::open(rt, NO_STREAM);
    let second = File::open(rt, NO_STREAM);
    let third = File::open(rt, NO_STREAM);
    (first, second, third)
}

/// Returns the card in an open file.
#[tactic(auto, using(crate::proofs::Refused::reads_own_fault))]
fn read_card(alloc: Global, file: File, options: &CardOptions) -> Result<CardBoard, CardFault>
    ensures file { IfOk result (λ board. followed_file board ≡ Some file) }
    ensures card { IfOk result (λ board. HasCard (kept_words board)) }
    ensures board { IfOk result (IsBoardOf (asked.Card options.now)) }
    ensures uncut { IfOk result (λ board. (facts_of board).pending ≡ None) }
    ensures refused { IfErr result (IsFileFault options.now) }
{
    lock(&file)?;
    let (size, stamp) = size_and_stamp(&file)?;
    let board = card_in(alloc, &mut &file, size, options)?;
    let file = KeptFile::new(file, stamp, options.sync);
    Ok(KeptBoard::new(board, Some(file)))
}

/// Returns the size of a regular file in bytes, and its stamp.
pub(crate) fn size_and_stamp(file: &File) -> Result<(u64, Stamp), CardFault>
    ensures { (options : CardOptions) → IfErr result (IsFileFault options) }
{
    let read = file.metadata().and_then(|it| Ok((it, Stamp::of(file)?)));
    match read {
        Ok((it, stamp)) if it.is_file() => Ok((it.len(), stamp)),
        Ok(_) => Err(CardFault::NotAFile),
        Err(error) => Err(CardFault::Read(error)),
    }
}

/// Makes a file with the factory card, whole or not at all.
/// It is written under a name of its own first, and gets its name once the disk has it.
fn make_card(rt: &HostRuntime, options: &CardOptions) -> Result<CardBoard, CardFault>
    ensures factory { IfOk result (λ board. IsFactoryBoard (new_card_pages (pages_number options.now.pages))
        (facts_of board)) }
    ensures kept { IfOk result (λ board. syncs board ≡ Some options.now.sync) }
    ensures pages { IfOk result (λ board. HasPagesOf options.now (kept_words board)) }
    ensures refused { IfErr result (IsFileFault options.now) }
{
    let pages = options.new_pages();
    let Ok(board) = factory_board_of(rt.alloc(), pages) else {
        return Err(CardFault::Memory);
    };
    match new_file(rt, board.words(), options) {
        Ok(file) => Ok(KeptBoard::new(board, Some(file))),
        Err(_) if fs::exists(rt, options.path.as_str()).unwrap_or(false) => Err(CardFault::InUse),
        Err(error) => Err(CardFault::Make(error)),
    }
}

/// Returns the follower of a new file with a board's words. The file is locked, its owner alone may read and write it,
/// and any other file stays as it was. If the path has a file already, the error says that it exists.
pub(crate) fn new_file(
    rt: &HostRuntime,
    words: &[u32],
    options: &CardOptions,
) -> io::Result<KeptFile>
    ensures { IfOk result (λ file. (file.sync ≡ options.now.sync) × (file.behind ≡ false)) }
{
    let new = other_name(rt, options.path.as_str())?;
    let file = write_new(rt, words, new.as_str(), options.path.as_str())?;
    let stamp = stamp_of_new(rt, &file, options)?;
    Ok(KeptFile::new(file, stamp, options.sync))
}

/// Returns a new file with words, under the name of a path. The other name, which it has first, is gone in any case.
fn write_new(rt: &HostRuntime, words: &[u32], new: &str, path: &str) -> io::Result<File> {
    let mut file = OpenOptions::new()
        .read(true)
        .write(true)
        .create_new(true)
        .mode(OWNER_ALONE)
        .open(rt, new)?;
    let filled = write_image(rt, &mut file, words);
    let named = filled.and_then(|()| give_name(rt, new, path));
    // (a link leaves both names)
    let _ = fs::remove_file(rt, new);
    named?;
    Ok(file)
}

/// Returns the stamp of a new file. With `sync` it waits until the disk has the file's name.
fn stamp_of_new(rt: &HostRuntime, file: &File, options: &CardOptions) -> io::Result<Stamp> {
    if options.sync {
        fs::open(rt, folder_of(options.path.as_str()))?.sync_all()?;
    }
    Stamp::of(file)
}

/// Returns a name in the folder of a path that nobody can have foreseen.
fn other_name(rt: &HostRuntime, path: &str) -> io::Result<String> {
    let mut random = [0; 8];
    rt.fill_bytes(&mut random)?;
    let number = u64::from_be_bytes(random);
    let folder = folder_of(path);
    Ok(format!(in rt.alloc(); "{folder}/card.{number:016x}.new")?)
}

/// Locks a file, and writes words to it. It returns once the disk has them.
fn write_image(rt: &HostRuntime, file: &mut File, words: &[u32]) -> io::Result<()> {
    if file.try_lock().is_err() {
        return Err(ErrorKind::WouldBlock.into());
    }
    let mut bytes = Vec::new(rt.alloc());
    for word in words {
        bytes.extend_from_slice(&word.to_be_bytes())?;
    }
    file.write_all(&bytes)?;
    file.sync_all()
}

/// Gives a file its name, unless another file has it: another bench can have made it since this one looked.
fn give_name(rt: &HostRuntime, new: &str, path: &str) -> io::Result<()> {
    match fs::hard_link(rt, new, path) {
        Err(error) if error.kind() != ErrorKind::AlreadyExists && !fs::exists(rt, path)? => {
            // (some file systems have no links)
            fs::rename(rt, new, path)
        }
        linked => linked,
    }
}

/// Returns the folder of a path.
fn folder_of(path: &str) -> &str {
    match path.rsplit_once('/') {
        Some(("", _)) => "/",
        Some((folder, _)) => folder,
        None => ".",
    }
}

/// Locks the file, so that no other bench uses it while it is open.
pub(crate) fn lock(file: &File) -> Result<(), CardFault>
    ensures { (options : CardOptions) → IfErr result (IsFileFault options) }
{
    match file.try_lock() {
        Ok(()) => Ok(()),
        Err(TryLockError::WouldBlock) => Err(CardFault::InUse),
        Err(TryLockError::Error(error)) => Err(CardFault::Lock(error)),
    }
}
