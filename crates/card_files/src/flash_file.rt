//! The card on a simulated flash, in a file: opens the file, or makes it with the factory card.
ghost use Rattle.std.specs.Prelude.{◌≡◌, None, Some, IfErr, IfOk};
ghost use Rattle.card_boards.specs.FlashImages.{HasCardOnFlash, IsFactoryFlash};
ghost use Rattle.card_files.specs.CommandLines.{pages_number};
ghost use Rattle.card_files.specs.FileRefusals.{IsFileFault};
ghost use Rattle.card_files.specs.FlashFiles.{IsFlashFaultOf, IsFlashOf, IsFlashReadFault, IsFlashRefusedAs};
ghost use Rattle.card_files.specs.FlashFiles.{IsSeededFlash, flash_follower_file, flash_image_size, flash_syncs};
ghost use Rattle.card_files.specs.ImageParts.{AreWordsIn};
ghost use Rattle.simulated_flashes.specs.Complements.{IsFirstRandom};
ghost use Rattle.simulated_flashes.specs.GarblingStates.{garbling_state, given_garbling_state};
ghost use Rattle.simulated_flashes.specs.KeptFlashes.{kept_flash_state};

use crate::image_words::{WORD_BYTES, WordsFault, words_in};
use crate::kept_file::{KeptFile, Stamp};
use crate::opening::{CardFault, fill_streams, lock, new_file, size_and_stamp};
use crate::options::{Asked, CardOptions};
use card_boards::{CardSizes, NoFlashCard, factory_flash, flash_of_words};
use simulated_flashes::{GarblingFlash, KeptFlash, flash_words};
use std::alloc::Global;
use std::fs::{self, File, OpenOptions};
use std::io::{ErrorKind, Read};
use thiserror::Error;

/// Returns the bytes of the image of such a flash.
fn image_bytes_of<S: CardSizes>() -> u64
    ensures { result ≡ flash_image_size S.kind }
{
    WORD_BYTES as u64 * u64::from(flash_words::<S>())
}

/// Why a file is not taken as that of a card on a flash. The file stays as it was.
#[derive(Debug, Drop, Error)]
pub enum FlashCardFault {
    #[error("{0}")]
    File(CardFault),
    #[error("usage: flash_cli [--small-sectors] SEED --card FILE [--sync]; a flash has 1024 pages")]
    Usage,
    #[error("the file has {0} bytes; an image of this flash has {1}")]
    Size(u64, u64),
    #[error("no log is found on the flash: no block, or each of them, is closed")]
    Log,
    #[error("the log on the flash is out of step: too few slots are free for its move")]
    OutOfStep,
    #[error("no card is found on the flash: the words of its pages break a rule")]
    Card,
}

/// Why there is no flash with what the command line asks for.
pub enum NoFlash {
    /// There is too little memory for a flash that no file keeps.
    Memory,
    /// The file is not taken as that of a card on a flash.
    Card(FlashCardFault),
}

/// Returns the simulated flash with the card that the command line asks for. The seed chooses what power losses leave
/// in the flash.
pub fn open_flash<S: CardSizes>(
    rt: &HostRuntime,
    seed: u64,
    asked: Asked,
) -> Result<KeptFlash<KeptFile, S>, NoFlash>
    ensures card { IfOk result (λ flash. HasCardOnFlash S.kind (kept_flash_state flash).words) }
    ensures flash { IfOk result (IsFlashOf S.kind asked) }
    ensures seeded { IfOk result (IsSeededFlash seed) }
    ensures refused { IfErr result (IsFlashRefusedAs S.kind asked) }
{
    match asked {
        Asked::Factory => match factory_flash(rt.alloc(), seed) {
            Ok(flash) => Ok(KeptFlash::new(flash, None)),
            Err(_) => Err(NoFlash::Memory),
        },
        Asked::Unknown => Err(NoFlash::Card(FlashCardFault::Usage)),
        Asked::Card(options) => match open_card_flash(rt, seed, &options) {
            Ok(flash) => Ok(flash),
            Err(fault) => Err(NoFlash::Card(fault)),
        },
    }
}

/// Returns the flash in the file, or one with the factory card in a new file.
#[tactic(auto, using(crate::proofs::FlashRefused::no_number, crate::proofs::FlashRefused::some_number))]
fn open_card_flash<S: CardSizes>(
    rt: &HostRuntime,
    seed: u64,
    options: &CardOptions,
) -> Result<KeptFlash<KeptFile, S>, FlashCardFault>
    ensures card { IfOk result (λ flash. HasCardOnFlash S.kind (kept_flash_state flash).words) }
    ensures kept { IfOk result (λ flash. flash_syncs flash ≡ Some options.now.sync) }
    ensures seeded { IfOk result (IsSeededFlash seed) }
    ensures pages { IfOk result (λ flash. pages_number options.now.pages ≡ None) }
    ensures refused { IfErr result (IsFlashFaultOf S.kind options.now) }
{
    if options.pages.is_some() {
        return Err(FlashCardFault::Usage);
    }
    let _streams = fill_streams(rt);
    let path = options.path.as_str();
    match OpenOptions::new().read(true).write(true).open(rt, path) {
        Ok(file) => read_flash(rt.alloc(), file, seed, options),
        Err(error) if error.kind() == ErrorKind::NotFound => make_flash(rt, seed, options),
        Err(error) => Err(FlashCardFault::File(CardFault::Open(error))),
    }
}

/// Returns the flash in an open file.
#[tactic(auto, using(crate::proofs::FlashRefused::is_own_fault))]
fn read_flash<S: CardSizes>(
    alloc: Global,
    file: File,
    seed: u64,
    options: &CardOptions,
) -> Result<KeptFlash<KeptFile, S>, FlashCardFault>
    requires { pages_number options.now.pages ≡ None }
    ensures file { IfOk result (λ flash. flash_follower_file flash ≡ Some file) }
    ensures card { IfOk result (λ flash. HasCardOnFlash S.kind (kept_flash_state flash).words) }
    ensures kept { IfOk result (λ flash. flash_syncs flash ≡ Some options.now.sync) }
    ensures seeded { IfOk result (IsSeededFlash seed) }
    ensures refused { IfErr result (IsFlashFaultOf S.kind options.now) }
{
    let (size, stamp) = match lock_and_size(&file) {
        Ok(found) => found,
        Err(fault) => return Err(FlashCardFault::File(fault)),
    };
    let flash = flash_in(alloc, &mut &file, size, seed)?;
    let file = KeptFile::new(file, stamp, options.sync);
    Ok(KeptFlash::new(flash, Some(file)))
}

/// Locks a file. Returns its size in bytes, and its stamp.
fn lock_and_size(file: &File) -> Result<(u64, Stamp), CardFault>
    ensures { (options : CardOptions) → IfErr result (IsFileFault options) }
{
    match lock(file) {
        Ok(()) => size_and_stamp(file),
        Err(fault) => Err(fault),
    }
}

/// Returns the flash with the words in a reader's next bytes, `size` of them, if they hold a card.
pub fn flash_in<R: Read, S: CardSizes>(
    alloc: Global,
    reader: &mut R,
    size: u64,
    seed: u64,
) -> Result<GarblingFlash<S>, FlashCardFault>
    ensures card { IfOk result (λ flash. HasCardOnFlash S.kind (garbling_state flash).words) }
    ensures flash { IfOk result (λ flash. garbling_state flash ≡ given_garbling_state (garbling_state flash).words) }
    ensures random { IfOk result (λ flash. IsFirstRandom seed flash.random) }
    ensures words { IfOk result (λ flash. AreWordsIn (R.remaining reader.old) size (garbling_state flash).words) }
    ensures refused { IfErr result (IsFlashReadFault S.kind size (R.remaining reader.old)) }
{
    let wanted = image_bytes_of::<S>();
    if size != wanted {
        return Err(FlashCardFault::Size(size, wanted));
    }
    let words = match words_in(alloc, reader, size) {
        Ok(words) => words,
        Err(WordsFault::Read(error)) => return Err(FlashCardFault::File(CardFault::Read(error))),
        Err(WordsFault::Parts) => return Err(FlashCardFault::Size(size, wanted)),
        Err(WordsFault::Memory) => return Err(FlashCardFault::File(CardFault::Memory)),
    };
    let flash = match flash_of_words(alloc, words, seed) {
        Ok(flash) => flash,
        Err(NoFlashCard::Memory) => return Err(FlashCardFault::File(CardFault::Memory)),
        Err(NoFlashCard::Size) => return Err(FlashCardFault::Size(size, wanted)),
        Err(NoFlashCard::Log) => return Err(FlashCardFault::Log),
        Err(NoFlashCard::OutOfStep) => return Err(FlashCardFault::OutOfStep),
        Err(NoFlashCard::Card) => return Err(FlashCardFault::Card),
    };
    Ok(flash)
}

/// Makes a file with the factory card on a flash, whole or not at all.
fn make_flash<S: CardSizes>(
    rt: &HostRuntime,
    seed: u64,
    options: &CardOptions,
) -> Result<KeptFlash<KeptFile, S>, FlashCardFault>
    requires { pages_number options.now.pages ≡ None }
    ensures factory { IfOk result (λ flash. IsFactoryFlash S.kind (kept_flash_state flash).words) }
    ensures kept { IfOk result (λ flash. flash_syncs flash ≡ Some options.now.sync) }
    ensures seeded { IfOk result (IsSeededFlash seed) }
    ensures refused { IfErr result (IsFlashFaultOf S.kind options.now) }
{
    let Ok(flash) = factory_flash(rt.alloc(), seed) else {
        return Err(FlashCardFault::File(CardFault::Memory));
    };
    match new_file(rt, flash.words(), options) {
        Ok(file) => Ok(KeptFlash::new(flash, Some(file))),
        Err(_) if fs::exists(rt, options.path.as_str()).unwrap_or(false) => {
            Err(FlashCardFault::File(CardFault::InUse))
        }
        Err(error) => Err(FlashCardFault::File(CardFault::Make(error))),
    }
}
