//! The elementary file of a command on contents (ISO/IEC 7816-4, 7.3.1), and the refusals by that file.
ghost use Rattle.std.specs.Prelude.{◌≡◌, Some, option_map, IfOk, IfSome};
ghost use Rattle.std.specs.Result.{result_err};
ghost use Rattle.undo_journal.specs.StoreCalls.{Learns};
ghost use Rattle.undo_journal.specs.Memory.{committed};
ghost use Rattle.card_model.specs.FileLives.{is_barred};
ghost use Rattle.file_tree.specs.Table.{path_of};
ghost use Rattle.card_model.specs.Guards.{file_refusals, missing as missing_status, allowed};
ghost use Rattle.card_model.specs.Behaviours.{refused_by};
ghost use Rattle.card_model.specs.Reaching.{target_of};
ghost use Rattle.command_base.specs.Stops.{Checks, Looks};
ghost use Rattle.command_base.specs.Working.{card_in, session_in, table_in, HasTargetFile, IsElementary};
ghost use Rattle.command_base.specs.NamedFiles.{file_refusal, fits, fits_kind, HasTarget, IsNamed};

use crate::access::allows;
use crate::current::Current;
use crate::stop::Stop;
use apdu_core::{Sw, Target};
use card_model::AccessBit;
use file_lookup::{find_short, is_barred_at, read_entry};
use file_tree::{Entry, EntryKind, EntryNumber};
use undo_journal::{Board, Store, StoreErr};

/// The structures that a command accepts.
#[derive(Clone, Copy)]
pub enum AcceptedStructure {
    /// A transparent file.
    Bytes,
    /// A linear or a cyclic file.
    Records,
    /// A linear file: its records are in the order of their numbers.
    Linear,
    /// A cyclic file: its newest record is the first.
    Cyclic,
}

/// What a command needs: a structure, and an operation.
#[derive(Clone, Copy)]
pub struct Need {
    pub structure: AcceptedStructure,
    pub bit: AccessBit,
}

/// An elementary file: its entry and the number of the entry.
#[derive(Clone, Copy)]
pub struct TargetFile {
    pub number: EntryNumber,
    pub entry: Entry,
}

/// Returns the file that a command on contents names.
///
/// # Errors
/// In this order: 6986 without a current EF, or 6A82 without the named file; 6985 if it is barred; 6981 if its
/// structure doesn't fit; 6982 if its rule forbids the command. Or the store fails.
#[tactic(auto, using(undo_journal::specs::laws::Calls::reads_then))]
pub fn find_file<B: Board>(
    store: &mut Store<B>,
    current: &Current,
    target: Target,
    need: Need,
) -> Result<TargetFile, Stop>
    requires target { HasTarget store.old current.now target }
    ensures { Looks store.old store.new result
        (λ file. IsNamed (committed store.old) current.now target need file.number file.entry)
        (λ refusal. refused_by (file_refusals (card_in store.old) (session_in store.old current.now) target
        (fits need.structure) need.bit) ≡ Some refusal) }
{
    let Some(number) = find_target(store, current, target)? else {
        return Err(Stop::Refused(missing(target)));
    };
    let entry = read_entry(store, number)?;
    let file = TargetFile { number, entry };
    check_file(store, current, &file, need)?;
    Ok(file)
}

/// Refuses a command if the file that it names requires so.
#[tactic(auto, using(undo_journal::specs::laws::Calls::reads_then))]
fn check_file<B: Board>(
    store: &mut Store<B>,
    current: &Current,
    file: &TargetFile,
    need: Need,
) -> Result<(), Stop>
    requires file { HasTargetFile store.old current.now file.now }
    ensures { Checks store.old store.new (file_refusal
        (is_barred (card_in store.old).tree (path_of (table_in store.old) file.now.number))
        (fits_kind need.structure file.now.entry.kind) (allowed (card_in store.old) (session_in store.old current.now)
        (path_of (table_in store.old) file.now.number) need.bit)) result }
{
    let findings = Findings {
        barred: is_barred_at(store, file.number, &file.entry)?,
        fits: need.structure.fits(&file.entry),
        allowed: allows(store, current, file, need.bit)?,
    };
    findings.check()?;
    Ok(())
}

/// The findings about a file that may refuse a command.
#[derive(Clone, Copy)]
pub struct Findings {
    pub barred: bool,
    pub fits: bool,
    pub allowed: bool,
}

impl Findings {
    /// Lets a command go on, or refuses it.
    ///
    /// # Errors
    /// The status word of the first refusal that is due.
    pub fn check(self) -> Result<(), Sw>
        ensures { result_err result ≡ file_refusal self.barred self.fits self.allowed }
    {
        if self.barred {
            Err(Sw::CONDITIONS_NOT_SATISFIED)
        } else if !self.fits {
            Err(Sw::WRONG_STRUCTURE)
        } else if !self.allowed {
            Err(Sw::ACCESS_DENIED)
        } else {
            Ok(())
        }
    }
}

impl AcceptedStructure {
    /// Returns true if the file of this entry has this structure.
    fn fits(self, entry: &Entry) -> bool
        ensures { result ≡ fits_kind self entry.now.kind }
    {
        match self {
            AcceptedStructure::Bytes => entry.has_kind(EntryKind::Transparent),
            AcceptedStructure::Records => {
                entry.has_kind(EntryKind::Linear) || entry.has_kind(EntryKind::Cyclic)
            }
            AcceptedStructure::Linear => entry.has_kind(EntryKind::Linear),
            AcceptedStructure::Cyclic => entry.has_kind(EntryKind::Cyclic),
        }
    }
}

/// Returns the entry number of the elementary file that a command names.
pub(crate) fn find_target<B: Board>(
    store: &mut Store<B>,
    current: &Current,
    target: Target,
) -> Result<Option<EntryNumber>, StoreErr>
    requires target { HasTarget store.old current.now target }
    ensures found { Learns store.old store.new result
        (λ found. target_of (card_in store.old).tree (session_in store.old current.now) target
        ≡ option_map (path_of (table_in store.old)) found) }
    ensures child { IfOk result (λ found. IfSome found (IsElementary (table_in store.old) current.now.df)) }
{
    match target {
        Target::Current => Ok(current.ef),
        Target::Short(short) => find_short(store, current.df, short),
    }
}

/// Returns the status word for a target that names no elementary file.
pub(crate) fn missing(target: Target) -> Sw
    ensures { result ≡ missing_status target }
{
    match target {
        Target::Current => Sw::NO_CURRENT_EF,
        Target::Short(_) => Sw::FILE_NOT_FOUND,
    }
}
