//! CREATE FILE and DELETE FILE (ISO/IEC 7816-9).
ghost use Rattle.std.specs.Prelude.{◌≡◌, ◌||◌, [], true, option_map, Some, IfOk, IfSome, OnOk};
ghost use Rattle.undo_journal.specs.StoreCalls.{Learns};
ghost use Rattle.undo_journal.specs.Memory.{committed};
ghost use Rattle.card_model.specs.Requests.{create_file as creation, delete_file as deletion};
ghost use Rattle.card_model.specs.declared.access_mode.AccessBit.TheVariants.{DeleteChild, DeleteSelf};
ghost use Rattle.file_tree.specs.Indexes.{IsIndex};
ghost use Rattle.card_model.specs.FileLives.{is_barred as is_barred_in};
ghost use Rattle.file_tree.specs.Table.{path_of, IsUsed};
ghost use Rattle.file_commands.specs.FileParts.{IsDeletable, IsNewFile};
ghost use Rattle.card_model.specs.FileCommands.{create_refusals, creation_bit, delete_refusals};
ghost use Rattle.card_model.specs.Guards.{allowed};
ghost use Rattle.card_model.specs.Behaviours.{refused_by};
ghost use Rattle.card_model.specs.Reaching.{subject_or};
ghost use Rattle.command_base.specs.Served.{Executes};
ghost use Rattle.command_base.specs.Stops.{Looks, reply, Checks};
ghost use Rattle.command_base.specs.Working.{card_in, session_in, space_in, table_in, IsKept};
ghost use Rattle.command_base.specs.Working.{HasTargetFile, IsIndexed, IsWorking};
ghost use Rattle.command_base.specs.NamedFiles.{file_refusal};
ghost use Rattle.command_base.specs.CurrentFiles.{current_by};
ghost use Rattle.file_changes.specs.Creations.{kind_number};

use apdu_core::{Subject, Sw};
use card_model::{AccessBit, Fcp, FileKind};
use command_base::{Current, Findings, Stop, TargetFile, allows};
use fcp_template::parse;
use file_changes::{Creation, create, delete};
use file_lookup::{is_barred_at, read_entry, select};
use file_tree::{EntryNumber, FreeSpace, Index};
use undo_journal::{Board, Store, StoreErr};

/// CREATE FILE: adds a file to the current dedicated file.
/// It first fills the file's blocks, outside any file. Then one transaction adds the file, which becomes current.
/// The free space decreases by the file's size. Returns the status word.
///
/// # Errors
/// 6985 if the current dedicated file is barred; 6A80 by the template; 6982 by its rule; 6A89 if the identifier is
/// taken; 6A8A if the name is; 6A80 if the short identifier is; 6985 at level 8; 6A84 without room. Or the store
/// fails.
// It isn't inlined, so that other commands don't pay for its space on the stack.
#[inline(never)]
pub fn create_file<B: Board>(
    store: &mut Store<B>,
    current: &mut Current,
    free: &mut FreeSpace,
    index: &mut Index,
    template: &[u8],
) -> Result<Sw, Stop>
    requires card { IsWorking store.old current.old free.old index.old }
    ensures serves { Executes (creation template.now) store.old current.old store.new current.new [] (reply result) }
    ensures space { OnOk (reply result) (free.new ≡ space_in store.new) }
    ensures index { OnOk (reply result) (IsIndex (table_in store.new) index.new) }
{
    let fcp = find_new_file(store, current, template)?;
    let (number, blocks) = match create(store, index, *free, current.df, &fcp)? {
        Creation::Created { entry, blocks } => (entry, blocks),
        Creation::Refused(refusal) => return Err(Stop::Refused(refusal)),
    };
    *free = FreeSpace {
        blocks: free.blocks - blocks,
        entries: free.entries - 1,
    };
    *current = at_new_file(*current, number, &fcp.kind);
    Ok(Sw::DONE)
}

/// Returns the session after the new file of entry `number` became current. Its parent is the current dedicated file.
fn at_new_file(current: Current, number: EntryNumber, kind: &FileKind<'_>) -> Current
    ensures { result ≡ current_by current number (kind_number kind.now) current.df }
{
    let is_dedicated = matches!(kind, FileKind::Df { .. });
    current.at_file(number, current.df, is_dedicated)
}

/// Returns the file that CREATE FILE creates, or its refusal.
/// The refusals in order: the current dedicated file is barred; the template is invalid; the rule of the current
/// dedicated file doesn't allow a file of this kind.
fn find_new_file<'a, B: Board>(
    store: &mut Store<B>,
    current: &Current,
    template: &'a [u8],
) -> Result<Fcp<'a>, Stop>
    requires kept { IsKept store.old current.now }
    ensures { Looks store.old store.new result
        (λ fcp. IsNewFile (committed store.old) current.now template.now fcp)
        (λ refusal. refused_by (create_refusals (card_in store.old) (session_in store.old current.now) template.now)
        ≡ Some refusal) }
{
    let entry = read_entry(store, current.df)?;
    let df = TargetFile {
        number: current.df,
        entry,
    };
    if is_barred_at(store, df.number, &df.entry)? {
        return Err(Stop::Refused(Sw::CONDITIONS_NOT_SATISFIED));
    }
    let Ok(fcp) = parse(template) else {
        return Err(Stop::Refused(Sw::WRONG_DATA));
    };
    let bit = creation_bit(&fcp.kind);
    if !allows(store, current, &df, bit)? {
        return Err(Stop::Refused(Sw::ACCESS_DENIED));
    }
    Ok(fcp)
}

/// Returns the operation that must be allowed for this creation.
fn creation_bit(kind: &FileKind<'_>) -> AccessBit
    ensures { result ≡ creation_bit kind.now }
{
    match kind {
        FileKind::Df { .. } => AccessBit::CreateDf,
        FileKind::Transparent { .. } | FileKind::Linear { .. } | FileKind::Cyclic { .. } =>
            AccessBit::CreateEf,
    }
}

/// DELETE FILE: deletes a file and all below it, in one transaction.
/// Its parent becomes the current dedicated file, and the free space grows by the files' size. Returns the status word.
///
/// # Errors
/// 6A82 without the file; 6985 for the master file, or if the parent is barred; 6982 by both rules. Or the store
/// fails.
// It isn't inlined, so that other commands don't pay for its space on the stack.
#[inline(never)]
pub fn delete_file<B: Board>(
    store: &mut Store<B>,
    current: &mut Current,
    free: &mut FreeSpace,
    index: &mut Index,
    subject: Subject,
) -> Result<Sw, Stop>
    requires card { IsWorking store.old current.old free.old index.old }
    ensures serves { Executes (deletion subject) store.old current.old store.new current.new [] (reply result) }
    ensures space { OnOk (reply result) (free.new ≡ space_in store.new) }
    ensures index { OnOk (reply result) (IsIndex (table_in store.new) index.new) }
{
    let file = find_deletable(store, index, current, subject)?;
    let freed = delete(store, index, file.number)?;
    *free = FreeSpace {
        blocks: free.blocks + freed.blocks,
        entries: free.entries + freed.entries,
    };
    *current = Current {
        df: EntryNumber::new(file.entry.parent),
        ef: None,
        pointer: None,
        ..*current
    };
    Ok(Sw::DONE)
}

/// Returns the file that DELETE FILE names, or its refusal.
/// The refusals in order: there is no such file; it is the master file; a file above it is barred; neither its own rule
/// nor that of its parent allows it.
#[tactic(auto, using(undo_journal::specs::laws::Calls::reads_then))]
fn find_deletable<B: Board>(
    store: &mut Store<B>,
    index: &Index,
    current: &Current,
    subject: Subject,
) -> Result<TargetFile, Stop>
    requires card { IsIndexed store.old current.now index.now }
    ensures { Looks store.old store.new result
        (λ file. IsDeletable (committed store.old) current.now subject file.number file.entry)
        (λ refusal. refused_by (delete_refusals (card_in store.old) (session_in store.old current.now) subject)
        ≡ Some refusal) }
{
    let own = current.ef.unwrap_or(current.df);
    let Some(number) = find_subject(store, index, current, Some(own), subject)? else {
        return Err(Stop::Refused(Sw::FILE_NOT_FOUND));
    };
    if number.is_master() {
        return Err(Stop::Refused(Sw::CONDITIONS_NOT_SATISFIED));
    }
    let entry = read_entry(store, number)?;
    let file = TargetFile { number, entry };
    check_deletion(store, current, &file)?;
    Ok(file)
}

/// Refuses DELETE FILE by a barred parent, or by both rules.
/// A file is barred if it, or a file above it, is deactivated or terminated.
#[tactic(auto, using(undo_journal::specs::laws::Calls::reads_then))]
fn check_deletion<B: Board>(
    store: &mut Store<B>,
    current: &Current,
    file: &TargetFile,
) -> Result<(), Stop>
    requires file { HasTargetFile store.old current.now file.now }
    requires above { IsUsed (table_in store.old) file.now.entry.parent }
    ensures { Checks store.old store.new (file_refusal
        (is_barred_in (card_in store.old).tree (path_of (table_in store.old) file.now.entry.parent)) true
        (allowed (card_in store.old) (session_in store.old current.now) (path_of (table_in store.old) file.now.number)
        DeleteSelf || allowed (card_in store.old) (session_in store.old current.now)
        (path_of (table_in store.old) file.now.entry.parent) DeleteChild)) result }
{
    let number = EntryNumber::new(file.entry.parent);
    let entry = read_entry(store, number)?;
    let parent = TargetFile { number, entry };
    let barred = is_barred_at(store, parent.number, &parent.entry)?;
    let own = allows(store, current, file, AccessBit::DeleteSelf)?;
    let by_parent = allows(store, current, &parent, AccessBit::DeleteChild)?;
    let findings = Findings {
        barred,
        fits: true,
        allowed: own || by_parent,
    };
    findings.check()?;
    Ok(())
}

/// Returns the entry of the file that a command on files names.
/// Without a name it is `own`.
#[tactic(auto, using(undo_journal::specs::laws::Calls::reads_then))]
pub(crate) fn find_subject<B: Board>(
    store: &mut Store<B>,
    index: &Index,
    current: &Current,
    own: Option<EntryNumber>,
    subject: Subject,
) -> Result<Option<EntryNumber>, StoreErr>
    requires card { IsIndexed store.old current.now index.now }
    requires own { IfSome own (IsUsed (table_in store.old)) }
    ensures found { Learns store.old store.new result (λ found. subject_or
        (option_map (path_of (table_in store.old)) own) (card_in store.old).tree (session_in store.old current.now)
        subject ≡ option_map (path_of (table_in store.old)) found) }
    ensures used { IfOk result (λ found. IfSome found (IsUsed (table_in store.old))) }
{
    match subject {
        Subject::Current => Ok(own),
        Subject::Identifier(identifier) => select(store, index, current.df, identifier),
    }
}
