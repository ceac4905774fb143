//! SELECT (ISO/IEC 7816-4, 11.2.2).
ghost use Rattle.std.specs.Prelude.{◌≡◌, [], None, Some, option_map, IfOk, IfSome, OnErr};
ghost use Rattle.std.specs.Result.{result_err};
ghost use Rattle.undo_journal.specs.StoreCalls.{Learns};
ghost use Rattle.apdu_core.specs.ParsedCommands.{IsFilePath, IsSelector, identifiers_in, selection_of};
ghost use Rattle.card_model.specs.Requests.{select as selection};
ghost use Rattle.file_tree.specs.Table.{entry_in, path_of, IsUsed};
ghost use Rattle.card_model.specs.Reaching.{selected_from};
ghost use Rattle.card_model.specs.SelectCommand.{selection_status};
ghost use Rattle.command_base.specs.Served.{Executes};
ghost use Rattle.command_base.specs.Stops.{Looks, reply};
ghost use Rattle.command_base.specs.Working.{card_in, session_in, table_in, IsIndexed};
ghost use Rattle.command_base.specs.TemplateParts.{data_in, template_in, HasToldEntry, IsToldEntry};
ghost use Rattle.card_model.specs.Guards.{IsGiven};

use crate::templates::template_of;
use apdu_core::{Answer, FilePath, Returned, Selector, Sw};
use arrayvec::ArrayVec;
use card_model::LifeCycle;
use command_base::{Current, Stop, asks_less, give, right_length};
use file_lookup::{
    find_name, find_parent, find_path, find_path_from_master, read_entry, read_entry_head, select,
};
use file_tree::{Entry, EntryNumber, Index, Reached};
use undo_journal::{Board, Store, StoreErr};

/// The most identifiers of a path.
const PATH_ROOM: usize = 7;

/// SELECT: makes a file current, and returns its template on request.
/// An Le below the length of the template is refused. Returns the status word.
///
/// # Errors
/// 6A82 without the file; 6CXX if Le is below the length of the template. Or the store fails.
pub fn select_file<B: Board>(
    store: &mut Store<B>,
    index: &Index,
    current: &mut Current,
    selector: Selector<'_>,
    returned: Returned,
    expected: Option<u8>,
    answer: &mut Answer,
) -> Result<Sw, Stop>
    requires card { IsIndexed store.old current.old index.now }
    requires selector { IsSelector selector }
    ensures { Executes (selection (selection_of selector.entry) returned expected) store.old current.old store.new
        current.new answer.new.items (reply result) }
{
    answer.clear();
    let Some(e) = find_selected(store, index, current, selector)? else {
        return Err(Stop::Refused(Sw::FILE_NOT_FOUND));
    };
    let head = read_entry_head(store, e)?;
    give_data(store, e, returned, expected, answer)?;
    *current = current.at_head(e, head);
    Ok(status_of_selection(head.life_cycle()))
}

/// Returns the entry of the file that SELECT names.
fn find_selected<B: Board>(
    store: &mut Store<B>,
    index: &Index,
    current: &Current,
    selector: Selector<'_>,
) -> Result<Reached, StoreErr>
    requires card { IsIndexed store.old current.now index.now }
    requires selector { IsSelector selector }
    ensures found { Learns store.old store.new result (λ found. selected_from (card_in store.old).tree
        (session_in store.old current.now).current_df (selection_of selector.entry)
        ≡ option_map (path_of (table_in store.old)) found) }
    ensures used { IfOk result (λ found. IfSome found (IsUsed (table_in store.old))) }
{
    match selector {
        Selector::MasterFile => Ok(Some(EntryNumber::master())),
        Selector::Identifier(identifier) => select(store, index, current.df, identifier),
        Selector::Parent => find_parent(store, current.df),
        Selector::Name(name) => find_name(store, name),
        Selector::PathFromMaster(path) => {
            Ok(find_path_from_master(index, &identifiers_of(path)))
        }
        Selector::PathFromCurrent(path) => {
            Ok(find_path(index, current.df, &identifiers_of(path)))
        }
    }
}

/// Returns the identifiers of a path, in order.
fn identifiers_of(path: FilePath<'_>) -> ArrayVec<u16, PATH_ROOM>
    requires { IsFilePath path }
    ensures { result.items ≡ identifiers_in path.entry }
{
    let mut all = ArrayVec::new();
    for index in 0..path.count() {
        all.push(path.identifier(index));
    }
    all
}

/// Writes the response data of SELECT into `answer`: the template on request.
/// It reads the rest of the entry only for a template. An Le below the data's length is refused.
fn give_data<B: Board>(
    store: &mut Store<B>,
    e: EntryNumber,
    returned: Returned,
    expected: Option<u8>,
    answer: &mut Answer,
) -> Result<(), Stop>
    requires entry { HasToldEntry store.old e }
    ensures data { Looks store.old store.new result
        (λ _. IsGiven expected (data_in returned (entry_in (table_in store.old) e)) answer.new.items None)
        (λ refusal. IsGiven expected (data_in returned (entry_in (table_in store.old) e))
        answer.new.items (Some refusal)) }
    ensures nothing { OnErr result (answer.new.items ≡ []) }
{
    answer.clear();
    match returned {
        Returned::Nothing => Ok(()),
        Returned::Template => {
            let entry = read_entry(store, e)?;
            give_template(&entry, expected, answer)?;
            Ok(())
        }
    }
}

/// Writes the template of a used entry's file into `answer`.
/// An Le below its length is refused.
// It isn't inlined, so that a SELECT without a template doesn't pay for the template's space on the stack.
#[inline(never)]
fn give_template(entry: &Entry, expected: Option<u8>, answer: &mut Answer) -> Result<(), Sw>
    requires told { IsToldEntry entry.now }
    ensures { IsGiven expected (template_in entry.now) answer.new.items (result_err result) }
{
    answer.clear();
    let template = template_of(entry);
    if asks_less(expected, &template) {
        return Err(right_length(&template));
    }
    give(expected, &template, answer);
    Ok(())
}

/// Returns the status word of SELECT for a file in this state.
fn status_of_selection(life: LifeCycle) -> Sw
    ensures { result ≡ selection_status life }
{
    match life {
        LifeCycle::Deactivated => Sw::SELECTED_DEACTIVATED,
        LifeCycle::Terminated => Sw::SELECTED_TERMINATED,
        _ => Sw::DONE,
    }
}
