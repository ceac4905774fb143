//! The template of a file (ISO/IEC 7816-4, 7.4.3), from its entry.
ghost use Rattle.std.specs.Prelude.{◌≡◌};
ghost use Rattle.file_tree.specs.Table.{IsRecordBody};
ghost use Rattle.command_base.specs.TemplateParts.{kind_in_entry, parameters_in, records_in_entry, short_in_entry};
ghost use Rattle.command_base.specs.TemplateParts.{template_in, IsToldEntry};

use card_model::{Compact, DfName, Fcp, FileKind, Records, ShortIdentifier};
use command_base::ResponseData;
use fcp_template::write;
use file_tree::{Entry, EntryKind};

/// Returns the template of the file of a used entry.
#[tactic(auto, unfolding(command_base::specs::TemplateParts::template_in))]
pub(crate) fn template_of(entry: &Entry) -> ResponseData
    requires { IsToldEntry entry.now }
    ensures { result.items ≡ template_in entry.now }
{
    let mut template = ResponseData::new();
    write(&parameters_of(entry), &mut template);
    template
}

/// Returns the file control parameters of the file of a used entry.
fn parameters_of(entry: &Entry) -> Fcp<'_>
    requires { IsToldEntry entry.now }
    ensures { result ≡ parameters_in entry.now }
{
    Fcp {
        identifier: entry.identifier,
        life_cycle: entry.life_cycle(),
        rule: Compact::parse(entry.rule()).unwrap(),
        kind: kind_of(entry),
    }
}

/// Returns the kind of a used entry's file.
fn kind_of(entry: &Entry) -> FileKind<'_>
    requires { IsToldEntry entry.now }
    ensures { result ≡ kind_in_entry entry.now }
{
    let short = short_of(entry);
    match entry.kind() {
        Some(EntryKind::Dedicated) => FileKind::Df {
            name: DfName::new(entry.name()),
        },
        Some(EntryKind::Transparent) => FileKind::Transparent {
            short,
            size: entry.size,
        },
        Some(EntryKind::Linear) => FileKind::Linear {
            short,
            records: records_of(entry),
        },
        _ => FileKind::Cyclic {
            short,
            records: records_of(entry),
        },
    }
}

/// Returns the short identifier of an entry's file, if any.
fn short_of(entry: &Entry) -> ShortIdentifier
    ensures { result ≡ short_in_entry entry.now }
{
    if entry.short == 0 {
        ShortIdentifier::Empty
    } else {
        ShortIdentifier::Given(entry.short)
    }
}

/// Returns the records of a record file's entry.
/// A record has at most 255 bytes, and at most 254 records exist.
fn records_of(entry: &Entry) -> Records
    requires { IsRecordBody entry.now }
    ensures { result ≡ records_in_entry entry.now }
{
    Records {
        size: entry.size,
        record_length: entry.record_length as u8,
        existing: entry.records as u8,
    }
}
