//! The parts of a request.

/// The EF that a command on contents works on.
#[derive(Clone, Copy)]
pub enum Target {
    /// The current EF.
    Current,
    /// The current DF's child with this short identifier, 1 to 30.
    Short(u8),
}

/// The file that a command on files works on.
#[derive(Clone, Copy)]
pub enum Subject {
    /// The current file: the current EF, or the current DF, as the command says.
    Current,
    /// The file that SELECT by this identifier selects from the current DF.
    Identifier(u16),
}

/// A record by its number, or the current record.
#[derive(Clone, Copy)]
pub enum RecordPlace {
    /// The current record, whose number is the record pointer.
    CurrentRecord,
    /// The record with this number, 1 to 255.
    Number(u8),
}

/// The way in which a command names a record.
#[derive(Clone, Copy)]
pub enum RecordChoice {
    /// The record after the current one.
    Next,
    /// The record before the current one.
    Previous,
    /// The record at this place.
    At(RecordPlace),
}

/// The data that SELECT returns.
#[derive(Clone, Copy)]
pub enum Returned {
    /// The template of the file's control parameters.
    Template,
    /// No data.
    Nothing,
}

/// A change of the life cycle state of a file.
#[derive(Clone, Copy)]
pub enum LifeCycleChange {
    /// DEACTIVATE FILE.
    Deactivate,
    /// ACTIVATE FILE.
    Activate,
    /// TERMINATE DF.
    TerminateDf,
    /// TERMINATE EF.
    TerminateEf,
}

/// A change of the verification requirement of a PIN.
#[derive(Clone, Copy)]
pub enum RequirementChange {
    /// DISABLE VERIFICATION REQUIREMENT: access conditions that name the PIN hold without it.
    Disable,
    /// ENABLE VERIFICATION REQUIREMENT: access conditions that name the PIN require it again.
    Enable,
}
