//! Laws of the definitions, as contracts of functions that do nothing.
ghost use Rattle.std.specs.Prelude.{◌≡◌, ◌+◌, ◌*◌, ◌++◌, ◌∷◌, ◌==◌, ◌&&◌, ◌||◌, [], ℕ, List, Bool, true, false, Ok};
ghost use Rattle.std.specs.Prelude.{Some, None, map, MatchResult, IfOk};
ghost use Rattle.card_model.specs.declared.requests.Target.TheVariants.{Current as current_file, Short as short_file};
ghost use Rattle.card_model.specs.declared.requests.Subject.TheVariants.{Identifier as by_identifier};
ghost use Rattle.card_model.specs.declared.requests.LifeCycleChange.{LifeCycleChange};
ghost use Rattle.card_model.specs.declared.requests.LifeCycleChange.TheVariants.{TerminateEf};
ghost use Rattle.card_model.specs.declared.requests.RequirementChange.{RequirementChange};
ghost use Rattle.card_model.specs.declared.requests.RequirementChange.TheVariants.{Disable, Enable};
ghost use Rattle.card_model.specs.declared.direction.Direction.TheVariants.{Backward};
ghost use Rattle.card_model.specs.declared.requests.RecordChoice.TheVariants.{Previous, At};
ghost use Rattle.card_model.specs.declared.requests.RecordPlace.TheVariants.{CurrentRecord, Number};
ghost use Rattle.card_model.specs.declared.requests.Returned.TheVariants.{Template, Nothing};
ghost use Rattle.card_model.specs.CommandTable.{asked, command_table, is_class, read_binary_row, update_binary_row};
ghost use Rattle.card_model.specs.CommandTable.{create_file_row, delete_file_row, read_record_row, update_record_row};
ghost use Rattle.card_model.specs.CommandTable.{append_record_row, search_record_row, increase_row, is_record_file};
ghost use Rattle.card_model.specs.CommandTable.{is_choice, is_direction, life_cycle_row, terminate_card_usage_row};
ghost use Rattle.card_model.specs.CommandTable.{verify_row, change_reference_data_row, reset_retry_counter_row, is_pin};
ghost use Rattle.card_model.specs.CommandTable.{requirement_row, select_row, is_way, is_returned};
ghost use Rattle.card_model.specs.Listing.{header, bytes_with, mode, first_parameters, lengths_allowed};
ghost use Rattle.std.specs.List.{range_with_len};
ghost use Rattle.card_model.specs.Requests.{AreBytes, IsStatusWord, IsOfBytes, IsSized, select, read_binary};
ghost use Rattle.card_model.specs.Requests.{update_binary, create_file, delete_file, read_record, update_record};
ghost use Rattle.card_model.specs.Requests.{append_record, search_record, increase, change_life_cycle};
ghost use Rattle.card_model.specs.Requests.{terminate_card_usage, verify, change_reference_data, change_requirement};
ghost use Rattle.card_model.specs.Requests.{identifier, parent, name, path_from_master, path_from_current};

/// A command of bytes gives a request or a status word.
/// Le and each byte of the data are 0 to 255, and identifiers are two bytes.
pub fn requests_are_of_bytes()
    ensures { (command : List ℕ) → AreBytes command → MatchResult (asked command) IsOfBytes IsStatusWord }
{}

/// The parts of a request have sizes of the table of commands.
/// A name has 1 to 16 bytes, a path 1 to 7 identifiers, and a template or data to write 1 to 255 bytes.
pub fn requests_are_sized()
    ensures { (command : List ℕ) → IfOk (asked command) IsSized }
{}

/// Gives the known classes, and the class and instruction of each command.
/// The standards are ISO/IEC 7816-4, 5.4.2, and ISO/IEC 7816-9.
pub fn headers()
    ensures classes { bytes_with is_class ≡ 0x00 ∷ 0x80 ∷ [] }
    ensures commands { map header command_table
        ≡ (0x00, 0xA4) ∷ (0x00, 0xB0) ∷ (0x00, 0xD6) ∷ (0x00, 0xE0) ∷ (0x00, 0xE4)
        ∷ (0x00, 0xB2) ∷ (0x00, 0xDC) ∷ (0x00, 0xE2) ∷ (0x00, 0xA2) ∷ (0x80, 0x32)
        ∷ (0x00, 0x04) ∷ (0x00, 0x44) ∷ (0x00, 0xE6) ∷ (0x00, 0xE8) ∷ (0x00, 0xFE)
        ∷ (0x00, 0x20) ∷ (0x00, 0x24) ∷ (0x00, 0x2C) ∷ (0x00, 0x26) ∷ (0x00, 0x28) ∷ [] }
{}

/// Gives P1, P2 and the lengths of SELECT (ISO/IEC 7816-4, 11.2.2).
/// Each P1 has its lengths of the data field, and Le is optional.
pub fn select_numbers()
    ensures parameters { (p1 p2 : ℕ) → select_row.parameters p1 p2 ≡ (is_way p1 && is_returned p2) }
    ensures ways { bytes_with is_way ≡ 0x00 ∷ 0x03 ∷ 0x04 ∷ 0x08 ∷ 0x09 ∷ [] }
    ensures returned { bytes_with is_returned ≡ 0x04 ∷ 0x0C ∷ [] }
    ensures identifiers { (p2 : ℕ) (le : Bool) → lengths_allowed select_row 0x00 p2 le ≡ 0 ∷ 2 ∷ [] }
    ensures parents { (p2 : ℕ) (le : Bool) → lengths_allowed select_row 0x03 p2 le ≡ 0 ∷ [] }
    ensures names { (p2 : ℕ) (le : Bool) → lengths_allowed select_row 0x04 p2 le ≡ range_with_len 1 16 }
    ensures paths { (p2 : ℕ) (le : Bool)
        → (lengths_allowed select_row 0x08 p2 le ≡ 2 ∷ 4 ∷ 6 ∷ 8 ∷ 10 ∷ 12 ∷ 14 ∷ [])
        × (lengths_allowed select_row 0x09 p2 le ≡ 2 ∷ 4 ∷ 6 ∷ 8 ∷ 10 ∷ 12 ∷ 14 ∷ []) }
{}

/// Gives P1, P2 and lengths of READ BINARY and UPDATE BINARY.
/// The source is ISO/IEC 7816-4, 11.3.
/// P1 is 00 to 7F or 81 to 9E, P2 any. READ BINARY has Le and no data; UPDATE BINARY has 1 to 255 bytes and no Le.
pub fn binary_numbers()
    ensures parameters { (p2 : ℕ)
        → (first_parameters read_binary_row p2 ≡ range_with_len 0x00 128 ++ range_with_len 0x81 30)
        × (first_parameters update_binary_row p2 ≡ range_with_len 0x00 128 ++ range_with_len 0x81 30) }
    ensures read { (p1 p2 : ℕ) → (lengths_allowed read_binary_row p1 p2 true ≡ 0 ∷ [])
        × (lengths_allowed read_binary_row p1 p2 false ≡ []) }
    ensures update { (p1 p2 : ℕ) → (lengths_allowed update_binary_row p1 p2 true ≡ [])
        × (lengths_allowed update_binary_row p1 p2 false ≡ range_with_len 1 255) }
{}

/// Gives P1, P2 and lengths of CREATE FILE and DELETE FILE.
/// The source is ISO/IEC 7816-9.
/// P1 and P2 are 00, without Le. CREATE FILE has 1 to 255 bytes of data, DELETE FILE none or 2.
pub fn file_numbers()
    ensures parameters { (p1 p2 : ℕ) → (create_file_row.parameters p1 p2 ≡ ((p1 == 0x00) && (p2 == 0x00)))
        × (delete_file_row.parameters p1 p2 ≡ ((p1 == 0x00) && (p2 == 0x00))) }
    ensures create { (p1 p2 : ℕ) → (lengths_allowed create_file_row p1 p2 true ≡ [])
        × (lengths_allowed create_file_row p1 p2 false ≡ range_with_len 1 255) }
    ensures delete { (p1 p2 : ℕ) → (lengths_allowed delete_file_row p1 p2 true ≡ [])
        × (lengths_allowed delete_file_row p1 p2 false ≡ 0 ∷ 2 ∷ []) }
{}

/// Gives P1 and P2 of the commands on records (ISO/IEC 7816-4, 11.4).
/// READ RECORD and UPDATE RECORD have mode 4 with any P1, and modes 2 and 3 with P1 00. SEARCH RECORD has modes 4 and
/// 5. APPEND RECORD has P1 00 and mode 0. P2 names a file if it is 00 to F7.
pub fn record_parameters()
    ensures files { bytes_with is_record_file ≡ range_with_len 0x00 0xF8 }
    ensures modes { (p1 p2 : ℕ) → (is_choice p1 p2 ≡ (mode p2 == 4 || ((p1 == 0x00) && (mode p2 == 2 || mode p2 == 3))))
        × (is_direction p2 ≡ (mode p2 == 4 || mode p2 == 5)) }
    ensures chosen { (p1 p2 : ℕ) → (read_record_row.parameters p1 p2 ≡ (is_record_file p2 && is_choice p1 p2))
        × (update_record_row.parameters p1 p2 ≡ (is_record_file p2 && is_choice p1 p2)) }
    ensures searched { (p1 p2 : ℕ) → search_record_row.parameters p1 p2 ≡ (is_record_file p2 && is_direction p2) }
    ensures appended { (p1 p2 : ℕ)
        → append_record_row.parameters p1 p2 ≡ (is_record_file p2 && ((p1 == 0x00) && (mode p2 == 0))) }
{}

/// Gives the lengths of the commands on records.
/// READ RECORD has Le and no data. UPDATE RECORD and APPEND RECORD have 1 to 255 bytes and no Le. SEARCH RECORD and
/// INCREASE have 1 to 255 bytes, and Le is optional. INCREASE has P1 and P2 00.
pub fn record_lengths()
    ensures read { (p1 p2 : ℕ) → (lengths_allowed read_record_row p1 p2 true ≡ 0 ∷ [])
        × (lengths_allowed read_record_row p1 p2 false ≡ []) }
    ensures update { (p1 p2 : ℕ) → (lengths_allowed update_record_row p1 p2 true ≡ [])
        × (lengths_allowed update_record_row p1 p2 false ≡ range_with_len 1 255) }
    ensures append { (p1 p2 : ℕ) → (lengths_allowed append_record_row p1 p2 true ≡ [])
        × (lengths_allowed append_record_row p1 p2 false ≡ range_with_len 1 255) }
    ensures search { (p1 p2 : ℕ) (le : Bool) → lengths_allowed search_record_row p1 p2 le ≡ range_with_len 1 255 }
    ensures increase { (p1 p2 : ℕ) → (increase_row.parameters p1 p2 ≡ ((p1 == 0x00) && (p2 == 0x00)))
        × ((le : Bool) → lengths_allowed increase_row p1 p2 le ≡ range_with_len 1 255) }
{}

/// Gives P1, P2 and lengths of the commands on life cycles.
/// The source is ISO/IEC 7816-9.
/// P1 and P2 are 00, without Le. DEACTIVATE FILE, ACTIVATE FILE, TERMINATE DF and TERMINATE EF have no data or 2 bytes,
/// TERMINATE CARD USAGE has none.
pub fn life_cycle_numbers()
    ensures parameters { (change : LifeCycleChange) (p1 p2 : ℕ)
        → (life_cycle_row change).parameters p1 p2 ≡ ((p1 == 0x00) && (p2 == 0x00)) }
    ensures lengths { (change : LifeCycleChange) (p1 p2 : ℕ) → (lengths_allowed (life_cycle_row change) p1 p2 true ≡ [])
        × (lengths_allowed (life_cycle_row change) p1 p2 false ≡ 0 ∷ 2 ∷ []) }
    ensures card { (p1 p2 : ℕ) → (terminate_card_usage_row.parameters p1 p2 ≡ ((p1 == 0x00) && (p2 == 0x00)))
        × (lengths_allowed terminate_card_usage_row p1 p2 true ≡ [])
        × (lengths_allowed terminate_card_usage_row p1 p2 false ≡ 0 ∷ []) }
{}

/// Gives P1, P2 and lengths of the commands on PINs.
/// The source is ISO/IEC 7816-4, 11.5.
/// P1 is 00, P2 is a PIN, 1 to 8, without Le. VERIFY has no data or 8 bytes, CHANGE REFERENCE DATA 16,
/// RESET RETRY COUNTER none or 16.
pub fn pin_numbers()
    ensures parameters { (p1 p2 : ℕ) → (verify_row.parameters p1 p2 ≡ is_pin p1 p2)
        × (change_reference_data_row.parameters p1 p2 ≡ is_pin p1 p2)
        × (reset_retry_counter_row.parameters p1 p2 ≡ is_pin p1 p2) }
    ensures pins { (bytes_with (is_pin 0x00) ≡ range_with_len 1 8)
        × ((p1 p2 : ℕ) → is_pin p1 p2 ≡ ((p1 == 0x00) && is_pin 0x00 p2)) }
    ensures lengths { (p1 p2 : ℕ) → (lengths_allowed verify_row p1 p2 false ≡ 0 ∷ 8 ∷ [])
        × (lengths_allowed change_reference_data_row p1 p2 false ≡ 16 ∷ [])
        × (lengths_allowed reset_retry_counter_row p1 p2 false ≡ 0 ∷ 16 ∷ []) }
    ensures no_le { (p1 p2 : ℕ) → (lengths_allowed verify_row p1 p2 true ≡ [])
        × (lengths_allowed change_reference_data_row p1 p2 true ≡ [])
        × (lengths_allowed reset_retry_counter_row p1 p2 true ≡ []) }
{}

/// Gives P1, P2 and the lengths of DISABLE and ENABLE VERIFICATION REQUIREMENT.
/// P1 is 00, P2 is a PIN, 1 to 8, with 8 bytes of data and without Le (ISO/IEC 7816-4, 11.5).
pub fn requirement_numbers()
    ensures parameters { (change : RequirementChange) (p1 p2 : ℕ)
        → (requirement_row change).parameters p1 p2 ≡ is_pin p1 p2 }
    ensures lengths { (change : RequirementChange) (p1 p2 : ℕ)
        → (lengths_allowed (requirement_row change) p1 p2 true ≡ [])
        × (lengths_allowed (requirement_row change) p1 p2 false ≡ 8 ∷ []) }
{}

/// Gives the requests of commands on records, from their bytes.
pub fn records_in_bytes()
    ensures read { (le : ℕ) → asked (0x00 ∷ 0xB2 ∷ 0x05 ∷ 0xF4 ∷ le ∷ [])
        ≡ Ok (read_record (short_file 30) (At (Number 5)) le) }
    ensures update { (a : ℕ) → asked (0x00 ∷ 0xDC ∷ 0x00 ∷ 0x03 ∷ 0x01 ∷ a ∷ [])
        ≡ Ok (update_record current_file Previous (a ∷ [])) }
    ensures append { (a b : ℕ) → asked (0x00 ∷ 0xE2 ∷ 0x00 ∷ 0x08 ∷ 0x02 ∷ a ∷ b ∷ [])
        ≡ Ok (append_record (short_file 1) (a ∷ b ∷ [])) }
    ensures search { (a le : ℕ) → asked (0x00 ∷ 0xA2 ∷ 0x00 ∷ 0x05 ∷ 0x01 ∷ a ∷ le ∷ [])
        ≡ Ok (search_record current_file CurrentRecord Backward (a ∷ []) (Some le)) }
    ensures increase { (a le : ℕ) → asked (0x80 ∷ 0x32 ∷ 0x00 ∷ 0x00 ∷ 0x01 ∷ a ∷ le ∷ [])
        ≡ Ok (increase (a ∷ []) (Some le)) }
{}

/// Gives the requests of commands on life cycles and PINs.
pub fn states_in_bytes()
    ensures terminate_ef { (high low : ℕ) → asked (0x00 ∷ 0xE8 ∷ 0x00 ∷ 0x00 ∷ 0x02 ∷ high ∷ low ∷ [])
        ≡ Ok (change_life_cycle TerminateEf (by_identifier (256 * high + low))) }
    ensures terminate_card { asked (0x00 ∷ 0xFE ∷ 0x00 ∷ 0x00 ∷ []) ≡ Ok terminate_card_usage }
    ensures query { asked (0x00 ∷ 0x20 ∷ 0x00 ∷ 0x08 ∷ []) ≡ Ok (verify 8 None) }
    ensures change { (a b c d e f g h n o p q r s t u : ℕ)
        → asked (0x00 ∷ 0x24 ∷ 0x00 ∷ 0x01 ∷ 0x10 ∷ a ∷ b ∷ c ∷ d ∷ e ∷ f ∷ g ∷ h ∷ n ∷ o ∷ p ∷ q ∷ r ∷ s ∷ t ∷ u ∷ [])
        ≡ Ok (change_reference_data 1 (a ∷ b ∷ c ∷ d ∷ e ∷ f ∷ g ∷ h ∷ []) (n ∷ o ∷ p ∷ q ∷ r ∷ s ∷ t ∷ u ∷ [])) }
{}

/// Gives the requests of DISABLE and ENABLE VERIFICATION REQUIREMENT, from their bytes.
pub fn requirements_in_bytes()
    ensures disable { (a b c d e f g h : ℕ)
        → asked (0x00 ∷ 0x26 ∷ 0x00 ∷ 0x01 ∷ 0x08 ∷ a ∷ b ∷ c ∷ d ∷ e ∷ f ∷ g ∷ h ∷ [])
        ≡ Ok (change_requirement Disable 1 (a ∷ b ∷ c ∷ d ∷ e ∷ f ∷ g ∷ h ∷ [])) }
    ensures enable { (a b c d e f g h : ℕ)
        → asked (0x00 ∷ 0x28 ∷ 0x00 ∷ 0x08 ∷ 0x08 ∷ a ∷ b ∷ c ∷ d ∷ e ∷ f ∷ g ∷ h ∷ [])
        ≡ Ok (change_requirement Enable 8 (a ∷ b ∷ c ∷ d ∷ e ∷ f ∷ g ∷ h ∷ [])) }
{}

/// Gives the requests of SELECT by identifier, path, name, and parent.
pub fn select_in_bytes()
    ensures identifier { (high low : ℕ) → asked (0x00 ∷ 0xA4 ∷ 0x00 ∷ 0x0C ∷ 0x02 ∷ high ∷ low ∷ [])
        ≡ Ok (select (identifier (256 * high + low)) Nothing None) }
    ensures from_master { (a b c d le : ℕ)
        → asked (0x00 ∷ 0xA4 ∷ 0x08 ∷ 0x04 ∷ 0x04 ∷ a ∷ b ∷ c ∷ d ∷ le ∷ [])
        ≡ Ok (select (path_from_master ((256 * a + b) ∷ (256 * c + d) ∷ [])) Template (Some le)) }
    ensures from_current { (a b c d le : ℕ)
        → asked (0x00 ∷ 0xA4 ∷ 0x09 ∷ 0x04 ∷ 0x04 ∷ a ∷ b ∷ c ∷ d ∷ le ∷ [])
        ≡ Ok (select (path_from_current ((256 * a + b) ∷ (256 * c + d) ∷ [])) Template (Some le)) }
    ensures name { (a b c : ℕ) → asked (0x00 ∷ 0xA4 ∷ 0x04 ∷ 0x0C ∷ 0x03 ∷ a ∷ b ∷ c ∷ [])
        ≡ Ok (select (name (a ∷ b ∷ c ∷ [])) Nothing None) }
    ensures parent { asked (0x00 ∷ 0xA4 ∷ 0x03 ∷ 0x04 ∷ 0x00 ∷ []) ≡ Ok (select parent Template (Some 0)) }
{}

/// Gives the requests of the other commands, from their bytes.
pub fn commands_in_bytes()
    ensures read { (offset le : ℕ) → asked (0x00 ∷ 0xB0 ∷ 0x9E ∷ offset ∷ le ∷ [])
        ≡ Ok (read_binary (short_file 30) offset le) }
    ensures update { (low a b : ℕ) → asked (0x00 ∷ 0xD6 ∷ 0x7F ∷ low ∷ 0x02 ∷ a ∷ b ∷ [])
        ≡ Ok (update_binary current_file (0x7F00 + low) (a ∷ b ∷ [])) }
    ensures create { (a b : ℕ) → asked (0x00 ∷ 0xE0 ∷ 0x00 ∷ 0x00 ∷ 0x02 ∷ a ∷ b ∷ []) ≡ Ok (create_file (a ∷ b ∷ [])) }
    ensures delete { (high low : ℕ) → asked (0x00 ∷ 0xE4 ∷ 0x00 ∷ 0x00 ∷ 0x02 ∷ high ∷ low ∷ [])
        ≡ Ok (delete_file (by_identifier (256 * high + low))) }
{}
