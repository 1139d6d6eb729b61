//! Laws of records, each stated as the contract of a function that does nothing.

ghost use Rattle.std.specs.Prelude.{◌≡◌};
ghost use Rattle.csv.specs.Writing.{default_writer, row_text};
ghost use Rattle.survey_csv.specs.Fields.{column_names, csv_header};
ghost use Rattle.survey_csv.specs.Laws.{HasFifteenFields, RowIsReadBack, TableIsReadBack};

/// The header line is the record of the names of the columns.
#[tactic(auto, using(crate::proofs::ReadBack::header_is_text))]
pub fn header_is_record()
    ensures { csv_header ≡ row_text default_writer column_names }
{}

/// Each record has as many fields as there are columns: 15.
pub fn records_have_fifteen_fields()
    ensures { HasFifteenFields }
{}

/// The record of an entry, whatever follows it, is read back as its fields.
#[tactic(auto, using(crate::proofs::ReadBack::row_read_back))]
pub fn row_is_read_back()
    ensures { RowIsReadBack }
{}

/// A header line with records behind it is read back as the names of the columns and the fields of
/// each entry, and as nothing else.
#[tactic(auto, using(crate::proofs::ReadBack::table_read_back))]
pub fn table_is_read_back()
    ensures { TableIsReadBack }
{}
