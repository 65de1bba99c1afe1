//! What is proved of the definitions themselves. The functions have no effect: their contracts are the laws.

ghost use Rattle.gc_rows.specs.ProcedureQuantities.{QuantitiesHaveTheirNames, WholesHaveTheirNames, RowsFillTheirColumns};
ghost use Rattle.gc_rows.specs.DescribedColumns.{AddedColumnsFollow, DescribedColumnsHoldTheirValues};
ghost use Rattle.gc_rows.specs.Lookup.{RecordsReadBack};
ghost use Rattle.gc_rows.specs.ReadValues.{ValuesAreRead};
ghost use Rattle.gc_rows.specs.Laws.{ColumnsAreFields, ItemsAreTheGrammars, RowsReadBack, RowsArePrintable, JsonLinesReadBack, RecordsHavePlainMembers};

/// The columns `rc_com`, `rc` and `values` of a record are the fields of the reply's line: its communication code, its return
/// code and its values.
pub fn columns_are_a_replys_fields()
    ensures { ColumnsAreFields }
{}

/// The items of a raw answer in an object are the parameters that the grammar has of the reply's values.
pub fn items_are_the_grammars()
    ensures { ItemsAreTheGrammars }
{}

/// A reader of comma-separated values gives each row of two fields or more back as its fields, escaped as in a log, and a table
/// of such rows as these rows, whatever bytes a reply had. What comes before all records is the row of the columns' names. No two
/// different lists of bytes are escaped as one text.
pub fn rows_read_back()
    ensures { RowsReadBack }
{}

/// A row has no byte below 32 nor above 126 before its line feed.
pub fn rows_are_printable()
    ensures { RowsArePrintable }
{}

/// Where the members of a line of JSON have plain names, and hold bytes, numbers of JSON or texts of bytes, the line reads as an
/// object of the run's moment and these members, in their order. The bytes may be any, and are escaped as in a log.
pub fn json_lines_read_back()
    ensures { JsonLinesReadBack }
{}

/// Each record's line of JSON is one of which `json_lines_read_back` speaks: its members have plain names and hold bytes,
/// numbers of JSON or texts of bytes.
pub fn records_have_plain_members()
    ensures { RecordsHavePlainMembers }
{}

/// The values of an answer are under the names of the quantities that its procedure returns by the manual's tables. The columns
/// of a row and the members of an object have these names. A whole number is under no name, if its procedure isn't listed as one
/// that returns it.
pub fn quantities_have_their_names()
    ensures values { QuantitiesHaveTheirNames }
    ensures wholes { WholesHaveTheirNames }
{}

/// However a command ended, its row has as many fields as the header has names.
pub fn rows_fill_their_columns()
    ensures { RowsFillTheirColumns }
{}

/// Under the name of a column a reader finds what the record holds there, in a row and in an object: bytes, escaped; a moment or a
/// number as it is written; of a code the same number. No two members of an object have that name. (Of `items` this says only that
/// they are no text.)
pub fn records_read_back()
    ensures { RecordsReadBack }
{}

/// Parameters are read as values of the kinds (`values_read`) exactly if the tables of kinds say so.
pub fn values_are_read_by_kinds()
    ensures { ValuesAreRead }
{}

/// Under each column of a quantity, of the table's and of those that descriptions add, a reader finds of an answer to a described
/// procedure the value that the description gives this name, and nothing if it gives none; and so under the description's names in an
/// object. Where no answer counts, and under the added columns of a call of the table, a row has nothing.
pub fn described_columns_hold_their_values()
    ensures { DescribedColumnsHoldTheirValues }
{}

/// The columns that descriptions add follow those of the table's quantities, in their order, before the last ones. No two columns have one
/// name, if the added ones are new and distinct.
pub fn added_columns_follow()
    ensures { AddedColumnsFollow }
{}
