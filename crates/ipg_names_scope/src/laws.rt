//! Laws of rosters and tables, each the contract of a function that does nothing.

ghost use Rattle.ipg_names_scope.specs.Laws.{RosterIsWhole, TablesTell};

/// The roster has as many rules as the text, local ones included.
pub fn roster_is_whole()
    ensures { RosterIsWhole }
{}

/// Where the tables are those of the text, names mean by them what they mean in the text.
pub fn tables_tell()
    ensures { TablesTell }
{}
