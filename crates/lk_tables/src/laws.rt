//! Laws on tables.

ghost use Rattle.lk_tables.specs.EntryOwners.{EntriesAreOwned, TablesBeginWithOwn};
ghost use Rattle.lk_tables.specs.OwnEntries.{CursorsMoveOn, CursorsReachEntries};
ghost use Rattle.lk_tables.specs.OwnTables.{SymbolsHaveOwnEntries};
ghost use Rattle.lk_tables.specs.TableLaws.{FirstTablesAreWithin, IndexesNameEntries, NamedPartsHaveTheirTable, OtherPartsHaveNoEntries};
ghost use Rattle.lk_tables.specs.TableTiles.{EntriesTileTheirTable};

/// A law: the entries of a table tile it. Each byte of the table has an entry, and no entry reaches out of it.
pub fn entries_tile_their_table()
    ensures { EntriesTileTheirTable }
{}

/// A law: in a well-formed link, the part that the plan names for a table has the entries of that table, and nothing else.
pub fn named_parts_have_their_table()
    ensures { NamedPartsHaveTheirTable }
{}

/// A law: a part that the plan names for no table has no entries.
pub fn other_parts_have_no_entries()
    ensures { OtherPartsHaveNoEntries }
{}

/// A law: the cursors at a symbol with a resolution stand at its own entries in `got` and `plt`, which have what it asks for and
/// end inside these tables.
pub fn cursors_reach_entries()
    ensures { CursorsReachEntries }
{}

/// A law: from a symbol to the next one the cursors move on by what it takes.
pub fn cursors_move_on()
    ensures { CursorsMoveOn }
{}

/// A law: the number of a symbol in the dynamic symbol table is the place of its last entry there; where it has no number, it has
/// no entry.
pub fn indexes_name_entries()
    ensures { IndexesNameEntries }
{}

/// A law: each symbol has its own entries in the whole tables, and no more: one in `got` and in `plt` where it has a resolution, one
/// in one of the two symbol tables where it is copied, and in the dynamic one as many as it is dynamic and exported.
pub fn symbols_have_own_entries()
    ensures { SymbolsHaveOwnEntries }
{}

/// A law: each entry of `got`, `plt`, the symbol tables, the dynamic one and their names is the table's own, or that of a symbol of the
/// link, or of a section of it, that has one there, and has its bytes.
pub fn entries_are_owned()
    ensures { EntriesAreOwned }
{}

/// A law: in a well-formed link, a table that has an entry of its own has it first, and no other one.
pub fn tables_begin_with_own()
    ensures { TablesBeginWithOwn }
{}

/// A law: what tables take first of a part is no more than what they take there in all.
pub fn first_tables_are_within()
    ensures { FirstTablesAreWithin }
{}
