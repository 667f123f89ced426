//! What the symbols of files bring: what they take in tables, and the commons that take bytes. One pass over the symbols of all
//! files, file by file.
//!
//! Only symbols of the prelude are marked late, when it is known which sections are emitted. So the first pass takes other files
//! whole, and of the prelude what no mark changes: its entries in `got` and `plt`, and its exports. What is left of it is
//! worked out by itself, when the marks are known. Names are measured, and not copied. The sums stand file by file, so that those
//! of groups can be added up side by side.

ghost use Rattle.std.specs.Prelude.{◌≡◌, ◌∷◌, [], ◌++◌, ℕ, ◌+◌, ◌<◌, ◌^◌, List, IfOk, OnOk, Some, if◌then◌else◌, length, map};
ghost use Rattle.std.specs.List.{enumerate_from, filter_map};
ghost use Rattle.lk_link.specs.Files.{file_in};
ghost use Rattle.lk_link.specs.Walks.{file_of};
ghost use Rattle.lk_link.specs.WellFormed.{IsWellFormed};
ghost use Rattle.lk_tables.specs.Commons.{all_commons, common_of, commons_of};
ghost use Rattle.lk_tables.specs.ShareSteps.{all_brought_late, brought_late, dynamic_share, early_part, entry_share, file_share, late_part, no_share, own_locals, plus, plus_dynamic, plus_entries, plus_symtab, sum_of, symbol_share, symtab_share, table_share, whole_symtab};
ghost use Rattle.lk_tables.specs.ShareWords.{first_share, first_shares, no_dynamic, no_entries, no_symtab, prelude_share};
ghost use Rattle.lk_tables.specs.TableWords.{IsLookedAt};
ghost use Rattle.lk_tables.specs.declared.shares.FileShare.{FileShare};

use crate::commons::{Common, push_common};
use crate::copied::first_input_of;
use crate::dynamic::{exports, is_dynamic_symbol};
use crate::singletons::{singleton_sizes, told_count};
use crate::symbol_table::{Given, flags_at, has_entry_there, is_local_entry, late_flags};
use lk_live::Live;
use lk_link::{Allocation, FileRef, InputSymbol, LinkInput, Platform, SymbolId};
use std::alloc::{AllocError, Global};

/// Bytes in the parts `got` and `plt`.
#[derive(Clone, Copy)]
pub struct EntryShare {
    pub got: u128,
    pub plt: u128,
}

/// Bytes in the symbol table and its names.
#[derive(Clone, Copy)]
pub struct SymtabShare {
    /// Among the local symbols.
    pub local: u128,
    /// Among the others.
    pub global: u128,
    /// In the names.
    pub names: u128,
}

/// Entries of the dynamic symbol table.
#[derive(Clone, Copy)]
pub struct DynamicShare {
    /// How many.
    pub count: u128,
    /// Their bytes.
    pub entries: u128,
    /// The bytes of their names.
    pub names: u128,
}

/// What a file takes in tables; a sum past 2^128 - 1 is given as that.
#[derive(Clone, Copy)]
pub struct FileShare {
    pub entries: EntryShare,
    pub symtab: SymtabShare,
    /// The symbols whose values the dynamic linker gives.
    pub dynamic: DynamicShare,
    /// The symbols that are told to the dynamic linker.
    pub exports: DynamicShare,
}

impl EntryShare {
    /// Nothing.
    fn nothing() -> EntryShare
        ensures { result ≡ no_entries }
    {
        EntryShare { got: 0, plt: 0 }
    }

    /// Those of both.
    fn plus(self, more: EntryShare) -> EntryShare
        ensures { result ≡ plus_entries self more }
    {
        EntryShare {
            got: self.got.saturating_add(more.got),
            plt: self.plt.saturating_add(more.plt),
        }
    }

    /// With these bytes, if they are taken.
    fn plus_if(self, is_taken: bool, all: Allocation) -> EntryShare
        ensures { result ≡ plus_entries self (entry_share is_taken all) }
    {
        if is_taken {
            self.plus(EntryShare {
                got: u128::from(all.got),
                plt: u128::from(all.plt),
            })
        } else {
            self
        }
    }
}

impl SymtabShare {
    /// Nothing.
    fn nothing() -> SymtabShare
        ensures { result ≡ no_symtab }
    {
        SymtabShare {
            local: 0,
            global: 0,
            names: 0,
        }
    }

    /// Those of both.
    fn plus(self, more: SymtabShare) -> SymtabShare
        ensures { result ≡ plus_symtab self more }
    {
        SymtabShare {
            local: self.local.saturating_add(more.local),
            global: self.global.saturating_add(more.global),
            names: self.names.saturating_add(more.names),
        }
    }

    /// With what one takes that is in the symbol table or isn't.
    fn plus_if(self, is_there: bool, is_local: bool, entry: u64, name_len: usize) -> SymtabShare
        ensures { result ≡ plus_symtab self (symtab_share is_there is_local entry name_len) }
    {
        if is_there {
            self.plus(symtab_share(true, is_local, entry, name_len))
        } else {
            self
        }
    }
}

impl DynamicShare {
    /// Nothing.
    pub(crate) fn nothing() -> DynamicShare
        ensures { result ≡ no_dynamic }
    {
        DynamicShare {
            count: 0,
            entries: 0,
            names: 0,
        }
    }

    /// Those of both.
    pub(crate) fn plus(self, more: DynamicShare) -> DynamicShare
        ensures { result ≡ plus_dynamic self more }
    {
        DynamicShare {
            count: self.count.saturating_add(more.count),
            entries: self.entries.saturating_add(more.entries),
            names: self.names.saturating_add(more.names),
        }
    }

    /// With what one takes that is in the dynamic symbol table or isn't.
    fn plus_if(self, is_there: bool, entry: u64, name_len: usize) -> DynamicShare
        ensures { result ≡ plus_dynamic self (dynamic_share is_there entry name_len) }
    {
        if is_there {
            self.plus(dynamic_share(true, entry, name_len))
        } else {
            self
        }
    }
}

impl FileShare {
    /// Nothing.
    fn nothing() -> FileShare
        ensures { result ≡ no_share }
    {
        FileShare {
            entries: EntryShare::nothing(),
            symtab: SymtabShare::nothing(),
            dynamic: DynamicShare::nothing(),
            exports: DynamicShare::nothing(),
        }
    }

    /// Those of both.
    pub(crate) fn plus(self, more: FileShare) -> FileShare
        ensures { result ≡ plus self more }
    {
        FileShare {
            entries: self.entries.plus(more.entries),
            symtab: self.symtab.plus(more.symtab),
            dynamic: self.dynamic.plus(more.dynamic),
            exports: self.exports.plus(more.exports),
        }
    }

    /// What doesn't wait for late marks.
    fn early_part(self) -> FileShare
        ensures { result ≡ early_part self }
    {
        FileShare {
            symtab: SymtabShare::nothing(),
            dynamic: DynamicShare::nothing(),
            ..self
        }
    }

    /// What does.
    fn late_part(self) -> FileShare
        ensures { result ≡ late_part self }
    {
        FileShare {
            entries: EntryShare::nothing(),
            exports: DynamicShare::nothing(),
            ..self
        }
    }
}

/// So many bytes, if they are taken.
fn if_taken(is_taken: bool, bytes: u128) -> u128
    ensures { result ≡ (if is_taken then bytes else 0) }
{
    if is_taken { bytes } else { 0 }
}

/// What one takes that is in the symbol table or isn't, among the local symbols or the others.
fn symtab_share(is_there: bool, is_local: bool, entry: u64, name_len: usize) -> SymtabShare
    ensures { result ≡ symtab_share is_there is_local entry name_len }
{
    SymtabShare {
        local: if_taken(is_there && is_local, u128::from(entry)),
        global: if_taken(is_there && !is_local, u128::from(entry)),
        names: if_taken(is_there, name_len as u128 + 1),
    }
}

/// What one takes that is in the dynamic symbol table or isn't.
pub(crate) fn dynamic_share(is_there: bool, entry: u64, name_len: usize) -> DynamicShare
    ensures { result ≡ dynamic_share is_there entry name_len }
{
    DynamicShare {
        count: if_taken(is_there, 1),
        entries: if_taken(is_there, u128::from(entry)),
        names: if_taken(is_there, name_len as u128 + 1),
    }
}

/// A sum with what a symbol of a file that stands for itself, with its number, takes. The file's first input section has this
/// number.
fn with_own<P: Platform>(
    sum: FileShare,
    platform: &P,
    given: Given<'_>,
    file: FileRef<'_>,
    first_input: usize,
    number: SymbolId,
    symbol: &InputSymbol,
) -> FileShare
    requires { IsLookedAt given.link.now (file_of file) first_input }
    ensures { result ≡ plus sum (symbol_share (P.table_sizes platform.now) given.entry.link.now given.entry.live.now
        given.entry.told.now (file_of file.entry) (number, symbol.now)) }
{
    let (link, live) = (given.link, given.live);
    let kind = file.file.kind;
    let flags = flags_at(live.flags.as_slice(), number.as_usize());
    let late = late_flags(link, given.told, kind, number, symbol, flags);
    let is_resolved = symbol.is_wanted(kind, number, flags);
    let is_there = has_entry_there(link, live, file, first_input, number, symbol, late);
    let is_local = is_local_entry(kind, symbol);
    let is_dynamic = is_dynamic_symbol(kind, number, symbol, late);
    let is_exported = exports(kind, number, symbol, flags);
    let taken = platform.allocate_resolution(flags);
    let entry = platform.symbol_entry();
    let name_len = symbol.name.len();
    FileShare {
        entries: sum.entries.plus_if(is_resolved, taken),
        symtab: sum.symtab.plus_if(is_there, is_local, entry, name_len),
        dynamic: sum.dynamic.plus_if(is_dynamic, entry, name_len),
        exports: sum.exports.plus_if(is_exported, entry, name_len),
    }
}

/// A sum with what a symbol of a file, with its number, takes: nothing where another one stands for it, whose flags aren't
/// looked at.
fn with_symbol<P: Platform>(
    sum: FileShare,
    platform: &P,
    given: Given<'_>,
    file: FileRef<'_>,
    first_input: usize,
    number: SymbolId,
    symbol: &InputSymbol,
) -> FileShare
    requires { IsLookedAt given.link.now (file_of file) first_input }
    ensures { (shares : List FileShare) → sum ≡ sum_of shares → result ≡ sum_of (shares
        ++ symbol_share (P.table_sizes platform.now) given.entry.link.now given.entry.live.now given.entry.told.now (file_of file.entry)
        (number, symbol.now) ∷ []) }
{
    if symbol.is_canonical(number) {
        with_own(sum, platform, given, file, first_input, number, symbol)
    } else {
        sum
    }
}

/// What some symbols of a file take, the first of them with this number. The file's first input section has the number before.
fn symbols_share<P: Platform>(
    platform: &P,
    given: Given<'_>,
    file: FileRef<'_>,
    first_input: usize,
    first: u32,
    symbols: &[InputSymbol],
) -> FileShare
    requires at { IsLookedAt given.link.now (file_of file) first_input }
    requires numbers { first + length symbols.now < 2 ^ 32 }
    ensures { result ≡ sum_of (map (symbol_share (P.table_sizes platform.now) given.entry.link.now given.entry.live.now
        given.entry.told.now (file_of file.entry)) (enumerate_from first symbols.now)) }
{
    let mut sum = FileShare::nothing();
    for (index, symbol) in symbols.iter().enumerate() {
        let number = SymbolId::from_u32(first + index as u32);
        sum = with_symbol(sum, platform, given, file, first_input, number, symbol);
    }
    sum
}

/// What all symbols of a file take.
fn file_share<P: Platform>(platform: &P, given: Given<'_>, file: FileRef<'_>) -> FileShare
    requires good { IsWellFormed given.link.now }
    requires there { file_in given.link.now.groups file.id ≡ Some file.file.now }
    ensures { result ≡ file_share (P.table_sizes platform.now) given.entry.link.now given.entry.live.now given.entry.told.now
        (file_of file.entry) }
{
    let symbols = file.file.symbols.as_slice();
    let first_input = first_input_of(given.link, file);
    match given.link.groups.symbol_id_range(file.id) {
        Some(numbers) => {
            let first = numbers.start().as_u32();
            symbols_share(platform, given, file, first_input, first, symbols)
        }
        None => FileShare::nothing(),
    }
}

/// What some symbols of a file take, and adds those that are commons that take bytes. The first of the symbols has this number,
/// the file's first input section the number before.
fn take_symbols<P: Platform>(
    commons: &mut Vec<Common>,
    platform: &P,
    given: Given<'_>,
    file: FileRef<'_>,
    first_input: usize,
    first: u32,
    symbols: &[InputSymbol],
) -> Result<FileShare, AllocError>
    requires at { IsLookedAt given.link.now (file_of file) first_input }
    requires numbers { first + length symbols.now < 2 ^ 32 }
    ensures share { IfOk result (λ share. share ≡ sum_of (map (symbol_share (P.table_sizes platform.now) given.entry.link.now
        given.entry.live.now given.entry.told.now (file_of file.entry)) (enumerate_from first symbols.now))) }
    ensures commons { OnOk result (commons.new.items ≡ commons.old.items
        ++ filter_map (common_of given.entry.live.now file.entry.file.now.kind) (enumerate_from first symbols.now)) }
{
    let kind = file.file.kind;
    let mut sum = FileShare::nothing();
    for (index, symbol) in symbols.iter().enumerate() {
        let number = SymbolId::from_u32(first + index as u32);
        sum = with_symbol(sum, platform, given, file, first_input, number, symbol);
        push_common(commons, given.live, kind, number, symbol)?;
    }
    Ok(sum)
}

/// What all symbols of a file take, and adds its commons that take bytes.
fn take_file<P: Platform>(
    commons: &mut Vec<Common>,
    platform: &P,
    given: Given<'_>,
    file: FileRef<'_>,
) -> Result<FileShare, AllocError>
    requires good { IsWellFormed given.link.now }
    requires there { file_in given.link.now.groups file.id ≡ Some file.file.now }
    ensures share { IfOk result (λ share. share ≡ file_share (P.table_sizes platform.now) given.entry.link.now given.entry.live.now
        given.entry.told.now (file_of file.entry)) }
    ensures commons { OnOk result (commons.new.items ≡ commons.old.items
        ++ commons_of given.entry.link.now given.entry.live.now (file_of file.entry)) }
{
    let symbols = file.file.symbols.as_slice();
    let first_input = first_input_of(given.link, file);
    match given.link.groups.symbol_id_range(file.id) {
        Some(numbers) => {
            let first = numbers.start().as_u32();
            take_symbols(commons, platform, given, file, first_input, first, symbols)
        }
        None => Ok(FileShare::nothing()),
    }
}

/// What of that doesn't wait for late marks, if something does.
fn early_if(waits: bool, share: FileShare) -> FileShare
    ensures { result ≡ (if waits then early_part share else share) }
{
    if waits { share.early_part() } else { share }
}

/// What a file takes first, and adds its commons that take bytes.
pub(crate) fn first_share<P: Platform>(
    commons: &mut Vec<Common>,
    platform: &P,
    link: &LinkInput,
    live: &Live,
    file: FileRef<'_>,
) -> Result<FileShare, AllocError>
    requires good { IsWellFormed link.now }
    requires there { file_in link.now.groups file.id ≡ Some file.file.now }
    ensures share { IfOk result (λ share. share ≡ first_share (P.table_sizes platform.now) link.now live.now (file_of file.entry)) }
    ensures commons { OnOk result (commons.new.items ≡ commons.old.items ++ commons_of link.now live.now (file_of file.entry)) }
{
    let told: &[bool] = &[];
    let share = take_file(commons, platform, Given { link, live, told }, file)?;
    Ok(early_if(file.file.kind.is_prelude(), share))
}

/// How many entries the table of local symbols has itself: an empty one, and in output that is linked again one for each output
/// section whose edges are told and each singleton.
fn own_locals(given: Given<'_>) -> u64
    requires { IsWellFormed given.link.now }
    ensures { result ≡ own_locals given.entry.link.now given.entry.live.now given.entry.told.now }
{
    if given.link.options.output.is_partial() {
        let (singletons, _) = singleton_sizes(given.link, given.live);
        1 + u64::from(told_count(given.link, given.told)) + u64::from(singletons)
    } else {
        1
    }
}

/// What the symbol table itself takes, where there is one.
fn table_share(given: Given<'_>, entry: u64) -> FileShare
    requires { IsWellFormed given.link.now }
    ensures { result ≡ table_share given.entry.link.now given.entry.live.now entry given.entry.told.now }
{
    let is_kept = !given.link.options.strip_all;
    let local = u128::from(entry).saturating_mul(u128::from(own_locals(given)));
    FileShare {
        symtab: SymtabShare {
            local: if_taken(is_kept, local),
            global: 0,
            names: if_taken(is_kept, 1),
        },
        ..FileShare::nothing()
    }
}

/// What a file takes in the symbol table and its names, the prelude with what the table itself takes.
pub(crate) fn whole_symtab<P: Platform>(
    platform: &P,
    given: Given<'_>,
    file: FileRef<'_>,
) -> SymtabShare
    requires good { IsWellFormed given.link.now }
    requires there { file_in given.link.now.groups file.id ≡ Some file.file.now }
    ensures { result ≡ whole_symtab (P.table_sizes platform.now) given.entry.link.now given.entry.live.now given.entry.told.now
        (file_of file.entry) }
{
    let share = file_share(platform, given, file);
    if file.file.kind.is_prelude() {
        let own = table_share(given, platform.symbol_entry());
        own.symtab.plus(share.symtab)
    } else {
        share.symtab
    }
}

/// What a file takes behind what it takes first.
fn late_share<P: Platform>(platform: &P, given: Given<'_>, file: FileRef<'_>) -> FileShare
    requires good { IsWellFormed given.link.now }
    requires there { file_in given.link.now.groups file.id ≡ Some file.file.now }
    ensures { result ≡ brought_late (P.table_sizes platform.now) given.entry.link.now given.entry.live.now given.entry.told.now
        (file_of file.entry) }
{
    if file.file.kind.is_prelude() {
        let own = table_share(given, platform.symbol_entry());
        own.plus(file_share(platform, given, file).late_part())
    } else {
        FileShare::nothing()
    }
}

/// What the symbols of all files bring first.
#[derive(Drop)]
pub struct SymbolShares {
    /// For each file, by group and index, what its symbols take in tables, of the prelude what no late mark changes.
    pub files: Vec<FileShare>,
    /// The commons that take bytes, in the order of their symbols.
    pub commons: Vec<Common>,
}

/// What symbols bring as far as it is known before it is known which sections are emitted: for each file what its symbols take in
/// tables, and all commons that take bytes. Looks at each symbol once, and takes 176 bytes for each file and 16 for each such
/// common (libwild: `allocate_resolution` and `finalise_symbol_sizes`, group by group).
pub fn symbol_shares<P: Platform>(
    alloc: Global,
    link: &LinkInput,
    platform: &P,
    live: &Live,
) -> Result<SymbolShares, AllocError>
    requires { IsWellFormed link.now }
    ensures files { IfOk result (λ shares. shares.files.items ≡ first_shares (P.table_sizes platform.now) link.now live.now) }
    ensures commons { IfOk result (λ shares. shares.commons.items ≡ all_commons link.now live.now) }
{
    let mut files = Vec::new(alloc);
    let mut commons = Vec::new(alloc);
    for file in link.groups.files() {
        let share = first_share(&mut commons, platform, link, live, file)?;
        files.push(share)?;
    }
    Ok(SymbolShares { files, commons })
}

/// What all files take behind what they take first.
fn late_shares<P: Platform>(platform: &P, given: Given<'_>) -> FileShare
    requires { IsWellFormed given.link.now }
    ensures { result ≡ all_brought_late (P.table_sizes platform.now) given.entry.link.now given.entry.live.now given.entry.told.now }
{
    let mut sum = FileShare::nothing();
    for file in given.link.groups.files() {
        sum = sum.plus(late_share(platform, given, file));
    }
    sum
}

/// What the prelude takes behind that, by the output sections whose edges are told: its entries in the symbol table and among the
/// dynamic symbols, late marks included, and what the symbol table has itself. Looks at each symbol of the prelude once, and in
/// output that is linked again at each input section; takes no memory (libwild: `PreludeLayoutState::finalise_sizes`).
pub fn mark_prelude<P: Platform>(
    link: &LinkInput,
    platform: &P,
    live: &Live,
    told: &[bool],
) -> FileShare
    requires { IsWellFormed link.now }
    ensures { result ≡ prelude_share (P.table_sizes platform.now) link.now live.now told.now }
{
    late_shares(platform, Given { link, live, told })
}

/// What some files take together.
pub(crate) fn sum_shares(shares: &[FileShare]) -> FileShare
    ensures { result ≡ sum_of shares.now }
{
    let mut sum = FileShare::nothing();
    for share in shares {
        sum = sum.plus(*share);
    }
    sum
}
