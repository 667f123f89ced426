//! Which symbols are told to the dynamic linker.

ghost use Rattle.std.specs.Prelude.{◌≡◌};
ghost use Rattle.std.specs.Option.{option_copied};
ghost use Rattle.lk_reach.specs.Exports.{can_export, export_mode, is_exportable, is_exported, is_exported_whole, is_listed, is_own_definition, is_seen_outside, is_shared, list_for, mode_of};

use lk_link::{
    FileId, InputFile, InputSection, InputSymbol, LinkInput, Names, Options, OutputKind, SymbolId,
    ValueFlags,
};

/// Which symbols of a file are exported (libwild: `ExportSymbolsMode`).
#[derive(Clone, Copy, Debug, PartialEq, Eq)]
pub enum ExportSymbolsMode {
    /// Those whose names are in the list of exports.
    MatchingExportList,
    /// All that can be, but for a restrictive list.
    All,
}

/// Which symbols of a file are exported; none where the file exports none, or isn't there (libwild: `export_symbols_mode`).
pub fn export_symbols_mode(link: &LinkInput, file: FileId) -> Option<ExportSymbolsMode>
    ensures { result ≡ export_mode link.now file }
{
    let file = link.groups.file(file)?;
    mode_of(&link.options, file)
}

/// Whether a symbol, which has these flags, can be exported: it stands for itself, is defined and seen from outside, and a list
/// of exports that counts has its name. Takes logarithmic time (libwild: `can_export_global_def`).
pub fn can_export_global_def(
    link: &LinkInput,
    symbol: SymbolId,
    flags: ValueFlags,
    mode: ExportSymbolsMode,
) -> bool
    ensures { result ≡ can_export link.now symbol flags mode }
{
    match link.groups.symbol(symbol) {
        Some(own) => is_exportable(list_for(&link.options, mode), symbol, own, flags),
        None => false,
    }
}

/// Which symbols of a file are exported: all that can be, those of the list, or none.
pub(crate) fn mode_of(options: &Options, file: &InputFile) -> Option<ExportSymbolsMode>
    ensures { result ≡ mode_of options.now file.now }
{
    let dynamic = options.output.is_loaded_dynamically();
    if is_exported_whole(options, file) || (dynamic && options.export_all) {
        return Some(ExportSymbolsMode::All);
    }
    if dynamic && options.export_list.is_some() {
        return Some(ExportSymbolsMode::MatchingExportList);
    }
    None
}

/// Whether a shared object exports all of a file: of one that is out of no archive, or whose symbols are exported all the same.
fn is_exported_whole(options: &Options, file: &InputFile) -> bool
    ensures { result ≡ is_exported_whole options.now file.now }
{
    is_shared(options.output) && (!file.archive || file.export)
}

/// Whether a shared object is made.
fn is_shared(output: OutputKind) -> bool
    ensures { result ≡ is_shared output }
{
    matches!(output, OutputKind::SharedObject)
}

/// Whether a symbol with its number is a definition of its own.
pub(crate) fn is_own_definition(symbol: SymbolId, own: &InputSymbol) -> bool
    ensures { result ≡ is_own_definition symbol own.now }
{
    own.is_canonical(symbol) && !own.at.is_undefined()
}

/// Whether a symbol is seen from outside: neither local nor hidden, nor downgraded by its flags.
fn is_seen_outside(own: &InputSymbol, flags: ValueFlags) -> bool
    ensures { result ≡ is_seen_outside own.now flags }
{
    !own.local && !own.hidden && !flags.is_downgraded_to_local()
}

/// The list that says which names are exported, where one does.
pub(crate) fn list_for(options: &Options, mode: ExportSymbolsMode) -> Option<&Names>
    ensures { option_copied result ≡ list_for options.now mode }
{
    match mode {
        ExportSymbolsMode::MatchingExportList => options.export_list.as_ref(),
        ExportSymbolsMode::All if options.restrictive => options.export_list.as_ref(),
        ExportSymbolsMode::All => None,
    }
}

/// Whether a list, if there is one, has a name.
fn is_listed(list: Option<&Names>, name: &str) -> bool
    ensures { result ≡ is_listed (option_copied list.entry) name.now }
{
    match list {
        Some(names) => names.contains(name),
        None => true,
    }
}

/// Whether a symbol with its number, which has these flags, can be exported, where a list says so.
fn is_exportable(
    list: Option<&Names>,
    symbol: SymbolId,
    own: &InputSymbol,
    flags: ValueFlags,
) -> bool
    ensures { result ≡ is_exportable (option_copied list.entry) symbol own.now flags }
{
    is_own_definition(symbol, own)
        && is_seen_outside(own, flags)
        && is_listed(list, own.name.as_str())
}

/// Whether an object with these sections exports a symbol of its own: one that can be, outside discarded sections.
pub(crate) fn is_exported(
    list: Option<&Names>,
    sections: &[InputSection],
    symbol: SymbolId,
    own: &InputSymbol,
) -> bool
    ensures { result ≡ is_exported (option_copied list.entry) sections.now (symbol, own.now) }
{
    !own.at.is_in_discarded(sections) && is_exportable(list, symbol, own, own.flags)
}
