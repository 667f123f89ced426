//! What redirects come to when all is placed.
//!
//! Those of the prelude and of scripts are evaluated one after the other by their symbols, and each value is set where the values of
//! symbols are kept, so that those behind it read it there. Takes time for each file, for each symbol of the prelude and of scripts,
//! and for each token of their expressions.

ghost use Rattle.std.specs.Prelude.{◌≡◌, ◌+◌, ◌<◌, ◌^◌, ◌∷◌, [], All, IfOk, OnOk, length, map, option_map};
ghost use Rattle.lk_link.specs.Files.{AreNumbered};
ghost use Rattle.lk_link.specs.SymbolRules.{file_symbols};
ghost use Rattle.lk_link.specs.Symbols.{symbol_count};
ghost use Rattle.lk_link.specs.WellFormed.{IsWellFormed};
ghost use Rattle.lk_expressions.specs.Constants.{HasShallowRedirects, IsShallowPlacement};
ghost use Rattle.lk_expressions.specs.Expressions.{IsShallow};
ghost use Rattle.lk_own_symbols.specs.AtHand.{all_placed, redirect_in};
ghost use Rattle.lk_own_symbols.specs.Redirects.{GivesRedirected, RedirectsHold, has_location, has_redirects, is_redirect, location, records_for};
ghost use Rattle.lk_own_symbols.specs.Redirects.{redirect_of, redirect_value, redirected, redirected_by, redirects_from, redirects_of, values_before};

use crate::placed_link::PlacedLink;
use crate::symbol_values::SymbolValues;
use crate::values_before::ValuesBefore;
use lk_expressions::{KnownValues, LateSurroundings, evaluate_expression};
use lk_link::{
    Expression, FileKind, InputFile, InputSymbol, LinkInput, Place, SymbolId, SymbolLoc,
    SymbolPlacement,
};
use lk_place::error::PlaceError;
use lk_place::laws::expressions_are_shallow;
use lk_place::{NoValue, OutputRecordLayout};

/// A redirect that is evaluated when all is placed.
#[derive(Clone, Copy)]
pub(crate) struct RedirectRef<'a> {
    symbol: SymbolId,
    /// Whether a script has it.
    is_script: bool,
    expression: &'a Expression,
    loc: SymbolLoc,
    /// Whether it counts only if something wants it.
    provide: bool,
}

/// Whether redirects of files of a kind are evaluated: those of the prelude and of scripts.
fn has_redirects(kind: FileKind) -> bool
    ensures { result ≡ has_redirects kind }
{
    kind.is_prelude() || kind.is_script()
}

/// The redirect that a symbol of a file is, with this number, if it is one that is evaluated.
fn redirect_of<'a>(
    number: SymbolId,
    file: &InputFile,
    symbol: &'a InputSymbol,
) -> Option<RedirectRef<'a>>
    ensures { option_map redirect_in result ≡ redirect_of number (file.now, symbol.now) }
{
    if !has_redirects(file.kind) || !symbol.is_canonical(number) {
        return None;
    }
    match &symbol.at {
        SymbolPlacement::Redirect {
            expression,
            loc,
            provide,
        } => Some(RedirectRef {
            symbol: number,
            is_script: file.kind.is_script(),
            expression,
            loc: *loc,
            provide: *provide,
        }),
        _ => None,
    }
}

/// Whether the symbol with this number is a redirect that is evaluated. Takes logarithmic time.
pub(crate) fn is_redirect(link: &LinkInput, number: SymbolId) -> bool
    requires { AreNumbered link.now.groups }
    ensures { result ≡ is_redirect link.now.groups number }
{
    match link.groups.symbol_in_file(number) {
        Some(found) => redirect_of(number, found.file.file, found.symbol).is_some(),
        None => false,
    }
}

/// The records of output sections that a redirect reads.
fn records_for<'a>(placed: &PlacedLink<'a>, redirect: &RedirectRef<'_>) -> &'a [OutputRecordLayout]
    ensures { result.now ≡ records_for (all_placed placed.now) (redirect_in redirect.now) }
{
    if redirect.is_script && has_location(redirect.loc) {
        placed.sections
    } else {
        placed.merged
    }
}

/// Whether the location counter stands anywhere.
fn has_location(loc: SymbolLoc) -> bool
    ensures { result ≡ has_location loc }
{
    !matches!(loc, SymbolLoc::None)
}

/// Where the location counter stands, by what it stood at and the records of output sections.
fn location(counters: &[u64], records: &[OutputRecordLayout], loc: SymbolLoc) -> Option<u64>
    ensures { result ≡ location counters.now records.now loc }
{
    match loc {
        SymbolLoc::None => None,
        SymbolLoc::SectionStart(section) => records
            .get(section.as_usize())
            .map(|record| record.mem_offset),
        SymbolLoc::SectionEnd(section) => records
            .get(section.as_usize())
            .map(|record| record.mem_end()),
        SymbolLoc::Counter(number) => counters.get(number as usize).copied(),
    }
}

/// The value of a redirect's expression, by the values of symbols so far, or why it has none.
fn redirect_value<V: KnownValues>(
    placed: &PlacedLink<'_>,
    redirect: &RedirectRef<'_>,
    values: &V,
) -> Result<u64, NoValue>
    requires numbered { AreNumbered placed.now.link.now.groups }
    requires shallow { IsShallow redirect.now.expression.now }
    ensures { result ≡ redirect_value (all_placed placed.now) (redirect_in redirect.now)
        (values_before placed.now.link.now.groups redirect.now.symbol (V.value_of values.now)) }
{
    let records = records_for(placed, redirect);
    let dot = location(placed.counters, records, redirect.loc);
    let before = ValuesBefore {
        link: placed.link,
        own: redirect.symbol,
        values,
    };
    let known = LateSurroundings {
        link: placed.link,
        own: redirect.symbol,
        dot,
        headers: placed.headers,
        regions: placed.regions,
        sections: records,
        values: &before,
    };
    evaluate_expression(&known, redirect.expression)
}

/// Sets the value that a redirect comes to, unless it is left out.
fn evaluate_redirect<V: SymbolValues>(
    placed: &PlacedLink<'_>,
    redirect: &RedirectRef<'_>,
    values: &mut V,
) -> Result<(), PlaceError>
    requires numbered { AreNumbered placed.now.link.now.groups }
    requires shallow { IsShallow redirect.now.expression.now }
    ensures { GivesRedirected (redirected_by (record { value_of = V.value_of; with_value = V.with_value }) (all_placed placed.now)
        values.old (redirect_in redirect.now)) result values.new }
{
    if redirect.provide && values.value(redirect.symbol).is_none() {
        return Ok(());
    }
    match redirect_value(placed, redirect, &*values) {
        Ok(value) => {
            values.set_value(redirect.symbol, value);
            Ok(())
        }
        Err(cause) => Err(PlaceError::Expression {
            place: Place::Symbol(redirect.symbol.as_usize()),
            cause,
        }),
    }
}

/// Sets the value of a symbol of a file, with this number, if it is a redirect that is evaluated.
fn evaluate_symbol<V: SymbolValues>(
    placed: &PlacedLink<'_>,
    file: &InputFile,
    number: SymbolId,
    symbol: &InputSymbol,
    values: &mut V,
) -> Result<(), PlaceError>
    requires numbered { AreNumbered placed.now.link.now.groups }
    requires shallow { IsShallowPlacement symbol.now.at }
    ensures { GivesRedirected (redirected (record { value_of = V.value_of; with_value = V.with_value }) (all_placed placed.now)
        values.old (redirects_from number ((file.now, symbol.now) ∷ []))) result values.new }
{
    match redirect_of(number, file, symbol) {
        Some(redirect) => evaluate_redirect(placed, &redirect, values),
        None => Ok(()),
    }
}

/// Sets the values of the redirects of a file, whose first symbol has this number.
fn evaluate_symbols<V: SymbolValues>(
    placed: &PlacedLink<'_>,
    file: &InputFile,
    first: u32,
    values: &mut V,
) -> Result<(), PlaceError>
    requires numbered { AreNumbered placed.now.link.now.groups }
    requires shallow { All (λ x. IsShallowPlacement x.at) file.now.symbols }
    requires few { first + length file.now.symbols < 2 ^ 32 }
    ensures { GivesRedirected (redirected (record { value_of = V.value_of; with_value = V.with_value }) (all_placed placed.now)
        values.old (redirects_from first (map (λ x. (file.now, x)) file.now.symbols))) result values.new }
{
    for (index, symbol) in file.symbols.as_slice().iter().enumerate() {
        let number = SymbolId::from_u32(first + index as u32);
        evaluate_symbol(placed, file, number, symbol, values)?;
    }
    Ok(())
}

/// The same, where none is looked for in files whose redirects aren't evaluated.
fn evaluate_file<V: SymbolValues>(
    placed: &PlacedLink<'_>,
    file: &InputFile,
    first: u32,
    values: &mut V,
) -> Result<(), PlaceError>
    requires numbered { AreNumbered placed.now.link.now.groups }
    requires shallow { All (λ x. IsShallowPlacement x.at) file.now.symbols }
    requires few { first + length file.now.symbols < 2 ^ 32 }
    ensures { GivesRedirected (redirected (record { value_of = V.value_of; with_value = V.with_value }) (all_placed placed.now)
        values.old (redirects_from first (map (λ x. (file.now, x)) file.now.symbols))) result values.new }
{
    if has_redirects(file.kind) {
        evaluate_symbols(placed, file, first, values)
    } else {
        Ok(())
    }
}

/// Sets the values of the redirects of some files, whose first symbol has this number. Answers the number of the symbol behind them.
fn evaluate_files<V: SymbolValues>(
    placed: &PlacedLink<'_>,
    files: &[InputFile],
    first: u32,
    values: &mut V,
) -> Result<u32, PlaceError>
    requires numbered { AreNumbered placed.now.link.now.groups }
    requires shallow { All (λ f. All (λ x. IsShallowPlacement x.at) f.symbols) files.now }
    requires few { first + symbol_count files.now < 2 ^ 32 }
    ensures redirected { GivesRedirected (redirected (record { value_of = V.value_of; with_value = V.with_value }) (all_placed placed.now)
        values.old (redirects_from first (file_symbols files.now))) result values.new }
    ensures behind { IfOk result (λ next. next ≡ first + symbol_count files.now) }
{
    let mut number = first;
    for file in files {
        evaluate_file(placed, file, number, values)?;
        number += file.symbols.len() as u32;
    }
    Ok(number)
}

/// Sets the values that the redirects of a link come to, where it is kept what symbols are worth; those of other symbols are there
/// already, and one that has none gets none. Refuses the first whose expression has no value, by its symbol (libwild:
/// `update_redirect_resolutions`).
pub fn evaluate_redirects<V: SymbolValues>(
    placed: &PlacedLink<'_>,
    values: &mut V,
) -> Result<(), PlaceError>
    requires well_formed { IsWellFormed placed.now.link.now }
    ensures redirected { GivesRedirected (redirected (record { value_of = V.value_of; with_value = V.with_value }) (all_placed placed.now)
        values.old (redirects_of placed.now.link.now.groups)) result values.new }
    ensures hold { OnOk result (RedirectsHold (all_placed placed.now) (V.value_of values.old) (V.value_of values.new)) }
{
    // Its contract says that no redirect's expression is too deep.
    expressions_are_shallow();
    let mut number = 0;
    let groups = placed.link.groups.as_slice();
    for files in groups {
        number = evaluate_files(placed, files.as_slice(), number, values)?;
    }
    Ok(())
}
