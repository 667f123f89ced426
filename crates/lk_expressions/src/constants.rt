//! Redirects that are constants.
//!
//! A redirect of the prelude or of a script is a constant where its expression speaks of nothing that is placed: of numbers,
//! regions, headers, symbols that are numbers, and constants before it. The symbols are walked once in their order, and each value
//! is kept, so none is looked for twice.

ghost use Rattle.std.specs.Prelude.{◌≡◌, ◌==◌, All, IfOk, OnOk, Some, fold, is_some, map, unwrap_or};
ghost use Rattle.lk_link.specs.SymbolRules.{file_symbols};
ghost use Rattle.lk_expressions.specs.Constants.{HasShallowRedirects, IsShallowPlacement, constants_of, has_constants, with_next};
ghost use Rattle.lk_expressions.specs.KnownThen.{before_of};

use crate::evaluation::{Surroundings, evaluate};
use crate::known::{item, length, origin};
use crate::no_value::NoValue;
use lk_link::expression::{Expression, Operand, Token};
use lk_link::file::InputFile;
use lk_link::ids::SymbolId;
use lk_link::link::LinkInput;
use lk_link::symbol::{InputSymbol, SymbolPlacement};
use std::alloc::{AllocError, Global};

/// What a constant is worth.
pub type Constant = Result<u64, NoValue>;

/// What is known before anything is placed.
#[derive(Clone, Copy)]
pub(crate) struct BeforeAll<'a> {
    pub(crate) link: &'a LinkInput,
    pub(crate) headers: u64,
    /// Origin and length of each region.
    pub(crate) regions: &'a [(u64, u64)],
}

/// The constants so far, by symbol.
#[derive(Clone, Copy)]
pub(crate) struct Constants<'a, 'l> {
    pub(crate) known: &'a BeforeAll<'l>,
    pub(crate) so_far: &'a [Option<Constant>],
}

impl Constants<'_, '_> {
    ghost use Rattle.lk_link.specs.ExpressionRules.{all_operands, operand_passes};
    ghost use Rattle.lk_expressions.specs.Constants.{constant_definition, constant_expression, constant_operand};
    ghost use Rattle.lk_expressions.specs.Constants.{constant_redirect, constant_symbol, next_constant};
    ghost use Rattle.lk_expressions.specs.Expressions.{IsShallow};

    /// A symbol that stands for itself, if it is a constant, by its placement.
    fn placed(&self, definition: SymbolId, placement: &SymbolPlacement) -> Option<Constant>
        ensures { result ≡ constant_symbol self.now.so_far.now definition placement.now }
    {
        match placement {
            SymbolPlacement::Absolute(number) => Some(Ok(*number)),
            SymbolPlacement::Redirect { .. } => item(self.so_far, definition.as_usize()),
            _ => None,
        }
    }

    /// A symbol that stands for itself, if it is a constant.
    fn definition(&self, definition: SymbolId) -> Option<Constant>
        ensures { result ≡ constant_definition self.now.so_far.now self.now.known.now.link.now.groups (Some definition) }
    {
        match self.known.link.groups.symbol(definition) {
            None => None,
            Some(symbol) => self.placed(definition, &symbol.at),
        }
    }

    /// An operand, if it is a constant.
    fn operand(&self, operand: Operand) -> Option<Constant>
        ensures { result ≡ constant_operand (before_of self.now.known.now) self.now.so_far.now operand }
    {
        match operand {
            Operand::Number(number) => Some(Ok(number)),
            Operand::Symbol(symbol) => match self.known.link.groups.definition(symbol) {
                None => None,
                Some(definition) => self.definition(definition),
            },
            Operand::Dot | Operand::Address(_) | Operand::SizeOf(_) => None,
            Operand::Origin(region) => Some(origin(self.known.regions, region)),
            Operand::Length(region) => Some(length(self.known.regions, region)),
            Operand::SizeOfHeaders => Some(Ok(self.known.headers)),
        }
    }

    /// Whether a token is no operand that isn't a constant.
    fn is_constant(&self, token: Token) -> bool
        ensures { result ≡ operand_passes (λ o. is_some (constant_operand (before_of self.now.known.now) self.now.so_far.now o)) token }
    {
        match token {
            Token::Operand(operand) => self.operand(operand).is_some(),
            Token::Operator(_) => true,
        }
    }

    /// Whether all operands of an expression are constants.
    #[tactic(auto, using(crate::proofs::OperandTests::all_tokens))]
    fn are_constants(&self, expression: &Expression) -> bool
        ensures { let known = before_of self.now.known.now in
            result ≡ all_operands (λ o. is_some (constant_operand known self.now.so_far.now o)) expression.now }
    {
        let tokens = expression.tokens();
        for token in tokens {
            if !self.is_constant(*token) {
                return false;
            }
        }
        true
    }

    /// The value of an expression, if all its operands are constants.
    fn expression(&self, expression: &Expression) -> Option<Constant>
        requires { IsShallow expression.now }
        ensures { result ≡ constant_expression (before_of self.now.known.now) self.now.so_far.now expression.now }
    {
        if self.are_constants(expression) {
            Some(evaluate(self, expression))
        } else {
            None
        }
    }

    /// What a redirect is worth, if it is a constant.
    fn redirect(&self, placement: &SymbolPlacement) -> Option<Constant>
        requires { IsShallowPlacement placement.now }
        ensures { result ≡ constant_redirect (before_of self.now.known.now) self.now.so_far.now placement.now }
    {
        match placement {
            SymbolPlacement::Redirect { expression, .. } => self.expression(expression),
            _ => None,
        }
    }

    /// What the symbol behind those so far is worth, if it is a constant redirect.
    fn next(&self, file: &InputFile, symbol: &InputSymbol) -> Option<Constant>
        requires { IsShallowPlacement symbol.now.at }
        ensures { result ≡ next_constant (before_of self.now.known.now) self.now.so_far.now file.now symbol.now }
    {
        if has_constants(file) && stands_for_itself(symbol.def, self.so_far.len()) {
            self.redirect(&symbol.at)
        } else {
            None
        }
    }
}

impl Surroundings for Constants<'_, '_> {
    ghost use Rattle.lk_expressions.specs.Constants.{constant_operand};
    ghost use Rattle.lk_expressions.specs.KnownThen.{before_of};
    ghost use Rattle.lk_expressions.specs.Surroundings.{constant_value};

    ghost worth = { λ c o. constant_value (constant_operand (before_of c.known.now) c.so_far.now o) };

    fn value(&self, operand: Operand) -> Result<u64, NoValue> {
        match self.operand(operand) {
            None => Err(NoValue::NoAddress),
            Some(value) => value,
        }
    }
}

/// Whether redirects of a file can be constants.
fn has_constants(file: &InputFile) -> bool
    ensures { result ≡ has_constants file.now }
{
    file.kind.is_prelude() || file.kind.is_script()
}

/// Whether a symbol with this number stands for itself.
fn stands_for_itself(definition: Option<SymbolId>, number: usize) -> bool
    ensures { result ≡ (unwrap_or definition number == number) }
{
    match definition {
        None => true,
        Some(definition) => definition.as_usize() == number,
    }
}

/// Adds the symbols of a file to the constants so far.
fn push_file(
    known: &BeforeAll,
    file: &InputFile,
    constants: &mut Vec<Option<Constant>>,
) -> Result<(), AllocError>
    requires { All (λ x. IsShallowPlacement x.at) file.now.symbols }
    ensures { OnOk result (constants.new.items
        ≡ fold (with_next (before_of known.now)) constants.old.items (map (λ x. (file.now, x)) file.now.symbols)) }
{
    let symbols = file.symbols.as_slice();
    for symbol in symbols {
        let so_far = constants.as_slice();
        let before = Constants {
            known: &*known,
            so_far,
        };
        let next = before.next(file, symbol);
        constants.push(next)?;
    }
    Ok(())
}

/// Adds the symbols of some files.
fn push_files(
    known: &BeforeAll,
    files: &[InputFile],
    constants: &mut Vec<Option<Constant>>,
) -> Result<(), AllocError>
    requires { All (λ f. All (λ x. IsShallowPlacement x.at) f.symbols) files.now }
    ensures { OnOk result (constants.new.items ≡ fold (with_next (before_of known.now)) constants.old.items (file_symbols files.now)) }
{
    for file in files {
        push_file(known, file, constants)?;
    }
    Ok(())
}

/// What each symbol is worth that is a constant redirect, by symbol; none for others. `headers` is the bytes of the headers, and
/// `regions` has the origin and the length of each region. Takes time for each symbol and each token of redirects.
pub fn constant_redirects(
    alloc: Global,
    link: &LinkInput,
    headers: u64,
    regions: &[(u64, u64)],
) -> Result<Vec<Option<Constant>>, AllocError>
    requires { HasShallowRedirects link.now.groups }
    ensures { IfOk result (λ all. all.items ≡ constants_of
        (record { groups = link.now.groups; headers = headers; regions = regions.now })) }
{
    let known = BeforeAll {
        link,
        headers,
        regions,
    };
    let mut constants = Vec::with_capacity(alloc, link.groups.symbol_count() as usize)?;
    let groups = link.groups.as_slice();
    for files in groups {
        push_files(&known, files.as_slice(), &mut constants)?;
    }
    Ok(constants)
}
