//! Laws of expressions, each proved as the contract of a function that does nothing.

ghost use Rattle.lk_expressions.specs.ExpressionLaws.{ConstantsGoByThoseBefore, UnnamedReadNoSymbols};

/// A law: each symbol has its place among the constants, and what stands there goes by the constants of the symbols before it.
pub fn constants_go_by_those_before()
    ensures { ConstantsGoByThoseBefore }
{}

/// A law: an expression that names no symbol has the same value whatever is known of symbols, while sections are placed and when all is.
pub fn unnamed_read_no_symbols()
    ensures { UnnamedReadNoSymbols }
{}
