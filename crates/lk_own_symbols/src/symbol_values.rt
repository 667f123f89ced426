//! Where the values of symbols are kept.

use lk_expressions::KnownValues;
use lk_link::SymbolId;

/// Values of symbols, which can be set. Redirects come to their values in it, so no other list of values is made for them.
pub trait SymbolValues: KnownValues {
    ghost use Rattle.std.specs.Prelude.{◌≡◌, ◌==◌, ℕ, if◌then◌else◌, option_map};

    /// What is kept where a symbol that has a value gets this one; the same as before where it has none.
    ghost with_value: { Self → ℕ → ℕ → Self };

    /// Sets the value of a symbol, if it has one.
    fn set_value(&mut self, symbol: SymbolId, value: u64)
        ensures { self.new ≡ with_value self.old symbol value };

    /// No other symbol gets another value with it, and none gets or loses one.
    ghost sets_alone: { (kept : Self) (s value t : ℕ) → Self.value_of (with_value kept s value) t
        ≡ (if t == s then option_map (λ _. value) (Self.value_of kept t) else Self.value_of kept t) };
}
