//! The values of symbols that a redirect may read.

ghost use Rattle.lk_link.specs.Files.{AreNumbered};

use crate::redirects::is_redirect;
use lk_expressions::KnownValues;
use lk_link::{LinkInput, SymbolId};

/// Those that are known so far, of redirects only those before it.
#[derive(Drop)]
pub(crate) struct ValuesBefore<'a, 'l, V: KnownValues> {
    pub(crate) link: &'l LinkInput,
    /// The redirect.
    pub(crate) own: SymbolId,
    pub(crate) values: &'a V,
    ghost numbered: { AreNumbered link.now.groups },
}

impl<V: KnownValues> KnownValues for ValuesBefore<'_, '_, V> {
    ghost use Rattle.lk_own_symbols.specs.Redirects.{values_before};

    ghost value_of = { λ known. values_before known.link.now.groups known.own (V.value_of known.values.now) };

    fn value(&self, symbol: SymbolId) -> Option<u64> {
        if self.own.as_u32() <= symbol.as_u32() && is_redirect(self.link, symbol) {
            None
        } else {
            self.values.value(symbol)
        }
    }
}
