//! What references are worth.

ghost use Rattle.std.specs.Prelude.{◌≡◌};
ghost use Rattle.lk_image.specs.Ready.{IsReady};
ghost use Rattle.lk_image.specs.References.{reference_value, resolved_value};

use lk_layout::Layout;
use lk_link::ids::SymbolId;
use lk_link::link::LinkInput;
use lk_merge::get_merged_string_output_address;

/// What a reference to a symbol, with an addend, is worth: its address in merged data, if the symbol stands there, else its value and the
/// addend. Sums wrap. Takes logarithmic time.
#[tactic(auto, unfolding(crate::specs::References::reference_value))]
pub(crate) fn reference_value(
    link: &LinkInput,
    layout: &Layout<'_>,
    symbol: SymbolId,
    addend: i64,
) -> u64
    requires ready { IsReady link.now layout.now }
    ensures { result ≡ reference_value link.now layout.now symbol addend }
{
    let merged = get_merged_string_output_address(
        link,
        symbol,
        addend,
        layout.merged_strings(),
        layout.merged_string_start_addresses(),
        false,
    );
    match merged {
        Ok(Some(address)) => address,
        Ok(None) => resolved_value(layout, symbol, addend),
        Err(_) => 0,
    }
}

/// The value of a symbol and an addend, 0 for the value of one without a resolution.
fn resolved_value(layout: &Layout<'_>, symbol: SymbolId, addend: i64) -> u64
    ensures { result ≡ resolved_value layout.now symbol addend }
{
    let value = match layout.symbol_resolutions().get(symbol) {
        Some(resolution) => resolution.raw_value,
        None => 0,
    };
    value.wrapping_add(addend.cast_unsigned())
}
