//! The numbers of symbols in the dynamic symbol table: two counters, which a walk over all symbols moves on.

ghost use Rattle.std.specs.Prelude.{◌≡◌, ◌+◌, ◌<◌, ℕ, List, Bool, Some, None, if◌then◌else◌, slice_get, true};
ghost use Rattle.lk_link.specs.Files.{first_some};
ghost use Rattle.lk_link.specs.OutputKinds.{is_loaded_dynamically};
ghost use Rattle.lk_link.specs.Walks.{file_of};
ghost use Rattle.lk_link.specs.WellFormed.{IsWellFormed};
ghost use Rattle.lk_link.specs.TableSizes.{TableSizes};
ghost use Rattle.lk_live.specs.declared.live.Live.{Live};
ghost use Rattle.lk_reach.specs.Units.{numbered_symbols};
ghost use Rattle.lk_tables.specs.Dynamic.{dynamic_index, dynamic_table};
ghost use Rattle.lk_tables.specs.DynamicCounters.{AreNumbersAt};
ghost use Rattle.lk_tables.specs.ShareWords.{first_shares, prelude_share};

use crate::dynamic::{exports, is_dynamic_symbol};
use crate::shares::{FileShare, sum_shares};
use crate::symbol_table::{flags_at, late_flags};
use lk_live::Live;
use lk_link::{FileRef, InputSymbol, LinkInput, SymbolId};

/// The next numbers in the dynamic symbol table, of which the table's own entry has 0. Both are 0 where no dynamic linker loads
/// the output, which has no such table.
#[derive(Clone, Copy, Debug, PartialEq, Eq)]
pub struct DynamicNumbers {
    /// That of the next dynamic symbol.
    pub dynamic: u32,
    /// That of the next export; at the first symbol, how many entries stand before the exports (libwild:
    /// `EpilogueLayout::dynsym_start_index`).
    pub export: u32,
}

impl DynamicNumbers {
    /// Those at the first symbol, by what files take first, and the prelude behind that.
    pub fn new(link: &LinkInput, shares: &[FileShare], prelude: FileShare) -> DynamicNumbers
        ensures { (sizes : TableSizes) (live : Live) (told : List Bool) → IsWellFormed link.now → shares.now ≡ first_shares sizes link.now live
            → prelude ≡ prelude_share sizes link.now live told → AreNumbersAt link.now live told 0 result }
    {
        if !link.options.output.is_loaded_dynamically() {
            return DynamicNumbers {
                dynamic: 0,
                export: 0,
            };
        }
        let count = sum_shares(shares).plus(prelude).dynamic.count;
        DynamicNumbers {
            dynamic: 1,
            export: count.min(4_294_967_294) as u32 + 1,
        }
    }

    /// The number of the next symbol, by the output sections whose edges are told: of its entry among the exports, else of that
    /// among the dynamic symbols; none where it has neither. Where no dynamic linker loads the output none has one, and nothing
    /// is looked at.
    pub fn take(
        &mut self,
        link: &LinkInput,
        live: &Live,
        told: &[bool],
        file: FileRef<'_>,
        number: SymbolId,
        symbol: &InputSymbol,
    ) -> Option<u32>
        requires good { IsWellFormed link.now }
        requires there { slice_get (numbered_symbols link.now.groups) number ≡ Some (file_of file, symbol.now) }
        requires stand { AreNumbersAt link.now live.now told.now number self.now }
        ensures index { result ≡ dynamic_index (dynamic_table link.now live.now told.now) number }
        ensures moved { AreNumbersAt link.now live.now told.now (number + 1) self.new }
    {
        if link.options.output.is_loaded_dynamically() {
            self.take_loaded(link, live, told, file, number, symbol)
        } else {
            None
        }
    }

    /// The same where a dynamic linker loads the output.
    fn take_loaded(
        &mut self,
        link: &LinkInput,
        live: &Live,
        told: &[bool],
        file: FileRef<'_>,
        number: SymbolId,
        symbol: &InputSymbol,
    ) -> Option<u32>
        requires good { IsWellFormed link.now }
        requires loaded { is_loaded_dynamically link.now.options.output ≡ true }
        requires there { slice_get (numbered_symbols link.now.groups) number ≡ Some (file_of file, symbol.now) }
        requires stand { AreNumbersAt link.now live.now told.now number self.now }
        ensures index { result ≡ dynamic_index (dynamic_table link.now live.now told.now) number }
        ensures moved { AreNumbersAt link.now live.now told.now (number + 1) self.new }
    {
        let kind = file.file.kind;
        let flags = flags_at(live.flags.as_slice(), number.as_usize());
        let late = late_flags(link, told, kind, number, symbol, flags);
        let is_dynamic = is_dynamic_symbol(kind, number, symbol, late);
        let is_exported = exports(kind, number, symbol, flags);
        let dynamic = take_if(&mut self.dynamic, is_dynamic);
        let exported = take_if(&mut self.export, is_exported);
        first_of(exported, dynamic)
    }
}

/// The next number, if it is taken; it moves on then.
fn take_if(next: &mut u32, is_taken: bool) -> Option<u32>
    requires room { next.now < 4294967295 }
    ensures number { result ≡ (if is_taken then Some next.old else None) }
    ensures moved { next.new ≡ next.old + (if is_taken then 1 else 0) }
{
    let number = *next;
    if is_taken {
        *next += 1;
        Some(number)
    } else {
        None
    }
}

/// The first of two numbers that is there.
#[tactic(auto, unfolding(lk_link::specs::Files::first_some))]
fn first_of(first: Option<u32>, other: Option<u32>) -> Option<u32>
    ensures { result ≡ first_some first other }
{
    match first {
        Some(number) => Some(number),
        None => other,
    }
}
