//! The bytes of the tables, first and whole, by what files take.

ghost use Rattle.std.specs.Prelude.{◌≡◌, ℕ, ◌+◌, ◌*◌, List, Bool, if◌then◌else◌, length, sum_by};
ghost use Rattle.std.specs.List.{zip};
ghost use Rattle.lk_link.specs.PartRules.{is_part, table_parts};
ghost use Rattle.lk_link.specs.TableSizes.{TableSizes};
ghost use Rattle.lk_live.specs.declared.live.Live.{Live};
ghost use Rattle.lk_tables.specs.HeaderParts.{CountsSections, emitted_name_bytes, told_sum};
ghost use Rattle.lk_tables.specs.ShareSteps.{dynamic_share, sum_of};
ghost use Rattle.lk_tables.specs.ShareWords.{first_shares, prelude_share};
ghost use Rattle.lk_tables.specs.TableLists.{TableLists, first_tables, table_bytes, whole_tables};
ghost use Rattle.lk_tables.specs.Totals.{totals_of};
ghost use Rattle.lk_tables.specs.TotalSteps.{all_totals, bytes_if, dynamic_total, totals_by};

use crate::header_info::HeaderInfo;
use crate::headers::{HeaderSizes, header_sizes};
use crate::shares::{DynamicShare, FileShare, dynamic_share, sum_shares};
use lk_link::{LinkInput, NamedParts, PartId, Platform};

/// Bytes of the tables; a sum past 2^128 - 1 is given as that.
#[derive(Clone, Copy, Debug, PartialEq, Eq)]
pub struct TableTotals {
    pub got: u128,
    pub plt: u128,
    pub symtab_local: u128,
    pub symtab_global: u128,
    pub strtab: u128,
    pub dynsym: u128,
    pub dynstr: u128,
    pub file_header: u128,
    pub program_headers: u128,
    pub section_headers: u128,
    pub shstrtab: u128,
}

/// What the dynamic symbol table takes, where there is one, by what it takes itself and what files bring.
fn dynamic_total(link: &LinkInput, own: DynamicShare, sum: FileShare) -> DynamicShare
    ensures { result ≡ dynamic_total link.now own sum }
{
    if link.options.output.is_loaded_dynamically() {
        own.plus(sum.dynamic).plus(sum.exports)
    } else {
        DynamicShare::nothing()
    }
}

/// The bytes of the tables, by what files bring, what the dynamic symbol table takes, and headers.
fn totals_by(sum: FileShare, dynamic: DynamicShare, headers: HeaderSizes) -> TableTotals
    ensures { result ≡ totals_by sum dynamic headers }
{
    TableTotals {
        got: sum.entries.got,
        plt: sum.entries.plt,
        symtab_local: sum.symtab.local,
        symtab_global: sum.symtab.global,
        strtab: sum.symtab.names,
        dynsym: dynamic.entries,
        dynstr: dynamic.names,
        file_header: u128::from(headers.file_header),
        program_headers: headers.program_headers,
        section_headers: headers.section_headers,
        shstrtab: headers.shstrtab,
    }
}

/// The bytes that the tables take as far as it is known before it is known which sections are emitted, by what files take first.
/// Takes no memory.
pub fn first_totals(link: &LinkInput, shares: &[FileShare]) -> TableTotals
    ensures { (sizes : TableSizes) (live : Live) → shares.now ≡ first_shares sizes link.now live
        → result ≡ totals_of (first_tables sizes link.now live) }
{
    let sum = sum_shares(shares);
    let dynamic = dynamic_total(link, DynamicShare::nothing(), sum);
    totals_by(sum, dynamic, HeaderSizes::nothing())
}

/// The bytes that the tables take, by what files take first, what the prelude takes behind that, and which sections and segments
/// have headers. Looks at each event once; takes no memory (libwild: `EpilogueLayoutState::apply_late_size_adjustments`, with
/// `PreludeLayoutState::finalise_sizes`).
pub fn whole_totals<P: Platform>(
    link: &LinkInput,
    platform: &P,
    shares: &[FileShare],
    prelude: FileShare,
    header: &HeaderInfo,
) -> TableTotals
    ensures headers { result.section_headers
        ≡ told_sum ((P.table_sizes platform.now).section_header * header.now.num_output_sections_with_content) }
    ensures names { result.shstrtab
        ≡ told_sum (emitted_name_bytes link.now header.now.emitted + header.now.partial_link_section_name_bytes) }
    ensures all { (live : Live) (told : List Bool) → CountsSections link.now live header.now
        → shares.now ≡ first_shares (P.table_sizes platform.now) link.now live
        → prelude ≡ prelude_share (P.table_sizes platform.now) link.now live told
        → result ≡ totals_of (whole_tables (P.table_sizes platform.now) link.now live told header.now.emitted header.now.active_segment_ids) }
{
    let sum = sum_shares(shares).plus(prelude);
    let own = dynamic_share(true, platform.symbol_entry(), 0);
    let dynamic = dynamic_total(link, own, sum);
    totals_by(sum, dynamic, header_sizes(link, platform, header))
}

/// The bytes of the tables, in the order in which the plan names their parts.
fn all_totals(totals: &TableTotals) -> [u128; 11]
    ensures { result ≡ all_totals totals.now }
{
    [
        totals.got,
        totals.plt,
        totals.symtab_local,
        totals.symtab_global,
        totals.strtab,
        totals.dynsym,
        totals.dynstr,
        totals.file_header,
        totals.program_headers,
        totals.section_headers,
        totals.shstrtab,
    ]
}

/// The bytes of a table, if its part is this one.
fn bytes_if(part: PartId, named: Option<PartId>, bytes: u128) -> u128
    ensures { result ≡ bytes_if part (named, bytes) }
{
    match named {
        Some(found) if found.as_u32() == part.as_u32() => bytes,
        _ => 0,
    }
}

/// The bytes that tables take in a part; nothing in one that the plan names for none. Takes constant time.
pub fn bytes_in_part(named: &NamedParts, totals: &TableTotals, part: PartId) -> u128
    ensures { (lists : TableLists) → totals.now ≡ totals_of lists → result ≡ told_sum (table_bytes named.now lists part) }
{
    let parts = named.table_parts();
    let bytes = all_totals(totals);
    let mut sum = 0u128;
    for table in 0..11usize {
        sum = sum.saturating_add(bytes_if(part, parts[table], bytes[table]));
    }
    sum
}
