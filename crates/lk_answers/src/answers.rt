//! What a layout answers besides what it lends: of symbols, of its sections' starts, of thread-local data, and of its files and groups.

ghost use Rattle.std.specs.Prelude.{◌≡◌, ◌-◌, ◌^◌, ◌↔◌, IsSome, IsTrue, min};
ghost use Rattle.lk_link.specs.Files.{file_in};
ghost use Rattle.lk_place.specs.Plain.{IsPlain};
ghost use Rattle.lk_layout.specs.LayoutRecord.{LayoutRecord};
ghost use Rattle.lk_answers.specs.Files.{IsFileLayout, IsPreludeLayout};
ghost use Rattle.lk_answers.specs.Queries.{IsAlignedStart, IsStartBefore, aligned_end, definition_flags, got_start, own_resolution, resolution_with, resolutions_in, section_start, segment_start, thread_local_data_start};

use crate::files::{FileLayout, PreludeLayout, find_file, prelude_of};
use crate::group_layouts::GroupLayouts;
use crate::in_range::ResolutionsInRange;
use crate::queries::{aligned_start, flags_at, least_start, rounded_end, start_before, start_of};
use lk_layout::Layout;
use lk_link::ids::{FileId, OutputSectionId, SymbolId, SymbolIdRange};
use lk_link::part_sections::section_of_part;
use lk_link::{Resolution, ValueFlags};
use lk_place::is_plain;

/// What a layout answers. All that a call knows of a layout is what this tells.
pub trait Answers<'data> {
    ghost told: { Self → LayoutRecord };

    /// The flags of what stands for a symbol, late marks included; none past the last symbol. Takes logarithmic time
    /// (libwild: `flags_for_symbol`).
    fn flags_for_symbol(&self, symbol: SymbolId) -> ValueFlags
        ensures { result ≡ definition_flags (told self.now) symbol };

    /// The resolution of a symbol itself, if it has one; one that another stands for has none. Takes constant time
    /// (libwild: `local_symbol_resolution`).
    fn local_symbol_resolution(&self, symbol: SymbolId) -> Option<Resolution>
        ensures { result ≡ own_resolution (told self.now) symbol };

    /// The resolution of what stands for a symbol, with these flags beside its own, if it has one; none past the last symbol. Takes
    /// logarithmic time (libwild: `symbol_resolution_with_flags`).
    fn symbol_resolution_with_flags(
        &self,
        symbol: SymbolId,
        flags: ValueFlags,
    ) -> Option<Resolution>
        ensures { result ≡ resolution_with (told self.now) symbol flags };

    /// The resolution of what stands for a symbol, with the flags of that, if it has one; none past the last symbol. Takes logarithmic
    /// time (libwild: `merged_symbol_resolution`).
    fn merged_symbol_resolution(&self, symbol: SymbolId) -> Option<Resolution>
        ensures { result ≡ resolution_with (told self.now) symbol (definition_flags (told self.now) symbol) };

    /// The resolutions of the symbols of a range, each by itself, as far as there are such symbols. Takes constant time
    /// (libwild: `resolutions_in_range`).
    fn resolutions_in_range(&self, range: SymbolIdRange) -> ResolutionsInRange<'_>
        ensures { result ≡ resolutions_in (told self.now) range };

    /// Whether the plan is plain: memory then goes along the file inside each load segment. Takes one pass over the plan's events.
    fn is_plain(&self) -> bool
        ensures { IsTrue result ↔ IsPlain (told self.now).link.plan (told self.now).link.options.output };

    /// Where an output section starts in memory, by its own record, without its secondaries; 0 past the last section
    /// (libwild: `mem_address_of_built_in`).
    fn mem_address_of_built_in(&self, section: OutputSectionId) -> u64
        ensures { result ≡ section_start (told self.now) section };

    /// Where the output section starts in memory that has the part for the GOT; none exactly where the plan names no part for it. Takes
    /// logarithmic time (libwild: `got_base`).
    fn got_base(&self) -> Option<u64>
        ensures { result ≡ got_start (told self.now) };

    /// Where the active thread-local segment starts in memory; 0 without one.
    fn tls_start_address(&self) -> u64
        ensures { result ≡ segment_start (told self.now).tls_layout };

    /// Where the active thread-local segment starts in memory, rounded down to its alignment; 0 without one.
    fn tls_start_address_aligned(&self) -> u64
        ensures { IsAlignedStart (told self.now).tls_layout result };

    /// Where the active thread-local segment ends in memory, rounded up to its alignment; 0 without one. An end past 2^64 - 1 would be
    /// given as that, and no link that is laid out has one.
    fn tls_end_address(&self) -> u64
        ensures { result ≡ min (aligned_end (told self.now).tls_layout) (2 ^ 64 - 1) };

    /// Where the active thread-local segment would start with `tcb` bytes before it, rounded down to its alignment; none exactly where
    /// it starts below `tcb`, and 0 without one.
    fn tls_start_address_aarch64(&self, tcb: u64) -> Option<u64>
        ensures { IsStartBefore (told self.now).tls_layout tcb result };

    /// The least memory start of the output sections whose attributes tell of thread-local data; 0 where there is none. Takes one pass
    /// over all output sections.
    fn tlv_data_start_address(&self) -> u64
        ensures { result ≡ thread_local_data_start (told self.now) };

    /// What is told of the linker's own file.
    fn prelude(&self) -> PreludeLayout<'_>
        ensures { IsPreludeLayout (told self.now) result };

    /// What is told of a file of the link. Takes logarithmic time in the objects that need thunks, and no memory.
    fn file_layout(&self, id: FileId) -> FileLayout<'_>
        requires there { IsSome (file_in (told self.now).link.groups id) }
        ensures { IsFileLayout (told self.now) id result };

    /// The groups of the link, and behind them one that holds the epilogue alone.
    fn group_layouts(&self) -> GroupLayouts<'_, 'data>
        ensures { result.layout.now ≡ told self.now };
}

impl<'data> Answers<'data> for Layout<'data> {
    ghost told = { λ layout. layout };

    fn flags_for_symbol(&self, symbol: SymbolId) -> ValueFlags {
        match self.link().groups.definition(symbol) {
            Some(definition) => flags_at(self.flags(), definition),
            None => ValueFlags(0),
        }
    }

    fn local_symbol_resolution(&self, symbol: SymbolId) -> Option<Resolution> {
        self.symbol_resolutions().get(symbol)
    }

    fn symbol_resolution_with_flags(
        &self,
        symbol: SymbolId,
        flags: ValueFlags,
    ) -> Option<Resolution> {
        let definition = self.link().groups.definition(symbol)?;
        let resolution = self.symbol_resolutions().get(definition)?;
        Some(Resolution {
            flags: resolution.flags.merge(flags),
            ..resolution
        })
    }

    fn merged_symbol_resolution(&self, symbol: SymbolId) -> Option<Resolution> {
        self.symbol_resolution_with_flags(symbol, self.flags_for_symbol(symbol))
    }

    fn resolutions_in_range(&self, range: SymbolIdRange) -> ResolutionsInRange<'_> {
        ResolutionsInRange::new(self.symbol_resolutions(), range)
    }

    fn is_plain(&self) -> bool {
        let link = self.link();
        is_plain(&link.plan, link.options.output)
    }

    fn mem_address_of_built_in(&self, section: OutputSectionId) -> u64 {
        start_of(self.section_layouts(), section.as_usize())
    }

    fn got_base(&self) -> Option<u64> {
        let plan = &self.link().plan;
        let part = plan.named.got?;
        if part.as_usize() < plan.sections.parts().len() {
            let section = section_of_part(&plan.sections, part);
            Some(start_of(self.section_layouts(), section))
        } else {
            None
        }
    }

    fn tls_start_address(&self) -> u64 {
        match self.tls_layout() {
            Some(segment) => segment.mem_offset,
            None => 0,
        }
    }

    fn tls_start_address_aligned(&self) -> u64 {
        match self.tls_layout() {
            Some(segment) => aligned_start(&segment),
            None => 0,
        }
    }

    fn tls_end_address(&self) -> u64 {
        match self.tls_layout() {
            Some(segment) => rounded_end(&segment),
            None => 0,
        }
    }

    fn tls_start_address_aarch64(&self, tcb: u64) -> Option<u64> {
        match self.tls_layout() {
            Some(segment) => start_before(&segment, tcb),
            None => Some(0),
        }
    }

    fn tlv_data_start_address(&self) -> u64 {
        least_start(self.section_attributes(), self.section_layouts())
    }

    fn prelude(&self) -> PreludeLayout<'_> {
        prelude_of(self)
    }

    fn file_layout(&self, id: FileId) -> FileLayout<'_> {
        find_file(self, id).unwrap()
    }

    fn group_layouts(&self) -> GroupLayouts<'_, 'data> {
        GroupLayouts { layout: self }
    }
}
