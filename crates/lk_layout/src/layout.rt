//! The layout of a link.

ghost use Rattle.std.specs.Prelude.{◌≡◌, ◌-◌, ◌^◌, None, length, map, min, option_map, sum_by};
ghost use Rattle.std.specs.List.{slice_index_or};
ghost use Rattle.lk_link.specs.WellFormed.{IsWellFormed};
ghost use Rattle.lk_layout.specs.Layouts.{resolved_entry, thunk_address, thunk_count};
ghost use Rattle.lk_layout.specs.ThunkUsers.{block_for, owns_block};

use crate::thunk_users::ThunkUsers;
use lk_deltas::RelaxDeltaMap;
use lk_group_starts::GroupStarts;
use lk_link::ValueFlags;
use lk_link::ids::{FileId, SymbolId};
use lk_link::link::LinkInput;
use lk_link::list::List;
use lk_merge::{MergedStringStartAddresses, MergedStringsSection};
use lk_place::{OutputRecordLayout, SegmentLayout};
use lk_resolution_list::SymbolResolutions;
use lk_resolutions::{EntryFault, entry_value};
use lk_sizes::{HeaderInfo, InputSortedSection, PartialLinkPlan};
use lk_thunks::{ThunkBlock, ThunkBlockId};
use std::marker::Model;

/// Where everything stands (libwild: `Layout`). Contracts see a record of all that it lends.
#[derive(Drop)]
pub struct Layout<'data> {
    pub(crate) link: &'data LinkInput,
    pub(crate) section_layouts: Vec<OutputRecordLayout>,
    pub(crate) merged_section_layouts: List<OutputRecordLayout>,
    pub(crate) section_part_layouts: Vec<OutputRecordLayout>,
    pub(crate) section_attributes: List<u32>,
    pub(crate) header_info: HeaderInfo,
    pub(crate) segment_layouts: List<SegmentLayout>,
    pub(crate) tls_layout: Option<OutputRecordLayout>,
    pub(crate) live_marks: List<bool>,
    pub(crate) section_addresses: List<u64>,
    pub(crate) section_deletions: List<RelaxDeltaMap>,
    pub(crate) merged_strings: List<MergedStringsSection<'data>>,
    pub(crate) merged_string_start_addresses: MergedStringStartAddresses,
    pub(crate) symbol_resolutions: SymbolResolutions,
    pub(crate) flags: List<ValueFlags>,
    pub(crate) entry_symbol_id: Option<SymbolId>,
    pub(crate) script_sorted_sections: List<InputSortedSection>,
    pub(crate) partial_link: Option<PartialLinkPlan>,
    pub(crate) thunk_blocks: List<ThunkBlock>,
    pub(crate) thunk_block_owners: List<Option<FileId>>,
    pub(crate) thunk_block_addresses: List<Option<u64>>,
    pub(crate) thunk_users: ThunkUsers,
    pub(crate) thunk_size: u64,
    pub(crate) dynsym_start_index: u32,
    pub(crate) group_starts: GroupStarts,
}

impl<'data> Model for Layout<'data> {
    ghost use Rattle.std.specs.Prelude.{map};
    ghost use Rattle.std.specs.Coded.{codes};
    ghost use Rattle.lk_link.specs.contracts.link.LinkInput as link_input;
    ghost use Rattle.lk_layout.specs.LayoutRecord.{LayoutRecord};
    ghost use Rattle.lk_layout.specs.Movable.{CanMove};

    ghost Value = { LayoutRecord };

    ghost coded = { Prim.hlevel (codes, link_input.the_row.coded) };

    ghost view = { λ a. record {
      link = a.link.now;
      section_layouts = a.section_layouts.items;
      merged_section_layouts = a.merged_section_layouts;
      section_part_layouts = a.section_part_layouts.items;
      section_attributes = a.section_attributes;
      output_section_indexes = a.header_info.output_section_indexes;
      header_info = a.header_info;
      segment_layouts = a.segment_layouts;
      tls_layout = a.tls_layout;
      live_marks = a.live_marks;
      section_addresses = a.section_addresses;
      section_deletions = a.section_deletions;
      merged_strings = a.merged_strings;
      merged_string_start_addresses = a.merged_string_start_addresses;
      symbol_resolutions = a.symbol_resolutions;
      flags = a.flags;
      entry_symbol_id = a.entry_symbol_id;
      script_sorted_sections = a.script_sorted_sections;
      partial_link = a.partial_link;
      thunk_blocks = map (λ b. b.symbols) a.thunk_blocks;
      thunk_block_owners = a.thunk_block_owners;
      thunk_block_addresses = a.thunk_block_addresses;
      thunk_users = a.thunk_users;
      thunk_size = a.thunk_size;
      dynsym_start_index = a.dynsym_start_index;
      group_starts = a.group_starts;
    } };

    ghost invariant = { λ a. CanMove a.link.now a.header_info a.section_layouts.items a.section_part_layouts.items };
}

impl<'data> Layout<'data> {
    /// The link that is laid out, which is well formed.
    pub fn link(&self) -> &'data LinkInput
        ensures link { result.now ≡ self.now.link }
        ensures good { IsWellFormed self.now.link }
    {
        self.link
    }

    /// The record of each output section.
    pub fn section_layouts(&self) -> &[OutputRecordLayout]
        ensures { result.now ≡ self.now.section_layouts }
    {
        self.section_layouts.as_slice()
    }

    /// That of each output section together with its secondaries, from its own start on; of nothing for a secondary section.
    pub fn merged_section_layouts(&self) -> &[OutputRecordLayout]
        ensures { result.now ≡ self.now.merged_section_layouts }
    {
        self.merged_section_layouts.as_slice()
    }

    /// That of each part, numbered over all sections.
    pub fn section_part_layouts(&self) -> &[OutputRecordLayout]
        ensures { result.now ≡ self.now.section_part_layouts }
    {
        self.section_part_layouts.as_slice()
    }

    /// Of each output section its attributes: the plan's, with those of its live input sections
    /// (libwild: `propagate_section_attributes`).
    pub fn section_attributes(&self) -> &[u32]
        ensures { result.now ≡ self.now.section_attributes }
    {
        self.section_attributes.as_slice()
    }

    /// For each output section its index in the output; none where it isn't emitted.
    pub fn output_section_indexes(&self) -> &[Option<u32>]
        ensures { result.now ≡ self.now.output_section_indexes }
    {
        self.header_info.output_section_indexes.as_slice()
    }

    /// Which output sections are emitted and which segments are active, and what headers there are (libwild: `HeaderInfo`).
    pub fn header_info(&self) -> &HeaderInfo
        ensures { result.now ≡ self.now.header_info }
    {
        &self.header_info
    }

    /// Of each active segment, by number, what it spans.
    pub fn segment_layouts(&self) -> &[SegmentLayout]
        ensures { result.now ≡ self.now.segment_layouts }
    {
        self.segment_layouts.as_slice()
    }

    /// What the active thread-local segment spans; none where there is none.
    pub fn tls_layout(&self) -> Option<OutputRecordLayout>
        ensures { result ≡ self.now.tls_layout }
    {
        self.tls_layout
    }

    /// Of each input section, by its number over all files, whether it is live.
    pub fn live_marks(&self) -> &[bool]
        ensures { result.now ≡ self.now.live_marks }
    {
        self.live_marks.as_slice()
    }

    /// Of each live input section, by its number over all files, the address of its first byte; 0 for any other.
    pub fn section_addresses(&self) -> &[u64]
        ensures { result.now ≡ self.now.section_addresses }
    {
        self.section_addresses.as_slice()
    }

    /// What is deleted of the sections of each file, by the file's number over all groups and the section's index.
    pub fn section_deletions(&self) -> &[RelaxDeltaMap]
        ensures { result.now ≡ self.now.section_deletions }
    {
        self.section_deletions.as_slice()
    }

    /// Of each output section its merged data; pieces are lent by the link. Contracts see the list of its inputs.
    pub fn merged_strings(&self) -> &[MergedStringsSection<'data>]
        ensures { result.now ≡ self.now.merged_strings }
    {
        self.merged_strings.as_slice()
    }

    /// Where the buckets of merged data stand in memory.
    pub fn merged_string_start_addresses(&self) -> &MergedStringStartAddresses
        ensures { result.now ≡ self.now.merged_string_start_addresses }
    {
        &self.merged_string_start_addresses
    }

    /// Of each symbol, by number, what it stands for in the output; none where it has no resolution.
    pub fn symbol_resolutions(&self) -> &SymbolResolutions
        ensures { result.now ≡ self.now.symbol_resolutions }
    {
        &self.symbol_resolutions
    }

    /// Of each symbol, by number, its own flags, late marks included.
    pub fn flags(&self) -> &[ValueFlags]
        ensures { result.now ≡ self.now.flags }
    {
        self.flags.as_slice()
    }

    /// The symbol that stands for the one where the program starts; none where the options name none.
    pub fn entry_symbol_id(&self) -> Option<SymbolId>
        ensures { result ≡ self.now.entry_symbol_id }
    {
        self.entry_symbol_id
    }

    /// The live sections that are put in order by their names, in that order: by the bytes of these, then by file and index.
    pub fn script_sorted_sections(&self) -> &[InputSortedSection]
        ensures { result.now ≡ self.now.script_sorted_sections }
    {
        self.script_sorted_sections.as_slice()
    }

    /// What is known of output that is linked again; none exactly where output isn't.
    pub fn partial_link(&self) -> Option<&PartialLinkPlan>
        ensures { option_map (λ plan. plan.now) result ≡ self.now.partial_link }
    {
        self.partial_link.as_ref()
    }

    /// Of each block of thunks the definitions that it has some for, in rising order. Where thunks are planned there is one block at
    /// least, whose thunks also serve the code of other parts (libwild: `ThunkBlock`).
    pub fn thunk_blocks(&self) -> &[ThunkBlock]
        ensures { map (λ b. b.symbols) result.now ≡ self.now.thunk_blocks }
    {
        self.thunk_blocks.as_slice()
    }

    /// The object that owns each block, behind whose bytes its thunks stand; none where nothing does.
    pub fn thunk_block_owners(&self) -> &[Option<FileId>]
        ensures { result.now ≡ self.now.thunk_block_owners }
    {
        self.thunk_block_owners.as_slice()
    }

    /// Where the thunks of each block begin in memory; none for a block without owner.
    pub fn thunk_block_addresses(&self) -> &[Option<u64>]
        ensures { result.now ≡ self.now.thunk_block_addresses }
    {
        self.thunk_block_addresses.as_slice()
    }

    /// Where the thunk at a place of a block, by its number, begins in memory: behind those before it; a place behind the last thunk is
    /// told as if there were one. None exactly where the block has no address, and where the number passes 2^64 - 1, which that of a
    /// thunk of a computed layout doesn't. Takes constant time.
    pub fn thunk_address(&self, block: usize, place: usize) -> Option<u64>
        ensures { result ≡ thunk_address self.now block place }
    {
        let begin = start_of(self.thunk_block_addresses.as_slice(), block)?;
        let behind = (place as u64).checked_mul(self.thunk_size)?;
        begin.checked_add(behind)
    }

    /// Each object that needs thunks, in the order of files, with its block, and whether it owns that.
    pub fn thunk_users(&self) -> &[(FileId, ThunkBlockId, bool)]
        ensures { result.now ≡ self.now.thunk_users }
    {
        self.thunk_users.as_slice()
    }

    /// The block of a file's thunks, and whether it owns that; `ThunkBlockId::FIRST` and no, where it needs none. Takes logarithmic time.
    pub fn thunk_block_for(&self, id: FileId) -> (ThunkBlockId, bool)
        ensures { result ≡ (block_for self.now.thunk_users id, owns_block self.now.thunk_users id) }
    {
        self.thunk_users.block_for(id)
    }

    /// The bytes of a thunk; 0 where the architecture makes none.
    pub fn thunk_size(&self) -> u64
        ensures { result ≡ self.now.thunk_size }
    {
        self.thunk_size
    }

    /// Where each group begins in the tables of symbols, and behind all of them that of the epilogue.
    pub fn group_starts(&self) -> &GroupStarts
        ensures { result.now ≡ self.now.group_starts }
    {
        &self.group_starts
    }

    /// How many entries of the dynamic symbol table stand before the exports; 0 where no dynamic linker loads the output.
    pub fn dynsym_start_index(&self) -> u32
        ensures { result ≡ self.now.dynsym_start_index }
    {
        self.dynsym_start_index
    }

    /// The thunks of all blocks together; a sum past 2^64 - 1 is given as that.
    pub fn thunk_count(&self) -> usize
        ensures { result ≡ min (thunk_count self.now) (2 ^ 64 - 1) }
    {
        count_thunks(self.thunk_blocks.as_slice())
    }

    /// The address where the program starts; none where no entry is named. Refused where the entry's symbol has no resolution, and
    /// where only the dynamic linker gives its value. Takes constant time.
    pub fn resolved_entry_symbol_address(&self) -> Result<Option<u64>, EntryFault>
        ensures { result ≡ resolved_entry self.now }
    {
        match self.entry_symbol_id {
            Some(symbol) => {
                let resolution = self.symbol_resolutions.get(symbol);
                entry_value(resolution)
            }
            None => Ok(None),
        }
    }
}

/// Where the block with this number begins, if it has an address.
fn start_of(addresses: &[Option<u64>], block: usize) -> Option<u64>
    ensures { result ≡ slice_index_or addresses.now block None }
{
    addresses.get(block).copied().unwrap_or(None)
}

/// The thunks of some blocks; a sum past 2^64 - 1 is given as that.
fn count_thunks(blocks: &[ThunkBlock]) -> usize
    ensures { result ≡ min (sum_by (λ b. length b.symbols) blocks.now) (2 ^ 64 - 1) }
{
    let mut count = 0usize;
    for block in blocks {
        count = count.saturating_add(block.symbols.len());
    }
    count
}
