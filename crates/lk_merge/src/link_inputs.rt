//! What is merged of a link: its merge sections, by the output section that they go to.

ghost use Rattle.std.specs.Prelude.{◌≡◌, ◌++◌, ◌<◌, ◌≤◌, ◌%◌, ◌^◌, ℕ, [], ◌∷◌, true, if◌then◌else◌, IfOk, OnOk, length, map, replicate};
ghost use Rattle.std.specs.List.{range_with_len, slice_index_or};
ghost use Rattle.lk_link.specs.InputSlots.{is_merge};
ghost use Rattle.lk_link.specs.WellFormed.{IsWellFormed};
ghost use Rattle.lk_merge.specs.LinkInputTables.{CanGo};
ghost use Rattle.lk_merge.specs.LinkInputs.{group_size, is_merged_into, link_inputs, merge_input, merge_inputs};

use crate::inputs::{BLOCK_SIZE, StringMergeInputSections};
use lk_link::part_sections::section_of_parts;
use lk_link::{InputSection, LinkInput};
use std::alloc::{AllocError, Global};
use std::marker::Model;

/// What is merged of a link (libwild: `StringMergeInputs`).
#[derive(Drop)]
pub struct StringMergeInputs<'data> {
    /// By output section.
    outputs: Vec<StringMergeInputSections<'data>>,
    /// The most bytes of a bucket.
    bucket_limit: u64,
    /// About how many bytes are merged in one go, from 1 to 2^32.
    merge_group: u64,
}

impl<'data> Model for StringMergeInputs<'data> {
    ghost use Rattle.std.specs.Prelude.{◌<◌, ◌^◌, length};
    ghost use Rattle.lk_merge.specs.LinkInputs.{AllMergeInputs};

    ghost Value = { AllMergeInputs };

    ghost view = { λ a. record { outputs = a.outputs.items; limit = a.bucket_limit; group = a.merge_group } };

    ghost use Rattle.lk_merge.specs.LinkInputTables.{AreSettings};

    ghost invariant = { λ a. AreSettings a.bucket_limit a.merge_group × (length a.outputs.items < 2 ^ 32) };
}

impl<'data> StringMergeInputs<'data> {
    /// What is merged of a link. Looks at each input section once (libwild: `StringMergeInputs::new`).
    pub fn new(
        alloc: Global,
        link: &'data LinkInput,
    ) -> Result<StringMergeInputs<'data>, AllocError>
        requires { IsWellFormed link.now }
        ensures { IfOk result (λ inputs. inputs ≡ link_inputs link.now) }
    {
        Ok(StringMergeInputs {
            outputs: gather(alloc, link)?,
            bucket_limit: link.options.bucket_limit,
            merge_group: link.options.merge_group,
        })
    }

    /// By output section, the inputs that are merged there.
    pub fn outputs(&self) -> &[StringMergeInputSections<'data>]
        ensures outputs { result.now ≡ self.now.outputs }
        ensures few { length result.now < 2 ^ 32 }
    {
        self.outputs.as_slice()
    }

    /// The most bytes of a bucket, at most 2^28.
    pub fn bucket_limit(&self) -> u64
        ensures limit { result ≡ self.now.limit }
        ensures small { result ≤ 2 ^ 28 }
    {
        self.bucket_limit
    }

    /// About how many bytes are merged in one go, as the options say; from 1 to 2^32.
    pub fn merge_group(&self) -> u64
        ensures group { result ≡ self.now.group }
        ensures positive { 0 < result }
        ensures small { result ≤ 2 ^ 32 }
    {
        self.merge_group
    }

    /// The size of groups that `split_sections` takes: about how many bytes are merged in one go, rounded up to a multiple of
    /// 256.
    pub fn group_size(&self) -> u64
        ensures size { result ≡ group_size self.now.group }
        ensures positive { 0 < result }
        ensures blocks { result % 256 ≡ 0 }
    {
        self.merge_group.next_multiple_of(BLOCK_SIZE)
    }
}

/// Adds an input section to those that are merged, if it is one.
fn add_input<'data>(
    outputs: &mut Vec<StringMergeInputSections<'data>>,
    sections: &[u32],
    number: u32,
    input: &'data InputSection,
) -> Result<(), AllocError>
    requires { is_merge input.now.slot ≡ true → CanGo sections.now outputs.old.items number input.now }
    ensures count { OnOk result (length outputs.new.items ≡ length outputs.old.items) }
    ensures each { OnOk result ((s : ℕ) → s < length outputs.old.items → slice_index_or outputs.new.items s []
        ≡ slice_index_or outputs.old.items s [] ++ (if is_merged_into sections.now s input.now then merge_input number input.now ∷ [] else [])) }
{
    if !input.slot.is_merge() {
        return Ok(());
    }
    let output = sections[input.part.as_usize()] as usize;
    let inputs = &mut outputs[output];
    inputs.push(number, input.bytes.as_slice(), input.strings)
}

/// No inputs for each of so many output sections.
fn no_inputs<'data>(
    alloc: Global,
    count: usize,
) -> Result<Vec<StringMergeInputSections<'data>>, AllocError>
    ensures { IfOk result (λ outputs. outputs.items ≡ replicate count []) }
{
    let mut outputs = Vec::with_capacity(alloc, count)?;
    for _ in 0..count {
        outputs.push(StringMergeInputSections::new(alloc))?;
    }
    Ok(outputs)
}

/// The inputs of each output section.
fn gather<'data>(
    alloc: Global,
    link: &'data LinkInput,
) -> Result<Vec<StringMergeInputSections<'data>>, AllocError>
    requires { IsWellFormed link.now }
    ensures { IfOk result (λ outputs. outputs.items ≡ map (merge_inputs link.now) (range_with_len 0 (length link.now.plan.sections))) }
{
    let sections = section_of_parts(alloc, link.plan.sections.as_slice())?;
    let mut outputs = no_inputs(alloc, link.plan.sections.len())?;
    let mut number = 0;
    for input in link.groups.inputs() {
        add_input(&mut outputs, sections.as_slice(), number, input.section)?;
        number += 1;
    }
    Ok(outputs)
}
