//! Where the buckets of merged sections stand in memory.

ghost use Rattle.std.specs.Prelude.{◌≡◌, ◌++◌, ◌+◌, ◌*◌, ◌<◌, ◌^◌, ℕ, Some, IfOk, OnOk, length, slice_get, slice_index};
ghost use Rattle.lk_merge.specs.Addresses.{AreStartsOf, ImagesFit, bucket_addresses, image_start, start_addresses};
ghost use Rattle.lk_merge.specs.Hash.{fnv64};
ghost use Rattle.lk_merge.specs.Image.{all_pieces, image};

use crate::bucket::BUCKETS;
use crate::section::MergedStringsSection;
use std::alloc::{AllocError, Global};
use std::marker::Model;

/// The addresses of the buckets of all output sections, sixteen for each (libwild: `MergedStringStartAddresses`). Contracts
/// see the list of them.
#[derive(Drop)]
pub struct MergedStringStartAddresses {
    addresses: Vec<u64>,
}

impl Model for MergedStringStartAddresses {
    ghost use Rattle.std.specs.Prelude.{List, ℕ};

    ghost Value = { List ℕ };

    ghost view = { λ a. a.addresses.items };
}

impl MergedStringStartAddresses {
    /// The addresses of the buckets of merged sections, whose images start at these addresses: of a section without inputs all
    /// are where its image, which is empty, starts. Takes constant time for each section.
    pub fn compute(
        alloc: Global,
        merged: &[MergedStringsSection<'_>],
        starts: &[u64],
    ) -> Result<MergedStringStartAddresses, AllocError>
        requires { ImagesFit merged.now starts.now }
        ensures addresses { IfOk result (λ all. all ≡ start_addresses fnv64 merged.now starts.now) }
        ensures each { IfOk result (AreStartsOf merged.now) }
        ensures images { IfOk result (λ all. (s : ℕ) → s < length merged.now → image_start all s ≡ slice_index starts.now s) }
    {
        let mut addresses = Vec::with_capacity(alloc, merged.len() * BUCKETS)?;
        for (number, section) in merged.iter().enumerate() {
            push_addresses(&mut addresses, starts[number], section)?;
        }
        Ok(MergedStringStartAddresses { addresses })
    }

    /// Where the image of an output section starts: its first bucket; 0 past the last section.
    pub fn image_start(&self, section: usize) -> u64
        ensures { result ≡ image_start self.now section }
    {
        match section.checked_mul(BUCKETS) {
            Some(first) => self.addresses.as_slice().get(first).copied().unwrap_or(0),
            None => 0,
        }
    }

    /// Where a bucket of an output section stands.
    pub(crate) fn bucket(&self, section: usize, bucket: usize) -> u64
        requires { 16 * section + bucket < length self.now }
        ensures { result ≡ slice_index self.now (16 * section + bucket) }
    {
        self.addresses[BUCKETS * section + bucket]
    }
}

/// Adds the addresses of the buckets of a section, whose image starts at an address.
fn push_addresses(
    addresses: &mut Vec<u64>,
    start: u64,
    section: &MergedStringsSection<'_>,
) -> Result<(), AllocError>
    requires { start + length (image fnv64 (all_pieces section.now)) < 2 ^ 64 }
    ensures { OnOk result (addresses.new.items ≡ addresses.old.items ++ bucket_addresses fnv64 start section.now) }
{
    let mut address = start;
    for bucket in 0..BUCKETS {
        addresses.push(address)?;
        address += section.bucket_len(bucket);
    }
    Ok(())
}
