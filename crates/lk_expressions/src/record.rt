//! Where parts, sections and segments stand.

ghost use Rattle.std.specs.Prelude.{◌≡◌};

use lk_link::alignment::Alignment;
use std::marker::Model;

/// A range of the file and one of memory (libwild: `OutputRecordLayout`). Both ends are at most 2^64 - 1.
#[derive(Clone, Copy, Debug, PartialEq, Eq)]
pub struct OutputRecordLayout {
    /// Bytes in the file.
    pub file_size: u64,
    /// Bytes in memory.
    pub mem_size: u64,
    pub alignment: Alignment,
    pub file_offset: u64,
    /// The first address.
    pub mem_offset: u64,
    /// The address from which it is loaded.
    pub lma_offset: u64,
}

impl Model for OutputRecordLayout {
    ghost use Rattle.lk_expressions.specs.Records.{Record, Fits};

    ghost Value = { Record };

    ghost view = { λ a. record {
      file_size = a.file_size;
      mem_size = a.mem_size;
      alignment = a.alignment;
      file_offset = a.file_offset;
      mem_offset = a.mem_offset;
      lma_offset = a.lma_offset;
    } };

    ghost invariant = { λ a. Fits (record {
      file_size = a.file_size;
      mem_size = a.mem_size;
      alignment = a.alignment;
      file_offset = a.file_offset;
      mem_offset = a.mem_offset;
      lma_offset = a.lma_offset;
    }) };

    ghost inverse = { λ r. record {
      file_size = r.file_size;
      mem_size = r.mem_size;
      alignment = r.alignment;
      file_offset = r.file_offset;
      mem_offset = r.mem_offset;
      lma_offset = r.lma_offset;
    } };
}

impl Default for OutputRecordLayout {
    ghost use Rattle.std.specs.Prelude.{◌≡◌};
    ghost use Rattle.lk_expressions.specs.Records.{nowhere};

    ghost is_default = { λ r. r ≡ nowhere };

    /// Nothing, at the start of all.
    fn default() -> OutputRecordLayout {
        OutputRecordLayout {
            file_size: 0,
            mem_size: 0,
            alignment: Alignment::one(),
            file_offset: 0,
            mem_offset: 0,
            lma_offset: 0,
        }
    }
}

impl OutputRecordLayout {
    ghost use Rattle.lk_expressions.specs.Records.{file_end, is_filled, mem_end};

    /// Whether it has bytes in memory.
    pub fn is_filled(&self) -> bool
        ensures { result ≡ is_filled self.now }
    {
        self.mem_size > 0
    }

    /// The end of its range of the file.
    pub fn file_end(&self) -> u64
        ensures { result ≡ file_end self.now }
    {
        self.file_offset + self.file_size
    }

    /// The end of its range of memory.
    pub fn mem_end(&self) -> u64
        ensures { result ≡ mem_end self.now }
    {
        self.mem_offset + self.mem_size
    }
}
