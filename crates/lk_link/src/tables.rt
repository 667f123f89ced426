//! What symbols take in the tables of the output, and where.

ghost use Rattle.std.specs.Prelude.{◌≡◌};
ghost use Rattle.lk_link.specs.TableSizes.{HaveRoom, behind, first_taken, resolution_at};

use crate::flags::ValueFlags;
use crate::resolution::Resolution;

/// No entry of a table and no header takes more bytes.
pub const GREATEST_ENTRY: u64 = 65536;

/// The bytes that a symbol takes in the parts `got` and `plt` (libwild: `allocate_resolution`).
#[derive(Clone, Copy, Debug, PartialEq, Eq)]
pub struct Allocation {
    pub got: u64,
    pub plt: u64,
}

/// Where the next entries of the parts `got` and `plt` go: addresses.
#[derive(Clone, Copy, Debug, PartialEq, Eq)]
pub struct TableCursors {
    pub got: u64,
    pub plt: u64,
}

impl TableCursors {
    /// The resolution of a symbol that takes these bytes here; the cursors move behind them.
    pub fn take(
        &mut self,
        taken: Allocation,
        flags: ValueFlags,
        raw_value: u64,
        dynamic: Option<u32>,
    ) -> Resolution
        requires room { HaveRoom self.now taken }
        ensures made { result ≡ resolution_at self.old taken flags raw_value dynamic }
        ensures moved { self.new ≡ behind self.old taken }
    {
        let got = first_taken(self.got, taken.got);
        let plt = first_taken(self.plt, taken.plt);
        self.got += taken.got;
        self.plt += taken.plt;
        Resolution {
            raw_value,
            flags,
            dynamic,
            got,
            plt,
        }
    }
}

/// The first byte of what is taken at a cursor, if any is.
fn first_taken(cursor: u64, bytes: u64) -> Option<u64>
    ensures { result ≡ first_taken cursor bytes }
{
    if bytes == 0 {
        return None;
    }
    Some(cursor)
}
