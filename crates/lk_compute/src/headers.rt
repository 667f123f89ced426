//! The bytes of the headers that stand in front of what is loaded.

ghost use Rattle.std.specs.Prelude.{◌≡◌, ◌≤◌, length};
ghost use Rattle.lk_live.specs.declared.live.Live.{Live};
ghost use Rattle.lk_tables.specs.HeaderParts.{header_sizes};
ghost use Rattle.lk_layout.specs.Headers.{leading_bytes};

use lk_link::limits::SEGMENTS;
use lk_link::link::LinkInput;
use lk_link::platform::Platform;
use lk_sizes::{HeaderInfo, header_sizes};

/// The bytes of the file's header and of those of the active segments, whether or not the plan names parts for them (libwild:
/// `get_sizeof_headers`). At most 65 times 65,536.
pub(crate) fn header_bytes<P: Platform>(link: &LinkInput, platform: &P, header: &HeaderInfo) -> u64
    requires few { length header.now.active_segment_ids ≤ SEGMENTS }
    ensures { (live : Live) → result
        ≡ leading_bytes (header_sizes (P.table_sizes platform.now) link.now live header.now.emitted header.now.active_segment_ids) }
{
    let sizes = header_sizes(link, platform, header);
    sizes.file_header + sizes.program_headers as u64
}
