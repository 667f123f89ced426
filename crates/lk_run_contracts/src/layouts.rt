//! A layout, as it is promised.

ghost use Rattle.lk_layout.specs.Defined.{Gives};
ghost use Rattle.lk_layout.specs.Machines.{platform_machine};

use lk_compute::compute_alone;
use lk_layout::{Arch, Layout, LayoutError};
use lk_link::LinkInput;
use lk_link::platform::Platform;
use std::alloc::Global;

/// What `compute_alone` of lk_compute does.
pub fn compute_alone_as_stated<'data, P: Platform, A: Arch>(
    alloc: Global,
    link: &'data LinkInput,
    platform: &P,
    arch: &A,
) -> Result<Layout<'data>, LayoutError>
    ensures { Gives (platform_machine (P.segment_start platform.now) (P.table_sizes platform.now) (A.config_of arch.now)) link.now result }
{
    compute_alone(alloc, link, platform, arch)
}
