//! The text of a fault that no small input has; the others stand in rows of runs.

use crate::runs::expect_text;
use lk_run::too_long::too_long_text;
use std::test::Fail;

#[test]
fn too_long_an_input_has_its_text(rt: HostRuntime) -> Result<(), Fail> {
    let text = too_long_text(rt.alloc())?;
    expect_text(
        &rt,
        text.as_str(),
        "input is longer than 1073741824 bytes\n",
    );
    Ok(())
}
