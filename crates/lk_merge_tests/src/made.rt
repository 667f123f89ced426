//! The links that the words of a row stand for where no description gives them.

use lk_input::{InputError, read_link};
use lk_link::LinkInput;
use lk_test_rows::{sized_groups, with_groups};
use std::alloc::Global;

/// A plan of one part.
const ONE_PART: &[u8] =
    br#"{"plan":{"page":1,"sections":[{"attrs":1,"parts":[[1,false]]}],"events":[["sec",0]]}}"#;

/// The files that a line stands for, under a plan of one part. No description gives a merged section a size that isn't that
/// of its data.
pub fn sized_link(alloc: Global, line: &str) -> Result<LinkInput, InputError> {
    let groups = sized_groups(alloc, line)?;
    match read_link(alloc, ONE_PART) {
        Ok(link) => Ok(with_groups(link, groups)),
        Err(error) => Err(error),
    }
}
