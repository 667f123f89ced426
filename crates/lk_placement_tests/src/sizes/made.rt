//! The links that the words of a row stand for where no description gives them.

use lk_input::{InputError, read_link};
use lk_link::LinkInput;
use lk_test_rows::{groups_of, with_groups};
use std::alloc::Global;

/// A plan of the parts 0 and 1, of which part 1 is a table.
const TWO_PARTS: &[u8] =
    br#"{"plan":{"page":1,"sections":[{"parts":[[1,false]]},{"parts":[[1,false]]}],"events":[["sec",0],["sec",1]],"got":1}}"#;

/// The files that the words of a line stand for, under that plan.
pub fn hand_made_link(alloc: Global, line: &str) -> Result<LinkInput, InputError> {
    let groups = groups_of(alloc, line)?;
    match read_link(alloc, TWO_PARTS) {
        Ok(link) => Ok(with_groups(link, groups)),
        Err(error) => Err(error),
    }
}
