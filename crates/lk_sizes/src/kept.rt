//! A walk over the input sections of which the output has something: the live ones, and those that are merged.

ghost use Rattle.std.specs.Prelude.{◌≡◌};
ghost use Rattle.std.specs.Iterator.{YieldsFirstBy, item_count};
ghost use Rattle.lk_link.specs.Files.{AreNumbered};
ghost use Rattle.lk_sizes.specs.Kept.{kept_inputs};

use lk_live::Live;
use lk_link::{InputRef, Inputs, LinkInput};
use std::marker::Model;

/// The kept input sections that are left of a walk over them. Contracts see the list of them.
#[derive(Drop)]
pub(crate) struct KeptInputs<'a> {
    /// The marks of the input sections that are left: whether each is live.
    marks: &'a [bool],
    /// Those sections.
    inputs: Inputs<'a>,
}

impl<'a> Model for KeptInputs<'a> {
    ghost use Rattle.std.specs.Prelude.{List};
    ghost use Rattle.lk_link.specs.Inputs.{Input};
    ghost use Rattle.lk_sizes.specs.Kept.{kept_of};

    ghost Value = { List Input };

    ghost view = { λ a. kept_of a.marks.now a.inputs };
}

impl<'a> KeptInputs<'a> {
    /// The walk over the kept input sections of a link. It looks at each input section once.
    pub(crate) fn new(link: &'a LinkInput, live: &'a Live) -> KeptInputs<'a>
        requires { AreNumbered link.now.groups }
        ensures { result ≡ kept_inputs link.now live.now }
    {
        KeptInputs {
            marks: live.marks.as_slice(),
            inputs: link.groups.inputs(),
        }
    }
}

impl<'a> Iterator for KeptInputs<'a> {
    type Item = InputRef<'a>;

    ghost use Rattle.lk_link.specs.Walks.{input_of};

    ghost next_gives = { YieldsFirstBy input_of (λ left. left) };

    ghost remaining = { item_count (λ left. left) };

    #[tactic(auto, using(crate::proofs::Marks::kept_none))]
    fn next(&mut self) -> Option<InputRef<'a>> {
        while let Some((mark, marks)) = self.marks.split_first() {
            self.marks = marks;
            let input = self.inputs.next()?;
            if *mark || input.section.slot.is_merge() {
                return Some(input);
            }
        }
        None
    }
}
