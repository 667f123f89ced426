//! What is kept of a member of an object until all members are there.

ghost use Rattle.std.specs.Prelude.{◌≡◌, None, Some, Ok, Err, IfOk};
ghost use Rattle.lk_input.specs.ReadingSteps.{Path};

use lk_link::text::Text;
use std::alloc::{AllocFailed, Global};
use std::marker::Model;

/// A member by itself. The path of a wrong shape is apart, so that a member takes little more room than what is read of it.
#[derive(Drop)]
enum Member<T> {
    Missing,
    Read(T),
    Wrong(Box<Text>),
}

/// What was read of a member, or the path of the first wrong shape in it, if it was there.
#[derive(Drop)]
pub(crate) struct Kept<T> {
    member: Member<T>,
}

impl<T> Model for Kept<T> {
    ghost use Rattle.std.specs.Prelude.{Option, Result};
    ghost use Rattle.lk_input.specs.Kept.{kept_in};
    ghost use Rattle.lk_input.specs.ReadingSteps.{Path};

    ghost Value = { Option (Result T Path) };

    ghost view = { λ k. kept_in k.member };
}

impl<T: Drop> Kept<T> {
    /// Nothing: the member wasn't there.
    #[inline(always)]
    pub(crate) fn none() -> Kept<T>
        ensures { result ≡ None }
    {
        Kept {
            member: Member::Missing,
        }
    }

    /// What was read.
    #[inline(always)]
    pub(crate) fn read(member: T) -> Kept<T>
        ensures { result ≡ Some (Ok member) }
    {
        Kept {
            member: Member::Read(member),
        }
    }

    /// The path of a wrong shape.
    #[cold]
    pub(crate) fn wrong(alloc: Global, path: Text) -> Result<Kept<T>, AllocFailed<Text>>
        ensures { IfOk result (λ k. k ≡ Some (Err path)) }
    {
        Ok(Kept {
            member: Member::Wrong(Box::new(alloc, path)?),
        })
    }

    /// What was kept.
    #[inline(always)]
    pub(crate) fn taken(self) -> Option<Result<T, Text>>
        ensures { result ≡ self }
    {
        match self.member {
            Member::Missing => None,
            Member::Read(member) => Some(Ok(member)),
            Member::Wrong(path) => Some(Err(Box::into_inner(path))),
        }
    }
}
