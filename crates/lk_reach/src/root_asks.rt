//! What all files of a link ask for by themselves, file by file: one walk over all roots, which takes no memory.

ghost use Rattle.std.specs.Prelude.{◌≡◌};
ghost use Rattle.std.specs.Iterator.{YieldsFirst, item_count};
ghost use Rattle.lk_link.specs.WellFormed.{IsWellFormed};
ghost use Rattle.lk_reach.specs.Units.{roots};

use crate::asks::Successors;
use crate::reaching::file_roots;
use crate::units::Ask;
use lk_link::{Files, LinkInput};
use std::marker::Model;

/// What is left of the roots of a link. Contracts see the list of the asks.
#[derive(Drop)]
pub struct Roots<'a> {
    link: &'a LinkInput,
    /// What is left of the file before.
    own: Successors<'a>,
    /// The files that are left.
    files: Files<'a>,
}

impl<'a> Model for Roots<'a> {
    ghost use Rattle.std.specs.Prelude.{◌++◌, List, All};
    ghost use Rattle.std.specs.List.{flat_map};
    ghost use Rattle.std.specs.Coded.{codes};
    ghost use Rattle.lk_link.specs.contracts.expression.Expression as expression;
    ghost use Rattle.lk_link.specs.WellFormed.{IsWellFormed};
    ghost use Rattle.lk_reach.specs.declared.units.Ask.{Ask};

    ghost Value = { List Ask };

    ghost coded = { Prim.hlevel (codes, expression.the_row.coded) };

    ghost use Rattle.lk_reach.specs.Askers.{IsFileOf};
    ghost use Rattle.lk_reach.specs.Units.{file_roots};

    ghost view = { λ a. a.own ++ flat_map (file_roots a.link.now) a.files };

    ghost invariant = { λ a. IsWellFormed a.link.now × All (IsFileOf a.link.now) a.files };
}

impl<'a> Iterator for Roots<'a> {
    type Item = Ask;

    ghost next_gives = { YieldsFirst (λ left. left) };

    ghost remaining = { item_count (λ left. left) };

    fn next(&mut self) -> Option<Ask> {
        if let Some(ask) = self.own.next() {
            return Some(ask);
        }
        while let Some(file) = self.files.next() {
            self.own = file_roots(self.link, file);
            if let Some(ask) = self.own.next() {
                return Some(ask);
            }
        }
        None
    }
}

impl<'a> Roots<'a> {
    /// All roots of a link.
    pub(crate) fn over(link: &'a LinkInput) -> Roots<'a>
        requires { IsWellFormed link.now }
        ensures { result ≡ roots link.now }
    {
        Roots {
            link,
            own: Successors::none(),
            files: link.groups.files(),
        }
    }
}
