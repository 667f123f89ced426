//! The asks that are left of scripts and of synthetic files: pieces of the one iterator of asks.

ghost use Rattle.std.specs.Prelude.{◌≡◌, [], List};
ghost use Rattle.std.specs.Iterator.{YieldsFirst, item_count};
ghost use Rattle.lk_reach.specs.declared.units.Ask.{Ask};

use crate::asks::ExpressionAsks;
use crate::reaching::{event_asks, is_script_root};
use crate::units::Ask;
use lk_link::{Candidate, InputGroups, InputSymbol, OrderEvent, SymbolId, ValueFlags};
use std::marker::Model;

/// What is left of the candidates of an output section. Contracts see the list of the asks.
#[derive(Drop)]
pub(crate) struct CandidateAsks<'a> {
    pub(crate) candidates: &'a [Candidate],
}

impl<'a> Model for CandidateAsks<'a> {
    ghost use Rattle.std.specs.Prelude.{List, map};
    ghost use Rattle.lk_reach.specs.declared.units.Ask.{Ask};

    ghost Value = { List Ask };

    ghost use Rattle.lk_reach.specs.Units.{candidate_ask};

    ghost view = { λ a. map candidate_ask a.candidates.now };
}

impl<'a> Iterator for CandidateAsks<'a> {
    type Item = Ask;

    ghost next_gives = { YieldsFirst (λ left. left) };

    ghost remaining = { item_count (λ left. left) };

    fn next(&mut self) -> Option<Ask> {
        match self.candidates.split_first() {
            Some((candidate, candidates)) => {
                self.candidates = candidates;
                Some(Ask::Section(candidate.file, candidate.index))
            }
            None => None,
        }
    }
}

/// What is left of what a redirect of a script asks for, and behind it what it shows. Contracts see the list of the asks.
#[derive(Drop)]
pub(crate) struct RedirectAsks<'a> {
    /// Itself, and the symbols of its expression.
    pub(crate) own: ExpressionAsks<'a>,
    /// The ask for the dynamic linker, where it is still to come.
    pub(crate) shown: Option<Ask>,
}

impl<'a> Model for RedirectAsks<'a> {
    ghost use Rattle.std.specs.Prelude.{◌++◌, List};
    ghost use Rattle.std.specs.Option.{option_to_list};
    ghost use Rattle.std.specs.Coded.{codes};
    ghost use Rattle.lk_link.specs.contracts.expression.Expression as expression;
    ghost use Rattle.lk_reach.specs.declared.units.Ask.{Ask};

    ghost Value = { List Ask };

    ghost coded = { Prim.hlevel (codes, expression.the_row.coded) };

    ghost view = { λ a. a.own ++ option_to_list a.shown };
}

impl<'a> Iterator for RedirectAsks<'a> {
    type Item = Ask;

    ghost next_gives = { YieldsFirst (λ left. left) };

    ghost remaining = { item_count (λ left. left) };

    fn next(&mut self) -> Option<Ask> {
        if let Some(ask) = self.own.next() {
            return Some(ask);
        }
        self.shown.take()
    }
}

/// What is left of the symbols of a script that it asks for. Contracts see the list of the asks.
#[derive(Drop)]
pub(crate) struct WantedAsks<'a> {
    /// The number of the first symbol that is left.
    pub(crate) number: u32,
    /// The symbols that are left.
    pub(crate) symbols: &'a [InputSymbol],
}

impl<'a> Model for WantedAsks<'a> {
    ghost use Rattle.std.specs.Prelude.{◌+◌, ◌<◌, ◌^◌, List, filter, length, map};
    ghost use Rattle.std.specs.Coded.{codes};
    ghost use Rattle.lk_link.specs.contracts.expression.Expression as expression;
    ghost use Rattle.lk_reach.specs.declared.units.Ask.{Ask};

    ghost Value = { List Ask };

    ghost coded = { Prim.hlevel (codes, expression.the_row.coded) };

    ghost use Rattle.std.specs.List.{enumerate_from};
    ghost use Rattle.lk_reach.specs.declared.units.Ask.TheVariants.{Reference};
    ghost use Rattle.lk_reach.specs.Units.{flags_from, is_script_root};

    ghost view = { λ a. map (λ q. Reference q.0 (flags_from 0)) (filter is_script_root (enumerate_from a.number a.symbols.now)) };

    ghost invariant = { λ a. a.number + length a.symbols.now < 2 ^ 32 };
}

impl<'a> Iterator for WantedAsks<'a> {
    type Item = Ask;

    ghost next_gives = { YieldsFirst (λ left. left) };

    ghost remaining = { item_count (λ left. left) };

    fn next(&mut self) -> Option<Ask> {
        while let Some((symbol, symbols)) = self.symbols.split_first() {
            let number = SymbolId::from_u32(self.number);
            self.number += 1;
            self.symbols = symbols;
            if is_script_root(number, symbol) {
                return Some(Ask::Reference(number, ValueFlags(0)));
            }
        }
        None
    }
}

impl<'a> WantedAsks<'a> {
    /// No asks.
    pub(crate) fn none() -> WantedAsks<'a>
        ensures { result ≡ [] }
    {
        WantedAsks {
            number: 0,
            symbols: &[],
        }
    }
}

/// What is left of what the location counter's expressions refer to. Contracts see the list of the asks.
#[derive(Drop)]
pub(crate) struct LocationAsks<'a> {
    /// What is left of the event before.
    pub(crate) own: ExpressionAsks<'a>,
    pub(crate) groups: &'a InputGroups,
    /// The events that are left.
    pub(crate) events: &'a [OrderEvent],
}

impl<'a> Model for LocationAsks<'a> {
    ghost use Rattle.std.specs.Prelude.{◌++◌, List};
    ghost use Rattle.std.specs.List.{flat_map};
    ghost use Rattle.std.specs.Coded.{codes};
    ghost use Rattle.lk_link.specs.contracts.expression.Expression as expression;
    ghost use Rattle.lk_reach.specs.declared.units.Ask.{Ask};

    ghost Value = { List Ask };

    ghost coded = { Prim.hlevel (codes, expression.the_row.coded) };

    ghost use Rattle.lk_reach.specs.Units.{event_asks};

    ghost view = { λ a. a.own ++ flat_map (event_asks a.groups.now) a.events.now };
}

impl<'a> Iterator for LocationAsks<'a> {
    type Item = Ask;

    ghost next_gives = { YieldsFirst (λ left. left) };

    ghost remaining = { item_count (λ left. left) };

    fn next(&mut self) -> Option<Ask> {
        if let Some(ask) = self.own.next() {
            return Some(ask);
        }
        while let Some((event, events)) = self.events.split_first() {
            self.events = events;
            self.own = event_asks(self.groups, event);
            if let Some(ask) = self.own.next() {
                return Some(ask);
            }
        }
        None
    }
}

/// What is left of what a script asks for: its symbols, then what the location counter's expressions refer to. Contracts see
/// the list of the asks.
#[derive(Drop)]
pub(crate) struct ScriptRoots<'a> {
    pub(crate) wanted: WantedAsks<'a>,
    pub(crate) locations: LocationAsks<'a>,
}

impl<'a> Model for ScriptRoots<'a> {
    ghost use Rattle.std.specs.Prelude.{◌++◌, List};
    ghost use Rattle.std.specs.Coded.{codes};
    ghost use Rattle.lk_link.specs.contracts.expression.Expression as expression;
    ghost use Rattle.lk_reach.specs.declared.units.Ask.{Ask};

    ghost Value = { List Ask };

    ghost coded = { Prim.hlevel (codes, expression.the_row.coded) };

    ghost view = { λ a. a.wanted ++ a.locations };
}

impl<'a> Iterator for ScriptRoots<'a> {
    type Item = Ask;

    ghost next_gives = { YieldsFirst (λ left. left) };

    ghost remaining = { item_count (λ left. left) };

    fn next(&mut self) -> Option<Ask> {
        if let Some(ask) = self.wanted.next() {
            return Some(ask);
        }
        self.locations.next()
    }
}
