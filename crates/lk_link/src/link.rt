//! The whole description.

ghost use Rattle.std.specs.Prelude.{◌≡◌};

use crate::groups::InputGroups;
use crate::ids::SymbolId;
use crate::options::Options;
use crate::plan::Plan;

/// A link description: what is asked for, a plan, and the input files by groups.
#[derive(Drop)]
pub struct LinkInput {
    pub options: Options,
    pub plan: Plan,
    pub groups: InputGroups,
}

impl LinkInput {
    ghost use Rattle.lk_link.specs.Entries.{entry_definition};

    /// The symbol that stands for the entry, if the options name one. Takes logarithmic time.
    pub fn entry_definition(&self) -> Option<SymbolId>
        ensures { result ≡ entry_definition self.now }
    {
        self.groups.definition(self.options.entry?)
    }
}
