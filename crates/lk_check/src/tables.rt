//! The rule on tables: the first section whose relocations want entries of a table that the plan gives no part.

ghost use Rattle.std.specs.Prelude.{◌≡◌, not, position};
ghost use Rattle.lk_link.specs.declared.fault.Rule.TheVariants as rule;
ghost use Rattle.lk_link.specs.Files.{AreNumbered};
ghost use Rattle.lk_link.specs.TableRules.{has_tables, has_tables_for};
ghost use Rattle.lk_check.specs.FirstBadFile.{first_bad_in_files};
ghost use Rattle.lk_check.specs.FirstFault.{first_place};

use lk_link::fault::Place;
use lk_link::file::InputFile;
use lk_link::ids::FileId;
use lk_link::link::LinkInput;
use lk_link::plan::NamedParts;
use lk_link::relocation::RelocationKind;
use lk_link::section::InputSection;

/// The first input section that wants an entry of a table without a part, also where it is discarded.
#[tactic(auto, unfolding(crate::specs::FirstFault::first_place))]
pub fn first_place(link: &LinkInput) -> Option<Place>
    requires { AreNumbered link.now.groups }
    ensures { result ≡ first_place link.now rule.Tables }
{
    let (id, section) = first_bad_tables(link)?;
    Some(Place::Input(id, section))
}

/// The same, by its file and its index there.
#[tactic(auto, using(crate::proofs::First::walks))]
fn first_bad_tables(link: &LinkInput) -> Option<(FileId, usize)>
    requires { AreNumbered link.now.groups }
    ensures { result ≡ first_bad_in_files (λ f. f.sections) (λ f. has_tables link.now.plan.named) link.now.groups }
{
    for at in link.groups.files() {
        if let Some(section) = bad_section(&link.plan.named, at.file) {
            return Some((at.id, section));
        }
    }
    None
}

/// The first such section of a file.
fn bad_section(named: &NamedParts, file: &InputFile) -> Option<usize>
    ensures { result ≡ position (λ s. not (has_tables named.now s)) file.now.sections }
{
    file.sections
        .as_slice()
        .iter()
        .position(|section| !has_tables(named, section))
}

/// Whether the tables that a section's relocations want entries of have parts.
pub fn has_tables(named: &NamedParts, section: &InputSection) -> bool
    ensures { result ≡ has_tables named.now section.now }
{
    section
        .relocs
        .as_slice()
        .iter()
        .all(|relocation| has_tables_for(named, relocation.kind))
}

/// Whether those do that a kind of relocation wants entries of.
fn has_tables_for(named: &NamedParts, kind: RelocationKind) -> bool
    ensures { result ≡ has_tables_for named.now kind }
{
    (!kind.wants_plt() || named.plt.is_some()) && (!kind.wants_got() || named.got.is_some())
}
