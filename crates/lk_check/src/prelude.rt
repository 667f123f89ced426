//! The rule on the prelude.

ghost use Rattle.std.specs.Prelude.{◌≡◌};
ghost use Rattle.lk_link.specs.declared.fault.Rule.TheVariants as rule;
ghost use Rattle.lk_link.specs.Files.{AreNumbered};
ghost use Rattle.lk_link.specs.Rules.{begins_with_prelude};
ghost use Rattle.lk_check.specs.FirstBadFile.{first_file_where, is_other_prelude};
ghost use Rattle.lk_check.specs.FirstFault.{first_place};

use lk_link::fault::Place;
use lk_link::file::InputFile;
use lk_link::groups::InputGroups;
use lk_link::ids::FileId;
use lk_link::link::LinkInput;
use lk_link::list::List;

/// The first file of the first group, where it is no prelude or isn't there; else the first other file that is one.
#[tactic(auto, unfolding(crate::specs::FirstFault::first_place))]
pub fn first_place(link: &LinkInput) -> Option<Place>
    requires { AreNumbered link.now.groups }
    ensures { result ≡ first_place link.now rule.Prelude }
{
    if begins_with_prelude(link.groups.as_slice()) {
        other_prelude(&link.groups)
    } else {
        Some(Place::File(FileId { group: 0, file: 0 }))
    }
}

/// The first file that is a prelude, and not the first file of the first group.
fn other_prelude(groups: &InputGroups) -> Option<Place>
    requires { AreNumbered groups.now }
    ensures { result ≡ first_file_where is_other_prelude groups.now }
{
    for at in groups.files() {
        if is_other_prelude(at.id, at.file) {
            return Some(Place::File(at.id));
        }
    }
    None
}

/// Whether the first file of the first group is the prelude.
fn begins_with_prelude(groups: &[List<InputFile>]) -> bool
    ensures { result ≡ begins_with_prelude groups.now }
{
    let Some(files) = groups.first() else {
        return false;
    };
    let Some(file) = files.as_slice().first() else {
        return false;
    };
    file.kind.is_prelude()
}

/// Whether a file is a prelude, and not the first file of the first group.
fn is_other_prelude(id: FileId, file: &InputFile) -> bool
    ensures { result ≡ is_other_prelude (record { id = id; file = file.now }) }
{
    file.kind.is_prelude() && !(id.group == 0 && id.file == 0)
}
