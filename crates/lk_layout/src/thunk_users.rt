//! The objects that need thunks, which are found by their files.

ghost use Rattle.std.specs.Prelude.{◌≡◌};
ghost use Rattle.lk_layout.specs.ThunkUsers.{AreInOrder, is_before, is_same, user_for};

use lk_link::FileId;
use lk_link::list::List;
use lk_thunks::ThunkBlockId;
use std::marker::Model;

/// Each object that needs thunks, by rising file, with its block, and whether it owns that. Contracts see the list of them.
#[derive(Drop)]
pub(crate) struct ThunkUsers {
    users: List<(FileId, ThunkBlockId, bool)>,
}

impl Model for ThunkUsers {
    ghost use Rattle.std.specs.Prelude.{Bool, List as Items, ℕ};
    ghost use Rattle.lk_link.specs.declared.ids.FileId.{FileId};
    ghost use Rattle.lk_layout.specs.ThunkUsers.{AreInOrder};

    ghost Value = { Items (FileId × ℕ × Bool) };

    ghost view = { λ a. a.users };

    ghost invariant = { λ a. AreInOrder a.users };
}

/// Whether a file stands before another: in an earlier group, or earlier in the same.
fn is_before(file: FileId, other: FileId) -> bool
    ensures { result ≡ is_before file other }
{
    file.group < other.group || (file.group == other.group && file.file < other.file)
}

/// Whether these are one file.
fn is_same(file: FileId, other: FileId) -> bool
    ensures { result ≡ is_same file other }
{
    file.group == other.group && file.file == other.file
}

/// The object that is this file, with its block, if it is among these, which are in order.
fn find_user(
    users: &[(FileId, ThunkBlockId, bool)],
    id: FileId,
) -> Option<(FileId, ThunkBlockId, bool)>
    requires { AreInOrder users.now }
    ensures { result ≡ user_for users.now id }
{
    let place = users.partition_point(|user| is_before(user.0, id));
    match users.get(place) {
        Some(user) if is_same(user.0, id) => Some(*user),
        _ => None,
    }
}

impl ThunkUsers {
    ghost use Rattle.lk_layout.specs.ThunkUsers.{block_for, owns_block};

    /// The objects of a list that is in order.
    pub(crate) fn new(users: List<(FileId, ThunkBlockId, bool)>) -> ThunkUsers
        requires { AreInOrder users }
        ensures { result ≡ users }
    {
        ThunkUsers { users }
    }

    /// All of them, lent.
    pub(crate) fn as_slice(&self) -> &[(FileId, ThunkBlockId, bool)]
        ensures { result.now ≡ self.now }
    {
        self.users.as_slice()
    }

    /// The block of a file, and whether it owns that; `ThunkBlockId::FIRST` and no, where it needs no thunks. Takes logarithmic time.
    pub(crate) fn block_for(&self, id: FileId) -> (ThunkBlockId, bool)
        ensures { result ≡ (block_for self.now id, owns_block self.now id) }
    {
        match find_user(self.users.as_slice(), id) {
            Some((_, block, owns)) => (block, owns),
            None => (ThunkBlockId::FIRST, false),
        }
    }
}
