//! Which branches reach.

ghost use Rattle.std.specs.Prelude.{◌≡◌, not, position};
ghost use Rattle.lk_thunks.specs.Reach.{is_near, reach_of, reaches};

use std::fmt;

/// A branch with its addresses.
#[derive(Clone, Copy, Debug, PartialEq, Eq)]
pub struct BranchSite {
    /// Where it stands.
    pub site: u64,
    /// What it goes to.
    pub target: u64,
    /// The thunk that it may go by.
    pub thunk: Option<u64>,
}

/// A branch reaches neither its target nor its thunk: its place in the list.
#[derive(Clone, Copy, Debug, PartialEq, Eq)]
pub struct OutOfReach(pub usize);

/// As `branch 3 is out of reach`.
impl fmt::Display for OutOfReach {
    ghost use Rattle.std.specs.Prelude.{Some, codes, ◌++◌};
    ghost use Rattle.std.specs.Fmt.{decimal};

    ghost output = { λ fault. Some (codes "branch " ++ decimal fault.0 ++ codes " is out of reach") };

    fn fmt<W: fmt::Write>(&self, f: &mut fmt::Formatter<W>) -> fmt::Result {
        let place = self.0;
        write!(f, "branch {place} is out of reach")
    }
}

/// Whether two addresses are nearer to each other than the range, in bytes.
pub fn is_near(range: u64, a: u64, b: u64) -> bool
    ensures { result ≡ is_near range a b }
{
    a.abs_diff(b) < range
}

impl BranchSite {
    /// Whether it reaches its target or its thunk, by a range in bytes.
    pub fn is_reached(&self, range: u64) -> bool
        ensures { result ≡ reaches range self.now }
    {
        is_near(range, self.site, self.target)
            || match self.thunk {
                Some(thunk) => is_near(range, self.site, thunk),
                None => false,
            }
    }
}

/// The place of the first branch that reaches neither its target nor its thunk.
fn first_unreached(branches: &[BranchSite], range: u64) -> Option<usize>
    ensures { result ≡ position (λ b. not (reaches range b)) branches.now }
{
    branches.iter().position(|branch| !branch.is_reached(range))
}

/// Refuses the first branch that reaches neither its target nor its thunk. A branch reaches what is nearer than the range, in
/// bytes. Takes no memory.
pub fn check_reach(branches: &[BranchSite], range: u64) -> Result<(), OutOfReach>
    ensures { result ≡ reach_of range branches.now }
{
    match first_unreached(branches, range) {
        Some(place) => Err(OutOfReach(place)),
        None => Ok(()),
    }
}
