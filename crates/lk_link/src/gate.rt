//! Where the workers of a computation can be made to wait for one another, as tests of their order do.

/// Is told before each turn of a group's work; libwild has nothing like it. A gate may be one that contracts let nobody
/// enter (`may_enter`): a call that takes it calls it only where its own contract asks for that leave.
pub trait Gate {
    ghost may_enter: { Self → Type 0 } = { λ _. Unit {0} };

    /// Called before a worker takes a turn at the group's work.
    fn enter(&self, group: u32)
        requires { may_enter self.now };
}

/// Lets every worker pass.
#[derive(Clone, Copy, Debug, PartialEq, Eq)]
pub struct NoGate;

impl Gate for NoGate {
    fn enter(&self, _group: u32) {}
}
