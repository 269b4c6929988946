// The members at which a node is evaluated.
ghost use Rattle.std.specs.Prelude.{◌≡◌};
ghost use Rattle.node_eval.specs.Dependencies.{entered};

/// Where a node stands: the member of its slot, or 0, and under a condition the condition's member.
#[derive(Clone, Copy)]
pub struct NodePosition {
    pub own: u32,
    pub inner: u32,
}

impl NodePosition {
    /// At a member of a collection, under the condition that it is to meet.
    pub fn at(self, member: u32) -> NodePosition
        ensures { result ≡ entered self member }
    {
        NodePosition {
            own: self.own,
            inner: member,
        }
    }
}
