// What nodes, peer groups and elements are known by.
ghost use Rattle.std.specs.Prelude.{◌≡◌};
ghost use Rattle.packets.specs.Ids.{larger_node, same_name, same_node};

// Ordered as unsigned numbers.
#[derive(Clone, Copy, PartialEq, Eq, PartialOrd, Ord)]
pub struct NodeId {
    pub bytes: [u8; 22],
}

#[derive(Clone, Copy)]
pub struct PeerGroupId {
    pub bytes: [u8; 14],
}

// An element's name: the node that it belongs to, and a number by which that node knows it.
#[derive(Clone, Copy, PartialEq, Eq)]
pub struct Name {
    pub node: NodeId,
    pub number: u32,
}

impl NodeId {
    // Stays beside the derived `==`: the clause says by `same_node` what the operator means, and an edit meets it.
    pub fn same(&self, other: &NodeId) -> bool
        ensures { result ≡ same_node self.now other.now }
    {
        self == other
    }

    // As unsigned numbers.
    // Stays beside the derived `>`: the clause says by `larger_node` what the operator means, and an edit meets it.
    #[tactic(auto, using(crate::proofs::IdLaws::is_larger))]
    pub fn is_larger(&self, other: &NodeId) -> bool
        ensures { result ≡ larger_node self.now other.now }
    {
        self > other
    }
}

impl Name {
    // Stays beside the derived `==`: the clause says by `same_name` what the operator means, and an edit meets it.
    pub fn same(&self, other: &Name) -> bool
        ensures { result ≡ same_name self.now other.now }
    {
        *self == *other
    }
}
