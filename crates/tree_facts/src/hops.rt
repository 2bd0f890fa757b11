ghost use Rattle.std.specs.Prelude.{◌≡◌, ◌≢◌, ◌<◌, ◌↔◌, length, IsTrue};
ghost use Rattle.tree_facts.specs.Tree.{IsTree, hop};
ghost use Rattle.tree_facts.specs.Hops.{next_hop_of, node_after};

/// The next node on the way through a tree.
#[derive(Clone, Copy, Debug, PartialEq, Eq)]
pub enum Hop {
    /// The way ends here.
    Here,
    /// It leads to the parent.
    Up,
    /// It leads to this child.
    Child(u16),
}

/// Whether these are the parents of the nodes of a tree: that of node 0, the root, is 0, and that of
/// any other has a lower number.
pub fn is_tree(parents: &[u16]) -> bool
    ensures { IsTrue result ↔ IsTree parents.now }
{
    for (node, above) in parents.iter().enumerate() {
        if node.max(1) <= *above as usize {
            return false;
        }
    }
    true
}

/// The first hop on the way from a node to another through a tree, which is given by the parents of its nodes
/// (docs/RULES.md, Trees).
pub fn next_hop(parents: &[u16], from: u16, to: u16) -> Hop
    requires tree { IsTree parents.now }
    requires to { to < length parents.now }
    ensures value { result ≡ next_hop_of parents.now from to }
    ensures leads { from ≢ to → node_after parents.now from result ≡ hop parents.now from to }
{
    if from == to {
        return Hop::Here;
    }
    let mut at = to;
    while at != 0 {
        let above = parents[at as usize];
        if above == from {
            return Hop::Child(at);
        }
        at = above;
    }
    Hop::Up
}
