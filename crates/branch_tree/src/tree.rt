//! Trees of splits.
ghost use Rattle.std.specs.Prelude.{◌≡◌, ◌<◌, ◌^◌};
ghost use Rattle.branch_tree.specs.Trees.{is_tree, left_after};

use crate::leaf::Leaf;
use flow_types::Sequence;
use std::marker::Model;

/// A node of a tree: its box is split in two, or a leaf says why no plan of it costs less than its
/// bound.
#[derive(Debug, Drop)]
pub enum TreeNode {
    /// On the early side the flight enters the node by the period, on the late side after it or not
    /// at all. The cutoff is what the best plan cost that was known then, as whoever splits says.
    Split {
        flight: u32,
        node: u16,
        time: u16,
        cutoff: Option<i64>,
    },
    Leaf(Leaf),
}

/// A list of nodes.
pub type TreeNodes = Sequence<TreeNode>;

/// A tree, kept as the list of its nodes in preorder: a split, its early tree, its late tree. So no
/// call goes down a deep tree call by call. Contracts see that list, and know that it is one
/// tree's.
#[derive(Debug, Drop)]
pub struct Tree {
    nodes: TreeNodes,
}

impl Model for Tree {
    ghost use Rattle.std.specs.Prelude.{◌≡◌, List, true};
    ghost use Rattle.branch_tree.specs.declared.tree.TreeNode.{TreeNode};
    ghost use Rattle.branch_tree.specs.Trees.{is_tree};

    ghost Value = { List TreeNode };

    ghost view = { λ t. t.nodes };

    ghost invariant = { λ t. is_tree t.nodes ≡ true };
}

impl Tree {
    ghost use Rattle.std.specs.Prelude.{◌≡◌, IfErr, IfOk, false, length, true};
    ghost use Rattle.branch_tree.specs.Trees.{is_tree};

    /// The tree with these nodes in preorder. Where they aren't those of one tree they are given
    /// back. It takes no memory, and time for each node.
    pub fn from_nodes(nodes: TreeNodes) -> Result<Tree, TreeNodes>
        ensures tree { IfOk result (λ tree. tree ≡ nodes) }
        ensures back { IfErr result (λ back. back ≡ nodes) }
        ensures none { IfErr result (λ back. is_tree nodes ≡ false) }
    {
        if is_tree(nodes.items()) {
            Ok(Tree { nodes })
        } else {
            Err(nodes)
        }
    }

    /// The nodes in preorder.
    pub fn items(&self) -> &[TreeNode]
        ensures items { result.now ≡ self.now }
        ensures tree { is_tree self.now ≡ true }
    {
        self.nodes.items()
    }

    /// How many nodes there are: splits and leaves.
    pub fn nodes(&self) -> u64
        ensures { result ≡ length self.now }
    {
        self.nodes.items().len() as u64
    }
}

// How many trees wait after the node, where some did: two for a split, none for a leaf.
fn left_after(waiting: u64, node: &TreeNode) -> u64
    requires some { 0 < waiting }
    requires few { waiting < 2 ^ 63 }
    ensures { result ≡ left_after waiting node.now }
{
    match node {
        TreeNode::Split { .. } => waiting + 1,
        TreeNode::Leaf(_) => waiting - 1,
    }
}

// Whether these are the nodes of one tree in preorder.
#[tactic(auto, using(crate::proofs::TreeFacts::begun, crate::proofs::TreeFacts::stepped, crate::proofs::TreeFacts::none_waits, crate::proofs::TreeFacts::ended))]
fn is_tree(nodes: &[TreeNode]) -> bool
    ensures { result ≡ is_tree nodes.now }
{
    let mut waiting = 1;
    for node in nodes {
        if waiting == 0 {
            return false;
        }
        waiting = left_after(waiting, node);
    }
    waiting == 0
}
