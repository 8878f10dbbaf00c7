//! Trees of splits, and their leaves, each of which has a bound on its box of plans: the tree of a
//! branch and bound.
//!
//! A caller makes a leaf, and asks `dual_leaf` for its bound:
//!
//!     let mut rows = Multipliers::empty(alloc);
//!     rows.add(Multiplier { row: RowName::Dep { place, period }, value: 3 })?;
//!     let leaf = Leaf::Dual { weight: 1, rows };
//!
//! A tree is the list of its nodes in preorder, a split before its early and its late side:
//!
//!     let mut nodes = TreeNodes::empty(alloc);
//!     nodes.add(TreeNode::Split { flight, node, time, cutoff: None })?;
//!     nodes.add(TreeNode::Leaf(Leaf::Unit))?;
//!     nodes.add(TreeNode::Leaf(leaf))?;
//!     match Tree::from_nodes(nodes) {
//!         Ok(tree) => println!("{} nodes", tree.nodes()),
//!         Err(nodes) => println!("no tree has these {} nodes", nodes.items().len()),
//!     }
//!
//! Whoever goes down such a list has one box at a time, by a path that remembers which sides wait:
//!
//!     let mut walk = Walk::new(alloc, root)?;
//!     walk.split(&s, Branch { flight, node, time })?;
//!     while walk.next(&s)? {
//!         println!("{} boxes wait", walk.waiting());
//!     }
//!
//! The definitions stand in `specs/`: `Leaves` (how large the numbers of a leaf may be), `Trees`
//! (which lists are trees), `Forests` (the boxes of a tree's nodes), `Paths` (the way down to a
//! box, and the boxes that wait) and `Lawful` (lawful trees on a tight box, and their bounds).
//! What else is said of nodes is a parameter there; which bounds leaves have is defined in
//! `dual_leaf`.
//!
//! Proved: `from_nodes` makes the tree of the nodes, or gives them back, and that exactly where
//! they aren't one tree's (`tree`, `back`, `none`). The nodes of a lawful tree are one tree's
//! (`lawful_trees_are_trees`), and its bound is one on its box where those of its leaves are on
//! theirs (`tree_bounds_are_bounds`). A path goes to the tight early side of a lawful split
//! (`Walk::split`) and to the tight late side that waits next, or tells that none waits
//! (`Walk::next`).
//!
//! Memory: 24 bytes a multiplier and some 40 a node, or up to twice that, since lists grow. A path
//! takes one box, the log of what changed on the way, and 16 bytes a step; the other calls take
//! none.
#![tactic(auto)]

mod laws;
mod leaf;
mod tree;
mod walk;

pub use laws::{lawful_trees_are_trees, tree_bounds_are_bounds};
pub use leaf::Leaf;
pub use tree::{Tree, TreeNode, TreeNodes};
pub use walk::{Branch, Step, Walk};
