ghost use Rattle.std.specs.Prelude.{◌≡◌, ◌<◌, true, IfOk, IfSome, IfNone, OnErr};
ghost use Rattle.ft_cert.specs.meaning.Tree.{Tree, is_closed, nodes_of};
ghost use Rattle.ft_cert.specs.prefix.Row.{are_trees, parts_of};

use crate::node::CertNode;
use ft_base::{List, NoMemory};
use std::alloc::Global;
use std::marker::Model;

/// A whole tree of nodes, kept as the list of its nodes in prefix order. Contracts see the tree.
#[derive(Drop)]
pub struct Cert {
    nodes: List<CertNode>,
}

impl Model for Cert {
    ghost use Rattle.std.specs.Prelude.{◌≡◌, true};
    ghost use Rattle.ft_cert.specs.meaning.Tree.{Tree};
    ghost use Rattle.ft_cert.specs.prefix.Row.{are_trees, tree_of};
    ghost use Rattle.ft_cert.specs.prefix.Code.{tree_code};

    ghost Value = { Tree };

    ghost coded = { tree_code };

    ghost view = { λ cert. tree_of cert.nodes };

    ghost invariant = { λ cert. are_trees 1 cert.nodes ≡ true };
}

/// How many parts a node makes of its own.
fn parts_of(node: &CertNode) -> usize
    ensures value { result ≡ parts_of node.now }
    ensures few { result < 3 }
{
    match node {
        CertNode::F => 0,
        CertNode::L => 0,
        CertNode::S { .. } => 0,
        CertNode::R { .. } => 2,
        CertNode::C { .. } => 2,
        CertNode::T { .. } => 1,
    }
}

/// Whether the nodes are one whole tree.
fn is_whole(nodes: &[CertNode]) -> bool
    ensures { result ≡ are_trees 1 nodes.now }
{
    let mut missing = 1;
    for node in nodes {
        if missing == 0 {
            return false;
        }
        missing = missing - 1 + parts_of(node);
    }
    missing == 0
}

impl Cert {
    /// The tree with these nodes in prefix order. None exactly where they are not one whole tree. It is never an error, since the
    /// list is kept as it is.
    pub fn of_nodes(_alloc: Global, nodes: List<CertNode>) -> Result<Option<Cert>, NoMemory>
        ensures whole { IfOk result (λ cert. IfSome cert (λ t. (nodes_of t ≡ nodes) × (is_closed t ≡ true))) }
        ensures none { IfOk result (λ cert. IfNone cert ((t : Tree) → is_closed t ≡ true → nodes_of t ≡ nodes → ⊥)) }
        ensures always { OnErr result ⊥ }
    {
        if is_whole(nodes.as_slice()) {
            Ok(Some(Cert { nodes }))
        } else {
            Ok(None)
        }
    }

    /// The nodes in prefix order.
    pub fn nodes(&self) -> &[CertNode]
        ensures value { result.now ≡ nodes_of self.now }
        ensures closed { is_closed self.now ≡ true }
    {
        self.nodes.as_slice()
    }
}
