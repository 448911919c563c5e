//! Certificates, as trees of nodes.
ghost use Rattle.std.specs.Prelude.{◌≡◌, ◌<◌, ◌^◌, ◌++◌, length, IfOk, IfErr};
ghost use Rattle.ft_cert.specs.meaning.Tree.{nodes_of};
ghost use Rattle.ft_cert.specs.prefix.Row.{parts_of};
ghost use Rattle.ft_certs.specs.meaning.Text.{IsCert, nodes_text};
ghost use Rattle.ft_certs.specs.building.Pieces.{Rows};
ghost use Rattle.ft_certs.specs.building.Stuck.{Stopped};

use crate::nodes::node;
use crate::stop::Stop;
use ft_base::List;
use ft_cert::{Cert, CertNode};
use std::alloc::Global;

// How many parts a node makes of its own.
fn parts_of(node: &CertNode) -> u64
    ensures value { result ≡ parts_of node.now }
    ensures few { result < 3 }
{
    match node {
        CertNode::F => 0,
        CertNode::L => 0,
        CertNode::S { .. } => 0,
        CertNode::R { .. } => 2,
        CertNode::C { .. } => 2,
        CertNode::T { .. } => 1,
    }
}

// The nodes of one tree, and the bytes after them.
fn nodes<'t>(alloc: Global, bytes: &'t [u8]) -> Result<(List<CertNode>, &'t [u8]), Stop>
    requires { length bytes.now < 2 ^ 32 }
    ensures read { IfOk result (λ r. IsCert r.0 × (bytes.now ≡ nodes_text r.0 ++ r.1.now)) }
    ensures stopped { IfErr result (Stopped (Rows 1) bytes.now) }
{
    let mut nodes = List::new(alloc);
    let mut missing: u64 = 1;
    let mut rest = bytes;
    'nodes: while missing > 0 {
        let (node, more) = node(alloc, rest)?;
        missing = missing - 1 + parts_of(&node);
        nodes.push(node)?;
        rest = more;
    }
    Ok((nodes, rest))
}

/// A certificate with a line for each node, and the bytes after it.
pub(crate) fn tree<'t>(alloc: Global, bytes: &'t [u8]) -> Result<(Cert, &'t [u8]), Stop>
    requires { length bytes.now < 2 ^ 32 }
    ensures read { IfOk result (λ r. IsCert (nodes_of r.0) × (bytes.now ≡ nodes_text (nodes_of r.0) ++ r.1.now)) }
    ensures stopped { IfErr result (Stopped (Rows 1) bytes.now) }
{
    let (nodes, rest) = nodes(alloc, bytes)?;
    match Cert::of_nodes(alloc, nodes)? {
        Some(cert) => Ok((cert, rest)),
        None => Err(Stop::Stuck(bytes.len())),
    }
}
