ghost use Rattle.std.specs.Prelude.{◌≡◌};
ghost use Rattle.ft_cert.specs.prefix.Row.{tree_of};

use ft_base::List;
use ft_cert::CertNode;
use std::marker::Model;

/// The tree of a search whose splits are used up, kept as the list of its nodes in prefix order up to the first part that nothing
/// closes. Contracts see a tree with open leaves for that part and those that wait behind it.
#[derive(Drop)]
pub struct SpentTree {
    nodes: List<CertNode>,
}

impl Model for SpentTree {
    ghost use Rattle.ft_cert.specs.meaning.Tree.{Tree};
    ghost use Rattle.ft_cert.specs.prefix.Code.{tree_code};
    ghost use Rattle.ft_cert.specs.prefix.Row.{tree_of};

    ghost Value = { Tree };

    ghost coded = { tree_code };

    ghost view = { λ tree. tree_of tree.nodes };
}

impl SpentTree {
    /// The tree that these nodes begin.
    pub(crate) fn of_nodes(nodes: List<CertNode>) -> SpentTree
        ensures { result ≡ tree_of nodes }
    {
        SpentTree { nodes }
    }

    /// The nodes in prefix order, up to the first part that nothing closes.
    pub fn nodes(&self) -> &[CertNode]
        ensures { tree_of result.now ≡ self.now }
    {
        self.nodes.as_slice()
    }
}
