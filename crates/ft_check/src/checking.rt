ghost use Rattle.std.specs.Prelude.{◌≡◌, ◌≤◌, ◌<◌, ◌+◌, ◌^◌, ℕ, ℤ, ◌++◌, length, IsTrue, IsFalse, OnOk, IfErr, IsOkUnless};
ghost use Rattle.ft_linear.specs.meaning.Form.{InArea};
ghost use Rattle.ft_linear.specs.meaning.Formula.{IsOver, Satisfies};
ghost use Rattle.ft_cert.specs.meaning.Evidence.{Holds, NodeHolds};
ghost use Rattle.ft_cert.specs.meaning.Parts.{whole_of};
ghost use Rattle.ft_cert.specs.meaning.Tree.{nodes_of};
ghost use Rattle.ft_cert.specs.walk.Waiting.{children, first_of, rest_of};
ghost use Rattle.ft_check.specs.checking.Room.{IsRoomFor};
ghost use Rattle.ft_check.specs.meaning.Fault.{IsFaultOf};

use crate::fault::CertFault;
use crate::room::CheckRoom;
use crate::steps::step_of;
use ft_cert::{Cert, CertNode, Descent, cert_laws};
use ft_linear::{Area, Formula};
use std::alloc::Global;

/// Goes on from a node to the next one. It is false where the node doesn't hold for its own part.
fn advance(formula: &Formula, node: &CertNode, descent: &mut Descent, room: &mut CheckRoom) -> bool
    requires room { IsRoomFor formula.now descent.old.unknowns room.old }
    requires waits { 0 < length descent.old.parts }
    requires atoms { descent.old.atoms ≡ length formula.now.atoms }
    requires over { IsOver descent.old.unknowns formula.now }
    requires spare { 0 < descent.old.spare }
    ensures holds { IsTrue result → NodeHolds formula.now (first_of descent.old.parts) node.now }
    ensures parts { IsTrue result
        → descent.new.parts ≡ children formula.now (first_of descent.old.parts) node.now ++ rest_of descent.old.parts }
    ensures fails { IsFalse result → NodeHolds formula.now (first_of descent.old.parts) node.now → ⊥ }
    ensures room { IsRoomFor formula.now descent.old.unknowns room.new }
    ensures unknowns { descent.new.unknowns ≡ descent.old.unknowns }
    ensures atoms { descent.new.atoms ≡ descent.old.atoms }
    ensures spare { descent.old.spare ≤ descent.new.spare + 1 }
{
    match step_of(formula, descent.part(), node, room) {
        Some(step) => {
            descent.take(step);
            true
        }
        None => false,
    }
}

/// Whether a certificate holds for a formula and an area: then no point of the area satisfies the formula. Else the answer is the
/// first node in prefix order that doesn't hold for its own part, or want of memory. All memory is taken before the first node is
/// looked at. The time goes by the nodes, times what one judgement of the formula and the node's own rule take.
pub fn check(alloc: Global, formula: &Formula, area: &Area, cert: &Cert) -> Result<(), CertFault>
    requires over { IsOver (length area.now.spans) formula.now }
    requires nodes { length (nodes_of cert.now) < 2 ^ 32 }
    ensures ok { OnOk result (Holds formula.now (whole_of formula.now area.now.spans) cert.now) }
    ensures fault { IfErr result (IsFaultOf formula.now (whole_of formula.now area.now.spans) cert.now) }
    ensures only { Holds formula.now (whole_of formula.now area.now.spans) cert.now → IsOkUnless result CertFault.NoMemory }
    ensures none { OnOk result ((x : ℕ → ℤ) → InArea area.now.spans x → Satisfies formula.now x → ⊥) }
{
    cert_laws();
    let nodes = cert.nodes();
    let mut room = CheckRoom::open(alloc, formula, area)?;
    let mut descent = Descent::open(alloc, formula, area, nodes.len())?;
    let mut number = 0;
    'nodes: for node in nodes {
        number += 1;
        if !advance(formula, node, &mut descent, &mut room) {
            return Err(CertFault::Node { node: number });
        }
    }
    Ok(())
}
