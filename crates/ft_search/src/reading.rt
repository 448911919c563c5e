// What a search found, read from its room.

ghost use Rattle.std.specs.Prelude.{◌≡◌, ◌<◌, ◌^◌, ◌++◌, length, neg_ℤ, IfOk, OnOk, if◌then◌else◌};
ghost use Rattle.ft_linear.specs.meaning.Form.{InArea, IsSmall, values_at};
ghost use Rattle.ft_linear.specs.meaning.Halving.{cancelling, single_lines};
ghost use Rattle.ft_cert.specs.meaning.Evidence.{Holds};
ghost use Rattle.ft_cert.specs.meaning.Parts.{whole_of};
ghost use Rattle.ft_cert.specs.meaning.Tree.{nodes_of};
ghost use Rattle.ft_cert.specs.prefix.Row.{tree_of};
ghost use Rattle.ft_cert.specs.walk.Waiting.{first_of};
ghost use Rattle.ft_search.specs.searching.Kept.{IsEvidence, form_of, node_of, nodes_by, other_line};

use crate::kept::KeptNode;
use crate::room::Room;
use crate::spent::SpentTree;
use ft_base::{List, NoMemory, Span};
use ft_cert::{Cert, CertNode, cert_laws};
use ft_linear::{Area, Formula, Lin, Line, form_laws};
use ft_pool::Pool;
use std::alloc::Global;

/// The bound that cancels a factor of a literal's line.
fn cancelling(value: bool, factor: (u32, i64)) -> Line
    requires { IsSmall factor.1 }
    ensures { result ≡ cancelling (factor.0, if value then factor.1 else neg_ℤ factor.1) }
{
    let above = if value { factor.1 > 0 } else { factor.1 < 0 };
    if above {
        Line::Lower {
            unknown: factor.0,
            times: factor.1.unsigned_abs(),
        }
    } else {
        Line::Upper {
            unknown: factor.0,
            times: factor.1.unsigned_abs(),
        }
    }
}

/// Adds the bound that cancels a factor, where it is of another unknown.
fn add_other(
    lines: &mut List<Line>,
    value: bool,
    unknown: u32,
    factor: (u32, i64),
) -> Result<(), NoMemory>
    requires { IsSmall factor.1 }
    ensures { OnOk result (lines.new ≡ lines.old ++ other_line value unknown factor) }
{
    if factor.0 == unknown {
        return Ok(());
    }
    lines.push(cancelling(value, factor))
}

/// The lines of a literal of this form with which an unknown is tightened.
fn literal_lines(
    alloc: Global,
    form: &Lin,
    atom: u32,
    value: bool,
    unknown: u32,
) -> Result<List<Line>, NoMemory>
    ensures { IfOk result (λ lines. lines ≡ single_lines atom value unknown form.now) }
{
    form_laws();
    let mut lines = List::new(alloc);
    lines.push(Line::Atom {
        number: atom,
        value,
        times: 1,
    })?;
    'factors: for factor in form.factors() {
        add_other(&mut lines, value, unknown, *factor)?;
    }
    Ok(lines)
}

/// The lines of a literal. A formula that doesn't have the atom gives the atom's line alone.
fn lines_of(
    alloc: Global,
    formula: &Formula,
    atom: u32,
    value: bool,
    unknown: u32,
) -> Result<List<Line>, NoMemory>
    ensures { IfOk result (λ lines. lines ≡ single_lines atom value unknown (form_of formula.now atom)) }
{
    let atoms = formula.atoms();
    if (atom as usize) < atoms.len() {
        return literal_lines(alloc, &atoms[atom as usize], atom, value, unknown);
    }
    let mut lines = List::new(alloc);
    lines.push(Line::Atom {
        number: atom,
        value,
        times: 1,
    })?;
    Ok(lines)
}

/// The node of a certificate.
fn node_of(alloc: Global, formula: &Formula, kept: KeptNode) -> Result<CertNode, NoMemory>
    ensures { IfOk result (λ node. node ≡ node_of formula.now kept) }
{
    match kept {
        KeptNode::Refuted => Ok(CertNode::F),
        KeptNode::Unsolved => Ok(CertNode::L),
        KeptNode::Cut { unknown, value } => Ok(CertNode::R { unknown, value }),
        KeptNode::Case { atom } => Ok(CertNode::C { atom }),
        KeptNode::Tightened {
            unknown,
            atom,
            value,
        } => Ok(CertNode::T {
            unknown,
            lines: lines_of(alloc, formula, atom, value, unknown)?,
        }),
    }
}

/// The nodes that were kept.
fn nodes_of(
    alloc: Global,
    formula: &Formula,
    kept: &Pool<KeptNode>,
) -> Result<List<CertNode>, NoMemory>
    ensures { IfOk result (λ nodes. nodes ≡ nodes_by formula.now kept.now.items) }
{
    let mut nodes = List::new(alloc);
    let count = kept.len();
    for place in 0..count {
        nodes.push(node_of(alloc, formula, kept.get(kept.id(place)))?)?;
    }
    Ok(nodes)
}

/// The least value of each span.
fn lows(alloc: Global, spans: &[Span]) -> Result<List<i64>, NoMemory>
    ensures { IfOk result (λ values. InArea spans.now (values_at values)) }
{
    let mut values = List::new(alloc);
    for span in spans {
        values.push(span.lo())?;
    }
    Ok(values)
}

impl Room {
    /// The certificate, where the last search closed the area.
    pub fn cert(&self, alloc: Global, formula: &Formula, area: &Area) -> Result<Cert, NoMemory>
        requires { IsEvidence formula.now (whole_of formula.now area.now.spans) (nodes_by formula.now self.now.nodes.items) }
        ensures holds { IfOk result (Holds formula.now (whole_of formula.now area.now.spans)) }
        ensures few { IfOk result (λ cert. length (nodes_of cert) < 2 ^ 32) }
    {
        cert_laws();
        let nodes = nodes_of(alloc, formula, &self.nodes)?;
        match Cert::of_nodes(alloc, nodes)? {
            Some(cert) => Ok(cert),
            None => unreachable!(),
        }
    }

    /// A point of the part at which the last search stopped.
    pub fn point(&self, alloc: Global) -> Result<List<i64>, NoMemory>
        requires { 0 < length self.now.descent.parts }
        ensures { IfOk result (λ values. InArea (first_of self.now.descent.parts).spans (values_at values)) }
    {
        lows(alloc, self.descent.part().area().spans.as_slice())
    }

    /// The tree, where the last search used its splits up.
    pub fn tree(&self, alloc: Global, formula: &Formula) -> Result<SpentTree, NoMemory>
        ensures { IfOk result (λ tree. tree ≡ tree_of (nodes_by formula.now self.now.nodes.items)) }
    {
        Ok(SpentTree::of_nodes(nodes_of(alloc, formula, &self.nodes)?))
    }
}
