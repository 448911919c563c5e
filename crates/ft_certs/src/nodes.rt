//! The nodes of a certificate, a line each.
ghost use Rattle.std.specs.Prelude.{◌≡◌, ◌<◌, ◌^◌, ◌++◌, ◌∷◌, [], length, true, codes, IfOk, IfErr};
ghost use Rattle.std.specs.List.{list_any};
ghost use Rattle.std.specs.Fmt.{decimal};
ghost use Rattle.ft_base.specs.Digits.{is_digit};
ghost use Rattle.ft_certs.specs.meaning.Text.{IsNode, end_line, node_text};
ghost use Rattle.ft_certs.specs.building.Pieces.{Fields, NoDigit, NodeLines, NodeRests, is_one_of};
ghost use Rattle.ft_certs.specs.building.Stuck.{Stopped};

use crate::numbers::{MOST_OF_32_BITS, number, signed};
use crate::stop::Stop;
use crate::sums::lines;
use crate::words::{end, word};
use ft_cert::CertNode;
use std::alloc::Global;

// A number below 2^32 after a space, its end, and the bytes after that.
fn field<'t>(bytes: &'t [u8], ends: &[u8]) -> Result<(u32, u8, &'t [u8]), Stop>
    requires { NoDigit ends.now }
    ensures read { IfOk result (λ r. (r.0 < 2 ^ 32) × (is_one_of ends.now r.1 ≡ true) × (bytes.now ≡ (32 ∷ decimal r.0 ++ r.1 ∷ []) ++ r.2.now)) }
    ensures stopped { IfErr result (Stopped (Fields ends.now) bytes.now) }
{
    let rest = word(bytes, b" ")?;
    let (value, end, rest) = number(rest, 0, MOST_OF_32_BITS, ends)?;
    Ok((value as u32, end, rest))
}

// A node S after its letter.
fn sum_node<'t>(alloc: Global, bytes: &'t [u8]) -> Result<(CertNode, &'t [u8]), Stop>
    ensures read { IfOk result (λ r. IsNode r.0 × (83 ∷ bytes.now ≡ node_text r.0 ++ end_line ++ r.1.now)) }
    ensures stopped { IfErr result (Stopped (NodeRests 83) bytes.now) }
{
    let (end, rest) = end(bytes, b" \n")?;
    let (lines, rest) = lines(alloc, end, rest)?;
    Ok((CertNode::S { lines }, rest))
}

// A node R after its letter.
fn cut_node<'t>(bytes: &'t [u8]) -> Result<(CertNode, &'t [u8]), Stop>
    ensures read { IfOk result (λ r. IsNode r.0 × (82 ∷ bytes.now ≡ node_text r.0 ++ end_line ++ r.1.now)) }
    ensures stopped { IfErr result (Stopped (NodeRests 82) bytes.now) }
{
    let (unknown, _, rest) = field(bytes, b" ")?;
    let (value, _, rest) = signed(rest, b"\n")?;
    Ok((CertNode::R { unknown, value }, rest))
}

// A node C after its letter.
fn case_node<'t>(bytes: &'t [u8]) -> Result<(CertNode, &'t [u8]), Stop>
    ensures read { IfOk result (λ r. IsNode r.0 × (67 ∷ bytes.now ≡ node_text r.0 ++ end_line ++ r.1.now)) }
    ensures stopped { IfErr result (Stopped (NodeRests 67) bytes.now) }
{
    let (atom, _, rest) = field(bytes, b"\n")?;
    Ok((CertNode::C { atom }, rest))
}

// A node T after its letter.
fn tight_node<'t>(alloc: Global, bytes: &'t [u8]) -> Result<(CertNode, &'t [u8]), Stop>
    ensures read { IfOk result (λ r. IsNode r.0 × (84 ∷ bytes.now ≡ node_text r.0 ++ end_line ++ r.1.now)) }
    ensures stopped { IfErr result (Stopped (NodeRests 84) bytes.now) }
{
    let (unknown, end, rest) = field(bytes, b" \n")?;
    let (lines, rest) = lines(alloc, end, rest)?;
    Ok((CertNode::T { unknown, lines }, rest))
}

// A node F after its letter.
fn never_node<'t>(bytes: &'t [u8]) -> Result<(CertNode, &'t [u8]), Stop>
    ensures read { IfOk result (λ r. IsNode r.0 × (70 ∷ bytes.now ≡ node_text r.0 ++ end_line ++ r.1.now)) }
    ensures stopped { IfErr result (Stopped (NodeRests 70) bytes.now) }
{
    let rest = word(bytes, b"\n")?;
    Ok((CertNode::F, rest))
}

// A node L after its letter.
fn unsolved_node<'t>(bytes: &'t [u8]) -> Result<(CertNode, &'t [u8]), Stop>
    ensures read { IfOk result (λ r. IsNode r.0 × (76 ∷ bytes.now ≡ node_text r.0 ++ end_line ++ r.1.now)) }
    ensures stopped { IfErr result (Stopped (NodeRests 76) bytes.now) }
{
    let rest = word(bytes, b"\n")?;
    Ok((CertNode::L, rest))
}

/// A node with the LF after its line, and the bytes after that.
pub(crate) fn node<'t>(alloc: Global, bytes: &'t [u8]) -> Result<(CertNode, &'t [u8]), Stop>
    ensures read { IfOk result (λ r. IsNode r.0 × (bytes.now ≡ node_text r.0 ++ end_line ++ r.1.now)) }
    ensures stopped { IfErr result (Stopped NodeLines bytes.now) }
{
    let Some((letter, rest)) = bytes.split_first() else {
        return Err(Stop::Stuck(0));
    };
    match *letter {
        b'F' => never_node(rest),
        b'L' => unsolved_node(rest),
        b'S' => sum_node(alloc, rest),
        b'R' => cut_node(rest),
        b'C' => case_node(rest),
        b'T' => tight_node(alloc, rest),
        _ => Err(Stop::Stuck(bytes.len())),
    }
}
