//! The text of certificates.
ghost use Rattle.std.specs.Prelude.{◌≡◌, ◌<◌, ◌^◌, ◌+◌, ◌++◌, ◌∷◌, [], length, codes, map, IfOk, OnOk};
ghost use Rattle.std.specs.List.{flat_map};
ghost use Rattle.std.specs.Fmt.{decimal, signed_decimal};
ghost use Rattle.ft_cert.specs.meaning.Tree.{nodes_of};
ghost use Rattle.ft_certs.specs.meaning.Text.{end_line, line_text, lines_text, node_text, nodes_text, obligations_text, scans_text, spelled, text_of, values_text};

use crate::certs::Certs;
use ft_base::{List, NoMemory, Text};
use ft_cert::{Cert, CertNode};
use ft_core::History;
use ft_linear::Line;
use std::alloc::Global;

// A number at the end of a text.
fn add_number(alloc: Global, text: &mut Text, number: u64) -> Result<(), NoMemory>
    ensures { OnOk result (text.new ≡ text.old ++ decimal number) }
{
    let digits = number.to_string(alloc)?;
    text.extend(digits.as_bytes())
}

/// The line before a certificate, with so many before it.
pub(crate) fn heading(alloc: Global, count: usize) -> Result<Text, NoMemory>
    requires { count < 2 ^ 32 }
    ensures { IfOk result (λ text. text ≡ codes "obligation " ++ decimal (count + 1) ++ end_line) }
{
    let mut text = List::copy_of(alloc, b"obligation ")?;
    add_number(alloc, &mut text, count as u64 + 1)?;
    text.push(b'\n')?;
    Ok(text)
}

fn add_signed(alloc: Global, text: &mut Text, value: i64) -> Result<(), NoMemory>
    ensures { OnOk result (text.new ≡ text.old ++ signed_decimal value) }
{
    let digits = value.to_string(alloc)?;
    text.extend(digits.as_bytes())
}

// A line of a sum after a space, by its parts.
fn line_of(alloc: Global, times: u64, kind: u8, number: u32) -> Result<Text, NoMemory>
    ensures { IfOk result (λ text. text ≡ codes " " ++ (decimal times ++ kind ∷ [] ++ decimal number)) }
{
    let mut text = List::copy_of(alloc, b" ")?;
    add_number(alloc, &mut text, times)?;
    text.push(kind)?;
    add_number(alloc, &mut text, u64::from(number))?;
    Ok(text)
}

// A line of a sum after a space.
fn line_piece(alloc: Global, line: &Line) -> Result<Text, NoMemory>
    ensures { IfOk result (λ text. text ≡ codes " " ++ line_text line.now) }
{
    match *line {
        Line::Atom {
            number,
            value: true,
            times,
        } => line_of(alloc, times, b'+', number),
        Line::Atom {
            number,
            value: false,
            times,
        } => line_of(alloc, times, b'-', number),
        Line::Upper { unknown, times } => line_of(alloc, times, b'<', unknown),
        Line::Lower { unknown, times } => line_of(alloc, times, b'>', unknown),
    }
}

fn add_lines(alloc: Global, lines: &[Line], text: &mut Text) -> Result<(), NoMemory>
    ensures { OnOk result (text.new ≡ text.old ++ lines_text lines.now) }
{
    'lines: for line in lines {
        let piece = line_piece(alloc, line)?;
        text.extend(piece.as_slice())?;
    }
    Ok(())
}

// The line of a node S.
fn sum_piece(alloc: Global, lines: &[Line]) -> Result<Text, NoMemory>
    ensures { IfOk result (λ text. text ≡ codes "S" ++ lines_text lines.now ++ end_line) }
{
    let mut text = List::copy_of(alloc, b"S")?;
    add_lines(alloc, lines, &mut text)?;
    text.push(b'\n')?;
    Ok(text)
}

// The line of a node R.
fn cut_piece(alloc: Global, unknown: u32, value: i64) -> Result<Text, NoMemory>
    ensures { IfOk result (λ text. text ≡ codes "R " ++ decimal unknown ++ codes " " ++ signed_decimal value ++ end_line) }
{
    let mut text = List::copy_of(alloc, b"R ")?;
    add_number(alloc, &mut text, u64::from(unknown))?;
    text.push(b' ')?;
    add_signed(alloc, &mut text, value)?;
    text.push(b'\n')?;
    Ok(text)
}

// The line of a node C.
fn case_piece(alloc: Global, atom: u32) -> Result<Text, NoMemory>
    ensures { IfOk result (λ text. text ≡ codes "C " ++ decimal atom ++ end_line) }
{
    let mut text = List::copy_of(alloc, b"C ")?;
    add_number(alloc, &mut text, u64::from(atom))?;
    text.push(b'\n')?;
    Ok(text)
}

// The line of a node T.
fn tight_piece(alloc: Global, unknown: u32, lines: &[Line]) -> Result<Text, NoMemory>
    ensures { IfOk result (λ text. text ≡ codes "T " ++ decimal unknown ++ lines_text lines.now ++ end_line) }
{
    let mut text = List::copy_of(alloc, b"T ")?;
    add_number(alloc, &mut text, u64::from(unknown))?;
    add_lines(alloc, lines, &mut text)?;
    text.push(b'\n')?;
    Ok(text)
}

// The line of a node.
fn node_piece(alloc: Global, node: &CertNode) -> Result<Text, NoMemory>
    ensures { IfOk result (λ text. text ≡ node_text node.now ++ end_line) }
{
    match node {
        CertNode::F => List::copy_of(alloc, b"F\n"),
        CertNode::L => List::copy_of(alloc, b"L\n"),
        CertNode::S { lines } => sum_piece(alloc, lines.as_slice()),
        CertNode::R { unknown, value } => cut_piece(alloc, *unknown, *value),
        CertNode::C { atom } => case_piece(alloc, *atom),
        CertNode::T { unknown, lines } => tight_piece(alloc, *unknown, lines.as_slice()),
    }
}

fn add_nodes(alloc: Global, nodes: &[CertNode], text: &mut Text) -> Result<(), NoMemory>
    ensures { OnOk result (text.new ≡ text.old ++ nodes_text nodes.now) }
{
    'nodes: for node in nodes {
        let piece = node_piece(alloc, node)?;
        text.extend(piece.as_slice())?;
    }
    Ok(())
}

// A value of a scan after a comma.
fn value_piece(alloc: Global, value: i64) -> Result<Text, NoMemory>
    ensures { IfOk result (λ text. text ≡ codes "," ++ signed_decimal value) }
{
    let mut text = List::copy_of(alloc, b",")?;
    add_signed(alloc, &mut text, value)?;
    Ok(text)
}

// The values of a scan but the first.
fn add_values(alloc: Global, values: &[i64], text: &mut Text) -> Result<(), NoMemory>
    ensures { OnOk result (text.new ≡ text.old ++ flat_map (λ v. codes "," ++ signed_decimal v) values.now) }
{
    'values: for value in values {
        let piece = value_piece(alloc, *value)?;
        text.extend(piece.as_slice())?;
    }
    Ok(())
}

// The values of a scan.
fn values_piece(alloc: Global, values: &[i64]) -> Result<Text, NoMemory>
    ensures { IfOk result (λ text. text ≡ values_text values.now) }
{
    let mut text = List::new(alloc);
    let Some((first, rest)) = values.split_first() else {
        return Ok(text);
    };
    add_signed(alloc, &mut text, *first)?;
    add_values(alloc, rest, &mut text)?;
    Ok(text)
}

// The line of a scan.
fn scan_piece(alloc: Global, values: &[i64]) -> Result<Text, NoMemory>
    ensures { IfOk result (λ text. text ≡ values_text values.now ++ end_line) }
{
    let mut text = values_piece(alloc, values)?;
    text.push(b'\n')?;
    Ok(text)
}

fn add_scans(alloc: Global, list: &History, text: &mut Text) -> Result<(), NoMemory>
    ensures { OnOk result (text.new ≡ text.old ++ scans_text list.now) }
{
    'scans: for scan in 0..list.scans() {
        let piece = scan_piece(alloc, list.row(scan))?;
        text.extend(piece.as_slice())?;
    }
    Ok(())
}

// The lines of an obligation's certificate, with so many before it.
fn cert_piece(alloc: Global, count: usize, cert: &Cert) -> Result<Text, NoMemory>
    requires { count < 2 ^ 32 }
    ensures { IfOk result (λ text. text ≡ codes "obligation " ++ decimal (count + 1) ++ end_line ++ nodes_text (nodes_of cert.now)) }
{
    let mut text = heading(alloc, count)?;
    add_nodes(alloc, cert.nodes(), &mut text)?;
    Ok(text)
}

fn certs_piece(alloc: Global, certs: &[Cert]) -> Result<Text, NoMemory>
    requires { length certs.now < 2 ^ 32 }
    ensures { IfOk result (λ text. text ≡ obligations_text 1 (map nodes_of certs.now)) }
{
    let mut text = List::new(alloc);
    for (at, cert) in certs.iter().enumerate() {
        let piece = cert_piece(alloc, at, cert)?;
        text.extend(piece.as_slice())?;
    }
    Ok(text)
}

// The lines before the scans.
fn intro(alloc: Global, certs: &Certs) -> Result<Text, NoMemory>
    ensures { IfOk result (λ text. text ≡ codes "ftv certificates 1" ++ end_line ++ codes "set " ++ certs.now.set ++ end_line ++ codes "list "
        ++ decimal (length certs.now.list) ++ end_line) }
{
    let mut text = List::copy_of(alloc, b"ftv certificates 1\nset ")?;
    text.extend(certs.set.as_slice())?;
    text.push(b'\n')?;
    text.extend(b"list ")?;
    add_number(alloc, &mut text, certs.list.scans() as u64)?;
    text.push(b'\n')?;
    Ok(text)
}

/// The text of certificates: the set's name, the list, and for each obligation, from 1, the nodes of its certificate in prefix
/// order, a line each.
pub fn write_certs(alloc: Global, certs: &Certs) -> Result<Text, NoMemory>
    requires { length certs.now.certs < 2 ^ 32 }
    ensures { IfOk result (λ text. text ≡ text_of (spelled certs.now)) }
{
    let mut text = intro(alloc, certs)?;
    add_scans(alloc, &certs.list, &mut text)?;
    let lines = certs_piece(alloc, certs.certs.as_slice())?;
    text.extend(lines.as_slice())?;
    text.extend(b"end")?;
    text.push(b'\n')?;
    Ok(text)
}
