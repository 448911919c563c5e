//! Certificates with their headings, to the end of a text.
ghost use Rattle.std.specs.Prelude.{◌≡◌, ◌<◌, ◌-◌, ◌^◌, ◌++◌, length, map, codes, IfOk, IfErr};
ghost use Rattle.std.specs.List.{All};
ghost use Rattle.ft_cert.specs.meaning.Tree.{nodes_of};
ghost use Rattle.ft_certs.specs.meaning.Text.{IsCert, nodes_text, obligations_text};
ghost use Rattle.ft_certs.specs.building.Pieces.{Obligation, Obligations, begins_by, heading_text};
ghost use Rattle.ft_certs.specs.building.Stuck.{RefusedBy, Stopped};

use crate::stop::Stop;
use crate::trees::tree;
use crate::words::word;
use crate::writing::heading;
use ft_base::List;
use ft_cert::Cert;
use std::alloc::Global;

fn begins_by(byte: u8, bytes: &[u8]) -> bool
    ensures { result ≡ begins_by byte bytes.now }
{
    match bytes {
        [] => false,
        [first, ..] => *first == byte,
    }
}

// A certificate after its heading, with so many before it, and the bytes after it.
fn obligation<'t>(alloc: Global, count: usize, bytes: &'t [u8]) -> Result<(Cert, &'t [u8]), Stop>
    requires few { count < 2 ^ 32 }
    requires short { length bytes.now < 2 ^ 32 }
    ensures read { IfOk result (λ r. IsCert (nodes_of r.0) × (bytes.now ≡ (heading_text count ++ nodes_text (nodes_of r.0)) ++ r.1.now)) }
    ensures stopped { IfErr result (Stopped (Obligation count) bytes.now) }
{
    let heading = heading(alloc, count)?;
    let rest = word(bytes, heading.as_slice())?;
    tree(alloc, rest)
}

/// All certificates, to the end of the text.
pub(crate) fn obligations(alloc: Global, bytes: &[u8]) -> Result<List<Cert>, Stop>
    requires { length bytes.now < 2 ^ 32 - 1 }
    ensures read { IfOk result (λ certs. All IsCert (map nodes_of certs) × (length certs < 2 ^ 32) × (bytes.now ≡ obligations_text 1 (map nodes_of certs) ++ codes "end\n")) }
    ensures refused { IfErr result (RefusedBy (Obligations 0) bytes.now) }
{
    let mut certs = List::new(alloc);
    let mut rest = bytes;
    'certs: while begins_by(b'o', rest) {
        let (cert, more) = obligation(alloc, certs.len(), rest)?;
        certs.push(cert)?;
        rest = more;
    }
    let rest = word(rest, b"end\n")?;
    if !rest.is_empty() {
        return Err(Stop::Stuck(rest.len()));
    }
    Ok(certs)
}
