//! Certificates read from their text.
ghost use Rattle.std.specs.Prelude.{ℕ, Some, slice_get, ◌≡◌, ◌<◌, ◌≤◌, ◌-◌, ◌^◌, ◌==◌, length, IfOk, IfErr};
ghost use Rattle.std.specs.List.{count_by, suffix_len};
ghost use Rattle.ft_lex.specs.meaning.Bytes.{is_within_line};
ghost use Rattle.ft_lex.specs.meaning.Place.{place_after};
ghost use Rattle.ft_cert.specs.meaning.Tree.{Tree, nodes_of};
ghost use Rattle.ft_certs.specs.declared.fault.CertText.TheVariants as fault;
ghost use Rattle.ft_certs.specs.meaning.Refusal.{IsTextFault, Whole};
ghost use Rattle.ft_certs.specs.meaning.Text.{Spelled, Spells, spelled};
ghost use Rattle.ft_certs.specs.building.Stuck.{RefusedBy};

use crate::certs::Certs;
use crate::fault::CertText;
use crate::numbers::{MOST_OF_32_BITS, number};
use crate::obligations::obligations;
use crate::scans::scans;
use crate::stop::Stop;
use crate::words::{name_line, word};
use ft_base::{List, Place};
use std::alloc::Global;

// The certificates that a text spells.
fn read(alloc: Global, text: &[u8]) -> Result<Certs, Stop>
    requires { length text.now < 2 ^ 32 - 1 }
    ensures read { IfOk result (λ certs. Spells text.now (spelled certs)) }
    ensures refused { IfErr result (RefusedBy Whole text.now) }
{
    let rest = word(text, b"ftv certificates 1\nset ")?;
    let (name, rest) = name_line(rest)?;
    let rest = word(rest, b"list ")?;
    let (count, _, rest) = number(rest, 0, MOST_OF_32_BITS, b"\n")?;
    let (list, rest) = scans(alloc, count as u32, rest)?;
    let certs = obligations(alloc, rest)?;
    let set = List::copy_of(alloc, name)?;
    Ok(Certs { set, list, certs })
}

// How many lines have ended.
fn ended_lines(front: &[u8]) -> usize
    ensures value { result ≡ count_by (λ b. b == 10) front.now }
    ensures few { result ≤ length front.now }
{
    front.iter().filter(|b| **b == b'\n').count()
}

// How many bytes stand in the last line.
fn last_line(front: &[u8]) -> usize
    ensures value { result ≡ suffix_len is_within_line front.now }
    ensures few { result ≤ length front.now }
{
    front.iter().rev().take_while(|b| **b != b'\n').count()
}

// The place after these bytes.
fn place_after(front: &[u8]) -> Place
    requires { length front.now < 2 ^ 32 - 1 }
    ensures { result ≡ place_after front.now }
{
    Place {
        line: 1 + ended_lines(front) as u32,
        column: 1 + last_line(front) as u32,
    }
}

// The fault of a text in which a reader stopped.
fn fault_at(text: &[u8], stop: Stop) -> CertText
    requires short { length text.now < 2 ^ 32 - 1 }
    requires refused { RefusedBy Whole text.now stop }
    ensures { IsTextFault text.now result }
{
    match stop {
        Stop::Stuck(left) => {
            let place = place_after(&text[..text.len() - left]);
            CertText::Text { place }
        }
        Stop::NoMemory => CertText::NoMemory,
    }
}

/// The certificates that a text spells; the text is shorter than 2^32 - 1 bytes. One that spells none is refused at the first byte
/// with which no such text goes on, or at its end. No certificate has 2^32 nodes.
pub fn read_certs(alloc: Global, text: &[u8]) -> Result<Certs, CertText>
    requires { length text.now < 2 ^ 32 - 1 }
    ensures ok { IfOk result (λ certs. Spells text.now (spelled certs)) }
    ensures fault { IfErr result (IsTextFault text.now) }
    ensures few { IfOk result (λ certs. (i : ℕ) (cert : Tree) → slice_get certs.certs i ≡ Some cert → length (nodes_of cert) < 2 ^ 32) }
    ensures only { (c : Spelled) → Spells text.now c → IfOk result (λ certs. spelled certs ≡ c) × IfErr result (λ e. e ≡ fault.NoMemory) }
{
    match read(alloc, text) {
        Ok(certs) => Ok(certs),
        Err(stop) => Err(fault_at(text, stop)),
    }
}
