//! Certificates of all obligations of a set, checked with no search.
ghost use Rattle.std.specs.Prelude.{◌≡◌, ◌≤◌, ◌<◌, ◌+◌, ◌*◌, ◌^◌, length, IfOk, OnOk, IfErr, IsOkUnless};
ghost use Rattle.ft_cert.specs.meaning.Tree.{nodes_of};
ghost use Rattle.ft_mean.specs.meaning.Proper.{AllProper};
ghost use Rattle.ft_oblige.specs.meaning.Made.{IsNumbered};
ghost use Rattle.ft_oblige.specs.meaning.Obligations.{obligation_count};
ghost use Rattle.ft_cover.specs.meaning.Attempted.{IsClosedAt};
ghost use Rattle.ft_compose.specs.building.Checking.{CloseAll, CloseFirst, IsRefusal, told_of};
ghost use Rattle.ft_compose.specs.meaning.Checked.{AreAllCerts, AreNumbered, IsCertsFault};
ghost use Rattle.ft_compose.specs.meaning.Decided.{AllClose};
ghost use Rattle.ft_compose.specs.meaning.Shared.{IsShared};

use crate::facts::numbered_fact;
use crate::law::deciding_laws;
use crate::sharing::Shared;
use ft_base::NoMemory;
use ft_cert::Cert;
use ft_check::{CertFault, check};
use ft_core::Tables;
use ft_cover::closed_laws;
use ft_oblige::{Obligation, count, obligation};
use std::alloc::Global;

/// Why certificates are refused.
#[derive(Clone, Copy, PartialEq, Eq, Drop)]
pub enum CertsFault {
    /// A certificate doesn't hold for its obligation, is missing, or is one too many.
    Refused {
        /// The number of the obligation, from 1.
        obligation: u32,
        /// The first node of the certificate, from 1 in prefix order, that doesn't hold. It is 0 where the certificate is missing
        /// or one too many.
        node: u32,
    },
    /// Memory was refused.
    NoMemory,
}

impl From<NoMemory> for CertsFault {
    ghost use Rattle.std.specs.Prelude.{◌≡◌};
    ghost use Rattle.ft_compose.specs.declared.checking.CertsFault.{CertsFault};

    ghost from_gives = { λ _ f. f ≡ CertsFault.NoMemory };

    fn from(_refused: NoMemory) -> CertsFault {
        CertsFault::NoMemory
    }
}

// The obligation with this number, of a table or of a fact.
fn numbered(
    alloc: Global,
    tables: &Tables,
    shared: &Shared,
    number: u32,
) -> Result<Obligation, NoMemory>
    requires shared { IsShared tables.now shared.now }
    requires some { 1 ≤ number }
    requires last { number ≤ obligation_count tables.now }
    ensures { IfOk result (IsNumbered tables.now number) }
{
    if number as usize <= 3 * tables.tables.len() {
        obligation(alloc, tables, number)
    } else {
        numbered_fact(alloc, tables, shared, number)
    }
}

fn told(number: u32, fault: CertFault) -> CertsFault
    ensures { result ≡ told_of number fault }
{
    match fault {
        CertFault::Node { node } => CertsFault::Refused {
            obligation: number,
            node,
        },
        CertFault::NoMemory => CertsFault::NoMemory,
    }
}

// Makes the obligation with this number and checks a certificate for it.
fn check_number(
    alloc: Global,
    tables: &Tables,
    shared: &Shared,
    number: u32,
    cert: &Cert,
) -> Result<(), CertsFault>
    requires shared { IsShared tables.now shared.now }
    requires some { 1 ≤ number }
    requires last { number ≤ obligation_count tables.now }
    requires nodes { length (nodes_of cert.now) < 2 ^ 32 }
    ensures closed { OnOk result (IsClosedAt tables.now number cert.now) }
    ensures refused { IfErr result (IsRefusal tables.now number cert.now) }
{
    deciding_laws();
    let made = numbered(alloc, tables, shared, number)?;
    let checked = check(alloc, &made.formula, &made.area, cert);
    match checked {
        Ok(()) => Ok(()),
        Err(fault) => Err(told(number, fault)),
    }
}

// Checks the first certificates, each for its obligation.
fn check_first(
    alloc: Global,
    tables: &Tables,
    shared: &Shared,
    many: u32,
    certs: &[Cert],
) -> Result<(), CertsFault>
    requires shared { IsShared tables.now shared.now }
    requires there { many ≤ length certs.now }
    requires needed { many ≤ obligation_count tables.now }
    requires nodes { AreNumbered certs.now }
    ensures closed { OnOk result (CloseFirst tables.now many certs.now) }
    ensures refused { IfErr result (IsCertsFault tables.now certs.now) }
{
    for before in 0..many {
        check_number(alloc, tables, shared, before + 1, &certs[before as usize])?;
    }
    Ok(())
}

// How many are there and needed.
fn common(needed: u32, given: usize) -> u32
    ensures needed { result ≤ needed }
    ensures given { result ≤ given }
    ensures most { result < given → result ≡ needed }
{
    if given < needed as usize {
        given as u32
    } else {
        needed
    }
}

// Whether as many are given as are needed. Where it isn't so, the obligation after those that are there and needed is told.
fn same_count(needed: u32, given: usize, there: u32) -> Result<(), CertsFault>
    requires { there < 4294967295 }
    ensures same { OnOk result (given ≡ needed) }
    ensures differ { IfErr result (λ fault. (given ≡ needed → ⊥) × (fault ≡ CertsFault.Refused (there + 1) 0)) }
{
    if given == needed as usize {
        Ok(())
    } else {
        Err(CertsFault::Refused {
            obligation: there + 1,
            node: 0,
        })
    }
}

// Checks the certificates that are there and needed, and then how many there are.
fn check_all(alloc: Global, tables: &Tables, certs: &[Cert]) -> Result<(), CertsFault>
    requires nodes { AreNumbered certs.now }
    ensures closed { OnOk result (CloseAll tables.now certs.now) }
    ensures refused { IfErr result (IsCertsFault tables.now certs.now) }
{
    let shared = Shared::of(alloc, tables)?;
    let needed = count(tables);
    let given = certs.len();
    let there = common(needed, given);
    check_first(alloc, tables, &shared, there, certs)?;
    same_count(needed, given, there)
}

/// Checks a certificate for each obligation of a set, in order. Nothing is searched for: each obligation is made, its certificate is
/// checked, and it is dropped. Where all hold, no obligation has a point. Else the first that fails is told, at its first node that
/// doesn't hold; a certificate that is missing or one too many is told after all that are there and needed. `NoMemory` is want of
/// memory, or more than 2^32 names of two scans.
pub fn check_certs(alloc: Global, tables: &Tables, certs: &[Cert]) -> Result<(), CertsFault>
    requires nodes { AreNumbered certs.now }
    ensures all { OnOk result (AreAllCerts tables.now certs.now) }
    ensures close { OnOk result (AllClose tables.now) }
    ensures proper { OnOk result (AllProper tables.now) }
    ensures refused { IfErr result (IsCertsFault tables.now certs.now) }
    ensures only { AreAllCerts tables.now certs.now → IsOkUnless result CertsFault.NoMemory }
{
    closed_laws();
    check_all(alloc, tables, certs)
}
