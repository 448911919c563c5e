//! Checking one certificate again and again, as often as the environment says: bench/certificates times these. Alone they run once, on
//! small certificates.
use crate::certificates::{area_of, cuts, formula_of, only_cuts, refused};
use ft_base::{List, NoMemory};
use ft_cert::CertNode;
use ft_linear::{Formula, Lin, Line, Node};
use std::alloc::Global;
use std::env;
use std::test::Fail;

/// The number that a variable of the environment holds, or else another one.
fn number(rt: &HostRuntime, name: &str, other: u32) -> u32 {
    let Ok(text) = env::var(rt, name) else {
        return other;
    };
    match text.as_str().parse::<u32>() {
        Ok(number) => number,
        Err(_) => other,
    }
}

/// Checks a certificate of so many cuts of one unknown.
fn cuts_refused(alloc: Global, count: u32) -> Result<Option<u32>, NoMemory> {
    let formula = formula_of(alloc, (true, 1, 0, -4), Some((false, 1, 0, -4)))?;
    let area = area_of(alloc, 1, i64::from(count))?;
    refused(alloc, &formula, &area, cuts(alloc, count)?)
}

#[test]
fn checks_cuts_again(rt: HostRuntime) -> Result<(), Fail> {
    let count = number(&rt, "CUTS", 2);
    for _ in 0..number(&rt, "ROUNDS", 1) {
        assert_eq!(rt; cuts_refused(rt.alloc(), count)?, None);
    }
    Ok(())
}

/// The sum of so many unknowns, each so many times, and a constant.
fn sum_of(alloc: Global, unknowns: u32, factor: i64, constant: i64) -> Result<Lin, NoMemory> {
    let mut factors = List::new(alloc);
    for unknown in 0..unknowns {
        factors.push((unknown, factor))?;
    }
    Lin::new(factors, constant).ok_or(NoMemory)
}

/// In turn `x + y + .. <= 10` and `x + y + .. >= 11`, so many together.
fn contrary_sums(alloc: Global, atoms: u32, unknowns: u32) -> Result<Formula, NoMemory> {
    let mut forms = List::new(alloc);
    let mut parts = List::new(alloc);
    for atom in 0..atoms {
        if atom % 2 == 0 {
            forms.push(sum_of(alloc, unknowns, 1, -10)?)?;
        } else {
            forms.push(sum_of(alloc, unknowns, -1, 11)?)?;
        }
        parts.push(Node::At(atom))?;
    }
    Formula::new(forms, Node::And(parts)).ok_or(NoMemory)
}

/// Each atom of so many once.
fn all_lines(alloc: Global, atoms: u32) -> Result<CertNode, NoMemory> {
    let mut lines = List::new(alloc);
    for number in 0..atoms {
        lines.push(Line::Atom {
            number,
            value: true,
            times: 1,
        })?;
    }
    Ok(CertNode::S { lines })
}

/// Nine cuts of the first unknown, and ten sums of all atoms.
fn ten_sums(alloc: Global, atoms: u32) -> Result<List<CertNode>, NoMemory> {
    let mut nodes = only_cuts(alloc, 9)?;
    for _leaf in 0..10 {
        nodes.push(all_lines(alloc, atoms)?)?;
    }
    Ok(nodes)
}

#[test]
fn checks_sums_again(rt: HostRuntime) -> Result<(), Fail> {
    let alloc = rt.alloc();
    let atoms = number(&rt, "LINES", 2);
    let unknowns = number(&rt, "FACTORS", 2);
    let formula = contrary_sums(alloc, atoms, unknowns)?;
    let area = area_of(alloc, unknowns, 9)?;
    for _ in 0..number(&rt, "ROUNDS", 1) {
        assert_eq!(rt;
            refused(alloc, &formula, &area, ten_sums(alloc, atoms)?)?,
            None
        );
    }
    Ok(())
}
