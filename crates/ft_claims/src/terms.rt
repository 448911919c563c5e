//! Terms with their names numbered.
ghost use Rattle.std.specs.Prelude.{◌≡◌, ◌+◌, IfOk, ℤ, if◌then◌else◌};
ghost use Rattle.ft_mean.specs.meaning.Reading.{init_of};
ghost use Rattle.ft_claims.specs.declared.claim.Sym.TheVariants as out;
ghost use Rattle.ft_claims.specs.meaning.Names.{memo, sym_of};

use crate::claim::Sym;
use crate::frame::Frame;
use ft_base::{Boxed, NoMemory};
use ft_core::{Tables, Term};
use std::alloc::Global;

// The name with a number. A number past 2^32 is refused as want of memory.
fn slot(number: u64) -> Result<Sym, NoMemory>
    ensures { IfOk result (λ term. term ≡ out.Slot number) }
{
    match u32::try_from(number) {
        Ok(name) => Ok(Sym::Slot(name)),
        Err(_) => Err(NoMemory),
    }
}

/// The name of a variable of a scan whose names begin at `base`.
pub fn variable_name(base: u32, variable: u32) -> Result<Sym, NoMemory>
    ensures { IfOk result (λ term. term ≡ out.Slot (base + variable)) }
{
    slot(u64::from(base) + u64::from(variable))
}

/// The name of a memory of such a scan.
pub fn memory_name(tables: &Tables, base: u32, memory: u32) -> Result<Sym, NoMemory>
    ensures { IfOk result (λ term. term ≡ out.Slot (memo tables.now base memory)) }
{
    let variables = tables.vars.len() as u64;
    slot(u64::from(base) + (variables + u64::from(memory)))
}

fn init_of(tables: &Tables, variable: u32) -> i64
    ensures { result ≡ init_of tables.now variable }
{
    match tables.vars.as_slice().get(variable as usize) {
        Some(found) => found.init,
        None => 0,
    }
}

fn earlier(tables: &Tables, frame: &Frame, variable: u32) -> Result<Sym, NoMemory>
    ensures { IfOk result (λ term. term ≡ if frame.now.anew then out.Num (init_of tables.now variable) else out.Slot
        (frame.now.prior + variable)) }
{
    if frame.anew {
        Ok(Sym::Num(init_of(tables, variable)))
    } else {
        variable_name(frame.prior, variable)
    }
}

fn negated(alloc: Global, inner: Sym) -> Result<Sym, NoMemory>
    ensures { IfOk result (λ term. term ≡ out.Neg inner) }
{
    Ok(Sym::Neg(Boxed::new(alloc, inner)?))
}

/// The sum of two terms.
pub fn sum(alloc: Global, first: Sym, second: Sym) -> Result<Sym, NoMemory>
    ensures { IfOk result (λ term. term ≡ out.Add first second) }
{
    let first = Boxed::new(alloc, first)?;
    Ok(Sym::Add(first, Boxed::new(alloc, second)?))
}

fn difference(alloc: Global, first: Sym, second: Sym) -> Result<Sym, NoMemory>
    ensures { IfOk result (λ term. term ≡ out.Sub first second) }
{
    let first = Boxed::new(alloc, first)?;
    Ok(Sym::Sub(first, Boxed::new(alloc, second)?))
}

fn product(alloc: Global, factor: i64, inner: Sym) -> Result<Sym, NoMemory>
    ensures { IfOk result (λ term. term ≡ out.Times factor inner) }
{
    Ok(Sym::Times(factor, Boxed::new(alloc, inner)?))
}

fn quotient(alloc: Global, inner: Sym, divisor: i64) -> Result<Sym, NoMemory>
    ensures { IfOk result (λ term. term ≡ out.Div inner divisor) }
{
    Ok(Sym::Div(Boxed::new(alloc, inner)?, divisor))
}

/// The term with its names numbered.
#[tactic(auto, using(crate::proofs::NamingLemmas::names))]
pub fn sym_of(alloc: Global, tables: &Tables, frame: &Frame, term: &Term) -> Result<Sym, NoMemory>
    ensures { IfOk result (λ sym. sym ≡ sym_of tables.now frame.now term.now) }
{
    match term {
        Term::Num(number) => Ok(Sym::Num(*number)),
        Term::Now(variable) => variable_name(frame.this, *variable),
        Term::Prev(variable) => earlier(tables, frame, *variable),
        Term::Age(memory) => memory_name(tables, frame.this, *memory),
        Term::Neg(inner) => negated(alloc, sym_of(alloc, tables, frame, inner.get())?),
        Term::Add(a, b) => {
            let first = sym_of(alloc, tables, frame, a.get())?;
            sum(alloc, first, sym_of(alloc, tables, frame, b.get())?)
        }
        Term::Sub(a, b) => {
            let first = sym_of(alloc, tables, frame, a.get())?;
            difference(alloc, first, sym_of(alloc, tables, frame, b.get())?)
        }
        Term::Times(factor, inner) => {
            product(alloc, *factor, sym_of(alloc, tables, frame, inner.get())?)
        }
        Term::Div(inner, divisor) => {
            quotient(alloc, sym_of(alloc, tables, frame, inner.get())?, *divisor)
        }
    }
}

/// A copy of a term.
pub fn copy_of(alloc: Global, term: &Sym) -> Result<Sym, NoMemory>
    ensures { IfOk result (λ copy. copy ≡ term.now) }
{
    match term {
        Sym::Num(number) => Ok(Sym::Num(*number)),
        Sym::Slot(name) => Ok(Sym::Slot(*name)),
        Sym::Neg(inner) => negated(alloc, copy_of(alloc, inner.get())?),
        Sym::Add(a, b) => {
            let first = copy_of(alloc, a.get())?;
            sum(alloc, first, copy_of(alloc, b.get())?)
        }
        Sym::Sub(a, b) => {
            let first = copy_of(alloc, a.get())?;
            difference(alloc, first, copy_of(alloc, b.get())?)
        }
        Sym::Times(factor, inner) => product(alloc, *factor, copy_of(alloc, inner.get())?),
        Sym::Div(inner, divisor) => quotient(alloc, copy_of(alloc, inner.get())?, *divisor),
    }
}
