//! Conditions with their names numbered.
ghost use Rattle.std.specs.Prelude.{◌≡◌, IfOk, [], ◌∷◌, pos, slice_get, Some};
ghost use Rattle.ft_claims.specs.declared.claim.Sym.TheVariants as out;
ghost use Rattle.ft_claims.specs.declared.claim.Claim.TheVariants as claim;
ghost use Rattle.ft_claims.specs.meaning.Claims.{compared, equal};
ghost use Rattle.ft_claims.specs.meaning.Names.{claim_of, keeper, memo, recalled};

use crate::claim::{Claim, Sym};
use crate::frame::Frame;
use crate::terms::{copy_of, memory_name, sym_of};
use ft_base::{Boxed, List, NoMemory};
use ft_core::{Cond, Memory, Rel, Tables};
use std::alloc::Global;

/// The other truth of a condition.
pub fn denied(alloc: Global, inner: Claim) -> Result<Claim, NoMemory>
    ensures { IfOk result (λ whole. whole ≡ claim.Not inner) }
{
    Ok(Claim::Not(Boxed::new(alloc, inner)?))
}

/// Two conditions as a list.
pub fn pair(alloc: Global, first: Claim, second: Claim) -> Result<List<Claim>, NoMemory>
    ensures { IfOk result (λ list. list ≡ first ∷ second ∷ []) }
{
    let mut list = List::new(alloc);
    list.push(first)?;
    list.push(second)?;
    Ok(list)
}

/// That two terms are equal.
pub fn equal(alloc: Global, first: Sym, second: Sym) -> Result<Claim, NoMemory>
    ensures { IfOk result (λ whole. whole ≡ equal first second) }
{
    let left = copy_of(alloc, &first)?;
    let right = copy_of(alloc, &second)?;
    let not_less = denied(alloc, Claim::Lt(left, right))?;
    Ok(Claim::And(pair(alloc, Claim::Le(first, second), not_less)?))
}

fn compared(alloc: Global, relation: Rel, first: Sym, second: Sym) -> Result<Claim, NoMemory>
    ensures { IfOk result (λ whole. whole ≡ compared relation first second) }
{
    match relation {
        Rel::Eq => equal(alloc, first, second),
        Rel::Ne => denied(alloc, equal(alloc, first, second)?),
        Rel::Lt => Ok(Claim::Lt(first, second)),
        Rel::Le => Ok(Claim::Le(first, second)),
        Rel::Gt => denied(alloc, Claim::Le(first, second)),
        Rel::Ge => denied(alloc, Claim::Lt(first, second)),
    }
}

/// That a bit is 1.
pub fn is_one(alloc: Global, bit: Sym) -> Result<Claim, NoMemory>
    ensures { IfOk result (λ whole. whole ≡ equal bit (out.Num (pos 1))) }
{
    equal(alloc, bit, Sym::Num(1))
}

fn recalled_of(alloc: Global, memory: &Memory, name: Sym) -> Result<Claim, NoMemory>
    ensures { IfOk result (λ whole. whole ≡ recalled (Some memory.now) name) }
{
    match memory {
        Memory::Held { hold, .. } => denied(alloc, Claim::Lt(name, Sym::Num(*hold))),
        Memory::Hyst { .. } => is_one(alloc, name),
    }
}

fn recalled(alloc: Global, tables: &Tables, frame: &Frame, memory: u32) -> Result<Claim, NoMemory>
    ensures { IfOk result (λ whole. whole ≡ recalled (keeper tables.now frame.now memory)
        (out.Slot (memo tables.now frame.now.this memory))) }
{
    let name = memory_name(tables, frame.this, memory)?;
    if frame.bits {
        return is_one(alloc, name);
    }
    match tables.memories.as_slice().get(memory as usize) {
        Some(found) => recalled_of(alloc, found, name),
        None => is_one(alloc, name),
    }
}

/// The condition with its names numbered.
#[tactic(auto, using(crate::proofs::NamingLemmas::claims))]
pub fn claim_of(
    alloc: Global,
    tables: &Tables,
    frame: &Frame,
    cond: &Cond,
) -> Result<Claim, NoMemory>
    ensures { IfOk result (λ whole. whole ≡ claim_of tables.now frame.now cond.now) }
{
    match cond {
        Cond::Yes => Ok(Claim::And(List::new(alloc))),
        Cond::No => Ok(Claim::Or(List::new(alloc))),
        Cond::Compare(relation, a, b) => {
            let first = sym_of(alloc, tables, frame, a)?;
            compared(alloc, *relation, first, sym_of(alloc, tables, frame, b)?)
        }
        Cond::Memory(memory) => recalled(alloc, tables, frame, *memory),
        Cond::Not(inner) => denied(alloc, claim_of(alloc, tables, frame, inner.get())?),
        Cond::And(a, b) => {
            let first = claim_of(alloc, tables, frame, a.get())?;
            Ok(Claim::And(pair(alloc, first, claim_of(alloc, tables, frame, b.get())?)?))
        }
        Cond::Or(a, b) => {
            let first = claim_of(alloc, tables, frame, a.get())?;
            Ok(Claim::Or(pair(alloc, first, claim_of(alloc, tables, frame, b.get())?)?))
        }
    }
}
