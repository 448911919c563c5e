//! The two sets of what is watched, made at run time.
ghost use Rattle.std.specs.Prelude.{◌≡◌, ◌⊎◌, IfOk};
ghost use Rattle.ft_worked.specs.Made.{IsMadeOf};
ghost use Rattle.ft_worked.specs.Watched.{level_alone, level_and_mode, mode, tables, watched};

use crate::making::{declare, letter, number, pair};
use crate::relay::always_gives;
use ft_base::{List, NoMemory};
use ft_core::{Section, Table, Tables, Term, Var, VarKind, checked_by_tests};
use std::alloc::Global;

fn level_alone(alloc: Global) -> Result<List<Var>, NoMemory>
    ensures { IfOk result (λ list. list ≡ level_alone) }
{
    let mut list = List::new(alloc);
    declare(alloc, &mut list, b'x', VarKind::Mon, 0, 9, 0)?;
    declare(alloc, &mut list, b'c', VarKind::Con, 0, 1, 0)?;
    Ok(list)
}

fn mode(alloc: Global) -> Result<Var, NoMemory>
    ensures { IfOk result (λ v. v ≡ mode) }
{
    let name = letter(alloc, b'm')?;
    let idle = letter(alloc, b'i')?;
    let run = letter(alloc, b'r')?;
    let members = pair(alloc, idle, run)?;
    Ok(number(name, VarKind::Mon, 1, 1, 0, members))
}

fn level_and_mode(alloc: Global) -> Result<List<Var>, NoMemory>
    ensures { IfOk result (λ list. list ≡ level_and_mode) }
{
    let mut list = level_alone(alloc)?;
    list.push(mode(alloc)?)?;
    Ok(list)
}

fn tables(alloc: Global) -> Result<List<Table>, NoMemory>
    ensures { IfOk result (λ list. list ≡ tables) }
{
    let required = always_gives(alloc, Section::Req, 1, Term::Num(0))?;
    let output = always_gives(alloc, Section::Out, 1, Term::Num(0))?;
    pair(alloc, required, output)
}

fn watched(alloc: Global, vars: List<Var>) -> Result<Tables, NoMemory>
    requires { (vars ≡ level_alone) ⊎ (vars ≡ level_and_mode) }
    ensures { IfOk result (IsMadeOf (watched vars)) }
{
    checked_by_tests();
    let name = letter(alloc, b'w')?;
    let tables = tables(alloc)?;
    Ok(Tables {
        name,
        period: 50,
        splits: 1000,
        depth: 4,
        vars,
        memories: List::new(alloc),
        tables,
        first: List::new(alloc),
        always: List::new(alloc),
        step: List::new(alloc),
        blocks: List::new(alloc),
    })
}

/// A level from 0 to 9, `x`.
pub(crate) fn level(alloc: Global) -> Result<Tables, NoMemory> {
    watched(alloc, level_alone(alloc)?)
}

/// The same, and the mode `m`, which is `i` or `r`.
pub(crate) fn level_with_mode(alloc: Global) -> Result<Tables, NoMemory>
    ensures { IfOk result (IsMadeOf (watched level_and_mode)) }
{
    let vars = level_and_mode(alloc)?;
    watched(alloc, vars)
}
