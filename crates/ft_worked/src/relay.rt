//! The relay, made at run time.
ghost use Rattle.std.specs.Prelude.{◌≡◌, IfOk, [], ◌∷◌};
ghost use Rattle.ft_core.specs.declared.tables.Memory.TheVariants.{Held};
ghost use Rattle.ft_worked.specs.Made.{IsMadeOf};
ghost use Rattle.ft_worked.specs.Relay.{always_gives, hold_of, is_on, memories, relay, tables, tells, vars};

use crate::making::{compared, declare, letter, memory_or_not, only, pair, triple};
use ft_base::{List, NoMemory};
use ft_core::{
    Cond, Grid, Memory, Rel, Section, Side, Table, Tables, Term, Var, VarKind, checked_by_tests,
};
use std::alloc::Global;

fn variables(alloc: Global) -> Result<List<Var>, NoMemory>
    ensures { IfOk result (λ list. list ≡ vars) }
{
    let mut list = List::new(alloc);
    declare(alloc, &mut list, b'x', VarKind::Mon, 0, 1, 0)?;
    declare(alloc, &mut list, b'c', VarKind::Con, 0, 1, 0)?;
    declare(alloc, &mut list, b'i', VarKind::Input, 0, 1, 0)?;
    declare(alloc, &mut list, b'o', VarKind::Output, 0, 1, 0)?;
    Ok(list)
}

/// A timer over a variable.
fn timer(alloc: Global, byte: u8, side: Side, variable: u32, hold: i64) -> Result<Memory, NoMemory>
    ensures { IfOk result (λ m. m ≡ Held (byte ∷ []) side (is_on variable) hold) }
{
    Ok(Memory::Held {
        name: letter(alloc, byte)?,
        side,
        cond: compared(Rel::Eq, variable, 1),
        hold,
    })
}

/// The hold of the design's timer.
fn hold_of(late: bool) -> i64
    ensures { result ≡ hold_of late }
{
    if late { 150 } else { 100 }
}

fn memories(alloc: Global, late: bool) -> Result<List<Memory>, NoMemory>
    ensures { IfOk result (λ list. list ≡ memories (hold_of late)) }
{
    let required = timer(alloc, b'r', Side::Req, 0, 100)?;
    let design = timer(alloc, b's', Side::Sof, 2, hold_of(late))?;
    pair(alloc, required, design)
}

/// A table that gives one term.
pub(crate) fn always_gives(
    alloc: Global,
    section: Section,
    target: u32,
    term: Term,
) -> Result<Table, NoMemory>
    ensures { IfOk result (λ t. t ≡ always_gives section target term) }
{
    let columns = only(alloc, Cond::Yes)?;
    let rows = only(alloc, Cond::Yes)?;
    let cells = only(alloc, term)?;
    let terms = only(alloc, cells)?;
    Ok(Table {
        section,
        grid: Grid::Normal {
            target,
            columns,
            rows,
            terms,
        },
    })
}

/// A table that gives 1 where a memory is true, and else 0.
fn tells(alloc: Global, section: Section, target: u32, memory: u32) -> Result<Table, NoMemory>
    ensures { IfOk result (λ t. t ≡ tells section target memory) }
{
    let columns = only(alloc, Cond::Yes)?;
    let rows = memory_or_not(alloc, memory)?;
    let on = only(alloc, Term::Num(1))?;
    let off = only(alloc, Term::Num(0))?;
    let terms = pair(alloc, on, off)?;
    Ok(Table {
        section,
        grid: Grid::Normal {
            target,
            columns,
            rows,
            terms,
        },
    })
}

fn tables(alloc: Global) -> Result<List<Table>, NoMemory>
    ensures { IfOk result (λ list. list ≡ tables) }
{
    let input = always_gives(alloc, Section::In, 2, Term::Now(0))?;
    let required = tells(alloc, Section::Req, 1, 0)?;
    let design = tells(alloc, Section::Sof, 3, 1)?;
    let mut list = triple(alloc, input, required, design)?;
    list.push(always_gives(alloc, Section::Out, 1, Term::Now(3))?)?;
    Ok(list)
}

/// The relay, with the longer timer in the design where it is late.
pub(crate) fn relay(alloc: Global, late: bool) -> Result<Tables, NoMemory>
    ensures { IfOk result (IsMadeOf (relay (hold_of late))) }
{
    checked_by_tests();
    let name = letter(alloc, b'k')?;
    let vars = variables(alloc)?;
    let memories = memories(alloc, late)?;
    let tables = tables(alloc)?;
    Ok(Tables {
        name,
        period: 50,
        splits: 1000,
        depth: 4,
        vars,
        memories,
        tables,
        first: List::new(alloc),
        always: List::new(alloc),
        step: List::new(alloc),
        blocks: List::new(alloc),
    })
}
