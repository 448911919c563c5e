//! The mixer, made at run time.
ghost use Rattle.std.specs.Prelude.{◌≡◌, IfOk, [], ◌∷◌, pos};
ghost use Rattle.ft_core.specs.declared.tables.Fact.TheVariants.{Goal};
ghost use Rattle.ft_core.specs.declared.tables.Take.TheVariants as take;
ghost use Rattle.ft_core.specs.declared.term.Cond.TheVariants.{Compare, No};
ghost use Rattle.ft_core.specs.declared.term.Rel.TheVariants.{Eq, Ge, Gt, Le, Lt};
ghost use Rattle.ft_core.specs.declared.term.Term.TheVariants.{Add, Div, Now, Num, Prev, Times};
ghost use Rattle.ft_worked.specs.Made.{IsMadeOf};
ghost use Rattle.ft_worked.specs.Mixer.{against, blocks, by_design, drive, full, gate, high, memories, mixer, probe, settled, trend};
ghost use Rattle.ft_worked.specs.Mixer.{valve_and_pump, vars};

use crate::making::{compared, declare, letter, memory_or_not, only, pair, triple};
use ft_base::{Boxed, List, NoMemory};
use ft_core::{
    Block, Cond, Fact, Grid, Memory, Rel, Section, Side, Table, Tables, Take, Term, Var, VarKind,
    checked_by_tests,
};
use std::alloc::Global;

fn variables(alloc: Global) -> Result<List<Var>, NoMemory>
    ensures { IfOk result (λ list. list ≡ vars) }
{
    let mut list = List::new(alloc);
    declare(alloc, &mut list, b'l', VarKind::Mon, 0, 9, 3)?;
    declare(alloc, &mut list, b'v', VarKind::Con, 0, 1, 0)?;
    declare(alloc, &mut list, b'p', VarKind::Con, 1, 3, 0)?;
    declare(alloc, &mut list, b'i', VarKind::Input, 0, 9, 3)?;
    declare(alloc, &mut list, b'd', VarKind::Output, 0, 3, 3)?;
    declare(alloc, &mut list, b'g', VarKind::Output, 1, 1, 0)?;
    declare(alloc, &mut list, b't', VarKind::SofInner, 0, 2, 0)?;
    Ok(list)
}

fn high(alloc: Global) -> Result<Memory, NoMemory>
    ensures { IfOk result (λ m. m ≡ high) }
{
    Ok(Memory::Hyst {
        name: letter(alloc, b'h')?,
        side: Side::Req,
        term: Term::Now(0),
        lo: 3,
        hi: 7,
        start: false,
    })
}

fn full(alloc: Global) -> Result<Memory, NoMemory>
    ensures { IfOk result (λ m. m ≡ full) }
{
    Ok(Memory::Held {
        name: letter(alloc, b'f')?,
        side: Side::Req,
        cond: Cond::Memory(0),
        hold: 100,
    })
}

fn settled(alloc: Global) -> Result<Memory, NoMemory>
    ensures { IfOk result (λ m. m ≡ settled) }
{
    Ok(Memory::Held {
        name: letter(alloc, b's')?,
        side: Side::Sof,
        cond: compared(Rel::Ge, 3, 6),
        hold: 50,
    })
}

fn memories(alloc: Global) -> Result<List<Memory>, NoMemory>
    ensures { IfOk result (λ list. list ≡ memories) }
{
    triple(alloc, high(alloc)?, full(alloc)?, settled(alloc)?)
}

fn level_or_twice(alloc: Global) -> Result<List<Term>, NoMemory>
    ensures { IfOk result (λ list. list ≡ Now 0 ∷ Times (pos 2) (Now 0) ∷ []) }
{
    let twice = Term::Times(2, Boxed::new(alloc, Term::Now(0))?);
    pair(alloc, Term::Now(0), twice)
}

fn probe(alloc: Global) -> Result<Table, NoMemory>
    ensures { IfOk result (λ t. t ≡ probe) }
{
    let columns = pair(alloc, compared(Rel::Ge, 0, 5), compared(Rel::Lt, 0, 5))?;
    let rows = only(alloc, Cond::Yes)?;
    let terms = only(alloc, level_or_twice(alloc)?)?;
    Ok(Table {
        section: Section::In,
        grid: Grid::Normal {
            target: 3,
            columns,
            rows,
            terms,
        },
    })
}

fn pump_terms(alloc: Global) -> Result<List<Term>, NoMemory>
    ensures { IfOk result (λ list. list ≡ Num (pos 0) ∷ Div (Prev 0) (pos 3) ∷ []) }
{
    let third = Term::Div(Boxed::new(alloc, Term::Prev(0))?, 3);
    pair(alloc, Term::Num(0), third)
}

fn valve_and_pump(alloc: Global) -> Result<Table, NoMemory>
    ensures { IfOk result (λ t. t ≡ valve_and_pump) }
{
    let columns = memory_or_not(alloc, 1)?;
    let targets = pair(alloc, 1, 2)?;
    let valve = pair(alloc, Term::Num(1), Term::Num(0))?;
    let terms = pair(alloc, valve, pump_terms(alloc)?)?;
    Ok(Table {
        section: Section::Req,
        grid: Grid::Vector {
            columns,
            targets,
            terms,
        },
    })
}

fn against(relation: Rel) -> Cond
    ensures { result ≡ against relation }
{
    Cond::Compare(relation, Term::Now(3), Term::Prev(3))
}

fn trend_rows(alloc: Global) -> Result<List<List<Cond>>, NoMemory>
    ensures { IfOk result (λ list. list ≡ (against Lt ∷ against Ge ∷ No ∷ []) ∷ (against Lt ∷ against Eq ∷ against Gt ∷ []) ∷ []) }
{
    let settled = triple(alloc, against(Rel::Lt), against(Rel::Ge), Cond::No)?;
    let moving = triple(alloc, against(Rel::Lt), against(Rel::Eq), against(Rel::Gt))?;
    pair(alloc, settled, moving)
}

fn trend(alloc: Global) -> Result<Table, NoMemory>
    ensures { IfOk result (λ t. t ≡ trend) }
{
    let terms = triple(alloc, Term::Num(0), Term::Num(1), Term::Num(2))?;
    let rows = memory_or_not(alloc, 2)?;
    let grid = trend_rows(alloc)?;
    Ok(Table {
        section: Section::Sof,
        grid: Grid::Inverted {
            target: 6,
            terms,
            rows,
            grid,
        },
    })
}

fn drive_terms(alloc: Global) -> Result<List<List<Term>>, NoMemory>
    ensures { IfOk result (λ list. list ≡ (Now 6 ∷ Num (pos 2) ∷ []) ∷ (Prev 4 ∷ Num (pos 0) ∷ []) ∷ []) }
{
    let settled = pair(alloc, Term::Now(6), Term::Num(2))?;
    let moving = pair(alloc, Term::Prev(4), Term::Num(0))?;
    pair(alloc, settled, moving)
}

fn drive(alloc: Global) -> Result<Table, NoMemory>
    ensures { IfOk result (λ t. t ≡ drive) }
{
    let columns = pair(alloc, compared(Rel::Ge, 6, 1), compared(Rel::Lt, 6, 1))?;
    let rows = memory_or_not(alloc, 2)?;
    let terms = drive_terms(alloc)?;
    Ok(Table {
        section: Section::Sof,
        grid: Grid::Normal {
            target: 4,
            columns,
            rows,
            terms,
        },
    })
}

fn gate(alloc: Global) -> Result<Table, NoMemory>
    ensures { IfOk result (λ t. t ≡ gate) }
{
    let columns = only(alloc, Cond::Yes)?;
    let rows = pair(alloc, compared(Rel::Le, 4, 1), compared(Rel::Gt, 4, 1))?;
    let open = only(alloc, Term::Num(1))?;
    let shut = only(alloc, Term::Num(0))?;
    let terms = pair(alloc, open, shut)?;
    Ok(Table {
        section: Section::Sof,
        grid: Grid::Normal {
            target: 5,
            columns,
            rows,
            terms,
        },
    })
}

fn by_design(alloc: Global) -> Result<Table, NoMemory>
    ensures { IfOk result (λ t. t ≡ by_design) }
{
    let columns = only(alloc, Cond::Yes)?;
    let targets = pair(alloc, 1, 2)?;
    let valve = only(alloc, Term::Now(5))?;
    let pump = only(alloc, Term::Now(4))?;
    let terms = pair(alloc, valve, pump)?;
    Ok(Table {
        section: Section::Out,
        grid: Grid::Vector {
            columns,
            targets,
            terms,
        },
    })
}

fn first_tables(alloc: Global) -> Result<List<Table>, NoMemory>
    ensures { IfOk result (λ list. list ≡ probe ∷ valve_and_pump ∷ trend ∷ []) }
{
    triple(alloc, probe(alloc)?, valve_and_pump(alloc)?, trend(alloc)?)
}

fn tables(alloc: Global) -> Result<List<Table>, NoMemory>
    ensures { IfOk result (λ list. list ≡ probe ∷ valve_and_pump ∷ trend ∷ drive ∷ gate ∷ by_design ∷ []) }
{
    let mut list = first_tables(alloc)?;
    list.push(drive(alloc)?)?;
    list.push(gate(alloc)?)?;
    list.push(by_design(alloc)?)?;
    Ok(list)
}

/// The level rises by 4 at most.
fn rising(alloc: Global) -> Result<Cond, NoMemory>
    ensures { IfOk result (λ c. c ≡ Compare Le (Now 0) (Add (Prev 0) (Num (pos 4)))) }
{
    let before = Boxed::new(alloc, Term::Prev(0))?;
    let more = Boxed::new(alloc, Term::Num(4))?;
    Ok(Cond::Compare(Rel::Le, Term::Now(0), Term::Add(before, more)))
}

/// A block that shows the goal of one variable.
fn block(
    alloc: Global,
    byte: u8,
    controlled: u32,
    output: u32,
    memory: u32,
) -> Result<Block, NoMemory>
    ensures { IfOk result (λ b. b ≡ record {
      name = byte ∷ [];
      takes = take.Variable controlled ∷ take.Variable output ∷ take.Memory memory
          ∷ [];
      uses = [];
      facts = Goal controlled ∷ [];
    }) }
{
    let takes = triple(
        alloc,
        Take::Variable(controlled),
        Take::Variable(output),
        Take::Memory(memory),
    )?;
    let facts = only(alloc, Fact::Goal { con: controlled })?;
    Ok(Block {
        name: letter(alloc, byte)?,
        takes,
        uses: List::new(alloc),
        facts,
    })
}

fn blocks(alloc: Global) -> Result<List<Block>, NoMemory>
    ensures { IfOk result (λ list. list ≡ blocks) }
{
    let valve = block(alloc, b'a', 1, 5, 1)?;
    let pump = block(alloc, b'b', 2, 4, 2)?;
    pair(alloc, valve, pump)
}

/// The set.
pub(super) fn mixer(alloc: Global) -> Result<Tables, NoMemory>
    ensures { IfOk result (IsMadeOf mixer) }
{
    checked_by_tests();
    let name = letter(alloc, b'm')?;
    let vars = variables(alloc)?;
    let memories = memories(alloc)?;
    let tables = tables(alloc)?;
    let blocks = blocks(alloc)?;
    let first = only(alloc, compared(Rel::Eq, 0, 5))?;
    let always = only(alloc, compared(Rel::Le, 0, 9))?;
    let step = only(alloc, rising(alloc)?)?;
    Ok(Tables {
        name,
        period: 50,
        splits: 1000,
        depth: 4,
        vars,
        memories,
        tables,
        first,
        always,
        step,
        blocks,
    })
}
