//! What the variables and memories of a set read of each other within one scan.
ghost use Rattle.std.specs.Prelude.{◌≡◌, ◌≤◌, ◌+◌, ◌++◌, [], ◌∷◌, length, map, replicate, IsTrue, IfOk, OnOk, Some};
ghost use Rattle.std.specs.List.{flat_map, list_all, zip};
ghost use Rattle.ft_core.specs.walk.Gathering.{Adds, AreVariableReads, Longer, grid_reads_for, if_target, inverted_reads, is_of_side};
ghost use Rattle.ft_core.specs.walk.Gathering.{items_in, normal_reads, row_reads, table_reads_for};
ghost use Rattle.ft_core.specs.meaning.Grids.{is_shaped};
ghost use Rattle.ft_core.specs.meaning.Items.{ArePlainReads, item_read};
ghost use Rattle.ft_core.specs.meaning.Reads.{at_now, of_memory, cond_reads, memory_reads, term_reads};

use crate::tables::{Grid, Memory, Section, Table};
use crate::term::{Cond, Term};
use ft_base::{List, NoMemory};
use std::alloc::Global;

// How many variables and memories there are.
#[derive(Clone, Copy, Drop)]
struct Counts {
    vars: u32,
    memories: u32,
    ghost few: { vars + memories ≤ 10000 },
}

// Adds the item of a variable of this scan, where there is one at this place.
fn add_variable(items: &mut List<u32>, counts: Counts, place: u32) -> Result<(), NoMemory>
    ensures { OnOk result (Adds counts.vars counts.memories (at_now place ∷ []) items.old items.new) }
{
    if place < counts.vars {
        items.push(place)
    } else {
        Ok(())
    }
}

// Adds the item of a memory, where there is one at this place.
fn add_memory(items: &mut List<u32>, counts: Counts, place: u32) -> Result<(), NoMemory>
    ensures { OnOk result (Adds counts.vars counts.memories (of_memory place ∷ []) items.old items.new) }
{
    if place < counts.memories {
        items.push(counts.vars + place)
    } else {
        Ok(())
    }
}

// Adds the items that a term reads.
#[tactic(auto, using(crate::proofs::ReadLemmas::term_parts))]
fn add_term(items: &mut List<u32>, counts: Counts, term: &Term) -> Result<(), NoMemory>
    ensures { OnOk result (Adds counts.vars counts.memories (term_reads term.now) items.old items.new) }
{
    match term {
        Term::Num(_) | Term::Age(_) => Ok(()),
        // The scan before is over.
        Term::Prev(_) => Ok(()),
        Term::Now(variable) => add_variable(items, counts, *variable),
        Term::Neg(inner) | Term::Times(_, inner) | Term::Div(inner, _) => {
            add_term(items, counts, inner.get())
        }
        Term::Add(a, b) | Term::Sub(a, b) => {
            add_term(items, counts, a.get())?;
            add_term(items, counts, b.get())
        }
    }
}

// Adds the items that a condition reads.
#[tactic(auto, using(crate::proofs::ReadLemmas::cond_parts))]
fn add_cond(items: &mut List<u32>, counts: Counts, cond: &Cond) -> Result<(), NoMemory>
    ensures { OnOk result (Adds counts.vars counts.memories (cond_reads cond.now) items.old items.new) }
{
    match cond {
        Cond::Yes | Cond::No => Ok(()),
        Cond::Compare(_, a, b) => {
            add_term(items, counts, a)?;
            add_term(items, counts, b)
        }
        Cond::Memory(memory) => add_memory(items, counts, *memory),
        Cond::Not(inner) => add_cond(items, counts, inner.get()),
        Cond::And(a, b) | Cond::Or(a, b) => {
            add_cond(items, counts, a.get())?;
            add_cond(items, counts, b.get())
        }
    }
}

#[tactic(auto, using(crate::proofs::ReadLemmas::adds_none, crate::proofs::ReadLemmas::adds_more))]
fn add_terms(items: &mut List<u32>, counts: Counts, terms: &[Term]) -> Result<(), NoMemory>
    ensures { OnOk result (Adds counts.vars counts.memories (flat_map term_reads terms.now) items.old items.new) }
{
    for term in terms {
        add_term(items, counts, term)?;
    }
    Ok(())
}

#[tactic(auto, using(crate::proofs::ReadLemmas::adds_none, crate::proofs::ReadLemmas::adds_more))]
fn add_conds(items: &mut List<u32>, counts: Counts, conds: &[Cond]) -> Result<(), NoMemory>
    ensures { OnOk result (Adds counts.vars counts.memories (flat_map cond_reads conds.now) items.old items.new) }
{
    for cond in conds {
        add_cond(items, counts, cond)?;
    }
    Ok(())
}

#[tactic(auto, using(crate::proofs::ReadLemmas::adds_none, crate::proofs::ReadLemmas::adds_more))]
fn add_term_rows(items: &mut List<u32>, counts: Counts, rows: &[List<Term>]) -> Result<(), NoMemory>
    ensures { OnOk result (Adds counts.vars counts.memories (flat_map (flat_map term_reads) rows.now) items.old items.new) }
{
    for row in rows {
        add_terms(items, counts, row.as_slice())?;
    }
    Ok(())
}

#[tactic(auto, using(crate::proofs::ReadLemmas::adds_none, crate::proofs::ReadLemmas::adds_more))]
fn add_cond_rows(items: &mut List<u32>, counts: Counts, rows: &[List<Cond>]) -> Result<(), NoMemory>
    ensures { OnOk result (Adds counts.vars counts.memories (flat_map (flat_map cond_reads) rows.now) items.old items.new) }
{
    for row in rows {
        add_conds(items, counts, row.as_slice())?;
    }
    Ok(())
}

// Adds the items that a normal table reads.
fn add_normal(
    items: &mut List<u32>,
    counts: Counts,
    columns: &[Cond],
    rows: &[Cond],
    terms: &[List<Term>],
) -> Result<(), NoMemory>
    ensures { OnOk result (Adds counts.vars counts.memories (normal_reads columns.now rows.now terms.now) items.old items.new) }
{
    add_conds(items, counts, columns)?;
    add_conds(items, counts, rows)?;
    add_term_rows(items, counts, terms)
}

// Adds the items that an inverted table reads.
fn add_inverted(
    items: &mut List<u32>,
    counts: Counts,
    terms: &[Term],
    rows: &[Cond],
    grid: &[List<Cond>],
) -> Result<(), NoMemory>
    ensures { OnOk result (Adds counts.vars counts.memories (inverted_reads terms.now rows.now grid.now) items.old items.new) }
{
    add_terms(items, counts, terms)?;
    add_conds(items, counts, rows)?;
    add_cond_rows(items, counts, grid)
}

// Adds the items that a row of a vector table reads, after those of the columns.
fn add_row(
    items: &mut List<u32>,
    counts: Counts,
    columns: &[u32],
    terms: &[Term],
) -> Result<(), NoMemory>
    ensures { OnOk result (items.new ≡ items.old ++ (columns.now ++ items_in counts.vars counts.memories (flat_map term_reads terms.now))) }
{
    items.extend(columns)?;
    add_terms(items, counts, terms)
}

// The items that conditions read.
fn items_of(alloc: Global, counts: Counts, conds: &[Cond]) -> Result<List<u32>, NoMemory>
    ensures { IfOk result (λ items. items ≡ items_in counts.vars counts.memories (flat_map cond_reads conds.now)) }
{
    let mut items = List::new(alloc);
    add_conds(&mut items, counts, conds)?;
    Ok(items)
}

// Adds what a normal table reads to the list of its target.
fn gather_normal(
    lists: &mut Vec<List<u32>>,
    counts: Counts,
    target: u32,
    columns: &[Cond],
    rows: &[Cond],
    terms: &[List<Term>],
) -> Result<(), NoMemory>
    ensures { OnOk result (Longer (if_target target (items_in counts.vars counts.memories (normal_reads columns.now rows.now terms.now)))
        lists.old.items lists.new.items) }
{
    if (target as usize) < lists.len() {
        add_normal(&mut lists[target as usize], counts, columns, rows, terms)
    } else {
        Ok(())
    }
}

// Adds what an inverted table reads to the list of its target.
fn gather_inverted(
    lists: &mut Vec<List<u32>>,
    counts: Counts,
    target: u32,
    terms: &[Term],
    rows: &[Cond],
    grid: &[List<Cond>],
) -> Result<(), NoMemory>
    ensures { OnOk result (Longer (if_target target (items_in counts.vars counts.memories (inverted_reads terms.now rows.now grid.now)))
        lists.old.items lists.new.items) }
{
    if (target as usize) < lists.len() {
        add_inverted(&mut lists[target as usize], counts, terms, rows, grid)
    } else {
        Ok(())
    }
}

// Adds what a row of a vector table reads to the list of its target.
fn gather_row(
    lists: &mut Vec<List<u32>>,
    counts: Counts,
    target: u32,
    columns: &[u32],
    terms: &[Term],
) -> Result<(), NoMemory>
    ensures { OnOk result (Longer (if_target target (columns.now ++ items_in counts.vars counts.memories (flat_map term_reads terms.now)))
        lists.old.items lists.new.items) }
{
    if (target as usize) < lists.len() {
        add_row(&mut lists[target as usize], counts, columns, terms)
    } else {
        Ok(())
    }
}

// Adds what each row of a vector table reads, with the columns, to the list of its target.
fn gather_rows(
    lists: &mut Vec<List<u32>>,
    counts: Counts,
    columns: &[u32],
    targets: &[u32],
    terms: &[List<Term>],
) -> Result<(), NoMemory>
    ensures { OnOk result (Longer (λ k. flat_map (λ r. if_target r.0 (columns.now
        ++ items_in counts.vars counts.memories (flat_map term_reads r.1)) k) (zip targets.now terms.now)) lists.old.items lists.new.items) }
{
    for at in 0..targets.len().min(terms.len()) {
        gather_row(lists, counts, targets[at], columns, terms[at].as_slice())?;
    }
    Ok(())
}

// Adds what a grid reads to the lists of its targets.
fn gather_grid(
    alloc: Global,
    lists: &mut Vec<List<u32>>,
    counts: Counts,
    grid: &Grid,
) -> Result<(), NoMemory>
    ensures { OnOk result (Longer (λ k. items_in counts.vars counts.memories (grid_reads_for k grid.now)) lists.old.items lists.new.items) }
{
    match grid {
        Grid::Normal {
            target,
            columns,
            rows,
            terms,
        } => {
            gather_normal(
                lists,
                counts,
                *target,
                columns.as_slice(),
                rows.as_slice(),
                terms.as_slice(),
            )
        }
        Grid::Inverted {
            target,
            terms,
            rows,
            grid,
        } => {
            gather_inverted(
                lists,
                counts,
                *target,
                terms.as_slice(),
                rows.as_slice(),
                grid.as_slice(),
            )
        }
        Grid::Vector {
            columns,
            targets,
            terms,
        } => {
            let items = items_of(alloc, counts, columns.as_slice())?;
            gather_rows(
                lists,
                counts,
                items.as_slice(),
                targets.as_slice(),
                terms.as_slice(),
            )
        }
    }
}

// Whether what its tables define is an item of the order.
fn is_of_side(section: Section) -> bool
    ensures { result ≡ is_of_side section }
{
    section.is(Section::Req) || section.is(Section::Sof)
}

// Adds what a table reads to the lists of its targets, where it is of REQ or SOF.
fn gather_table(
    alloc: Global,
    lists: &mut Vec<List<u32>>,
    counts: Counts,
    table: &Table,
) -> Result<(), NoMemory>
    ensures { OnOk result (Longer (λ k. items_in counts.vars counts.memories (table_reads_for k table.now)) lists.old.items lists.new.items) }
{
    if is_of_side(table.section) {
        gather_grid(alloc, lists, counts, &table.grid)
    } else {
        Ok(())
    }
}

// So many lists, without an item.
pub(crate) fn empty_lists(alloc: Global, count: usize) -> Result<Vec<List<u32>>, NoMemory>
    ensures { IfOk result (λ lists. lists.items ≡ replicate count []) }
{
    let mut lists = Vec::new(alloc);
    for _item in 0..count {
        lists.push(List::new(alloc))?;
    }
    Ok(lists)
}

// What each variable reads by the tables of REQ and SOF.
fn read_by_variables(
    alloc: Global,
    counts: Counts,
    tables: &[Table],
) -> Result<List<List<u32>>, NoMemory>
    ensures { IfOk result (AreVariableReads counts.vars counts.memories tables.now) }
{
    let mut lists = empty_lists(alloc, counts.vars as usize)?;
    for table in tables {
        gather_table(alloc, &mut lists, counts, table)?;
    }
    Ok(List::from_vec(lists))
}

// What a memory reads.
fn read_by_memory(alloc: Global, counts: Counts, memory: &Memory) -> Result<List<u32>, NoMemory>
    ensures { IfOk result (λ items. items ≡ items_in counts.vars counts.memories (memory_reads (Some memory.now))) }
{
    let mut items = List::new(alloc);
    match memory {
        Memory::Held { cond, .. } => add_cond(&mut items, counts, cond)?,
        Memory::Hyst { term, .. } => add_term(&mut items, counts, term)?,
    }
    Ok(items)
}

// Adds a list for each memory.
fn add_memories(
    alloc: Global,
    lists: &mut List<List<u32>>,
    counts: Counts,
    memories: &[Memory],
) -> Result<(), NoMemory>
    ensures { OnOk result (lists.new ≡ lists.old ++ map (λ memory. items_in counts.vars counts.memories (memory_reads (Some memory)))
        memories.now) }
{
    for memory in memories {
        lists.push(read_by_memory(alloc, counts, memory)?)?;
    }
    Ok(())
}

/// What each variable and each memory reads of the others within one scan, with the variables numbered first. Each table is
/// read once, the columns of a vector table too.
pub(crate) fn plain_reads(
    alloc: Global,
    vars: usize,
    memories: &[Memory],
    tables: &[Table],
) -> Result<List<List<u32>>, NoMemory>
    requires shapes { IsTrue (list_all (λ table. is_shaped table.grid) tables.now) }
    requires few { vars + length memories.now ≤ 10000 }
    ensures { IfOk result (ArePlainReads vars memories.now tables.now) }
{
    let counts = Counts {
        vars: vars as u32,
        memories: memories.len() as u32,
    };
    let mut lists = read_by_variables(alloc, counts, tables)?;
    add_memories(alloc, &mut lists, counts, memories)?;
    Ok(lists)
}
