//! The verdict on a set, stage by stage: each stage gives what the next one needs, or the report that ends the verdict.
ghost use Rattle.std.specs.Prelude.{◌≡◌, ◌<◌, ◌-◌, ◌^◌, false, length, IfOk, IfErr};
ghost use Rattle.ft_mean.specs.meaning.Proper.{AllProper};
ghost use Rattle.ft_core.specs.meaning.Order.{IsOrder};
ghost use Rattle.ft_blocks.specs.meaning.Cycles.{block_reads};
ghost use Rattle.ft_blocks.specs.meaning.Faults.{HasNoBlockFault};
ghost use Rattle.ft_blocks.specs.meaning.Goals.{HasGoals};
ghost use Rattle.ft_admit.specs.meaning.SetFaults.{IsSetOfText};
ghost use Rattle.ft_compose.specs.meaning.Decided.{IsBlocks};
ghost use Rattle.ft_unroll.specs.meaning.Found.{HasAllowed, IsDeep};
ghost use Rattle.ft_cli.specs.meaning.Judgement.{IsJudgement};
ghost use Rattle.ft_cli.specs.meaning.Replay.{IsEarly};
ghost use Rattle.ft_cli.specs.stages.Judging.{IsAdmitted, IsListed, IsReportOn, IsSearched};

use crate::refusing::refused;
use ft_admit::admit;
use ft_base::NoMemory;
use ft_blocks::Graph;
use ft_compose::{Blocks, Cells, decide_blocks};
use ft_core::{History, State, Tables};
use ft_cover::{Cover, cover};
use ft_report::{Report, Short, Subject};
use ft_search::SpentTree;
use ft_unroll::{Lists, Refute, allowed_list, refute};
use std::alloc::Global;

/// The checked set that a text spells, with the order of its blocks.
fn admitted(alloc: Global, text: &[u8]) -> Result<(Tables, Graph), Report>
    requires { length text.now < 2 ^ 32 - 1 }
    ensures admitted { IfOk result (λ kept. IsAdmitted text.now kept.0 kept.1) }
    ensures stopped { IfErr result (IsJudgement text.now) }
    ensures early { IfErr result IsEarly }
{
    match admit(alloc, text) {
        Ok(kept) => Ok(kept),
        Err(fault) => Err(refused(fault)),
    }
}

/// Stops at the first obligation of a table that isn't closed. Else it gives the set back.
fn covered(alloc: Global, tables: Tables) -> Result<Tables, Report>
    ensures same { IfOk result (λ kept. kept ≡ tables) }
    ensures proper { IfOk result AllProper }
    ensures stopped { IfErr result (IsReportOn tables) }
    ensures early { IfErr result IsEarly }
{
    let found = cover(alloc, &tables, false)?;
    match found {
        Cover::Proper { .. } => Ok(tables),
        Cover::Gap {
            table,
            values,
            labels,
        } => Err(Report::Gap {
            tables,
            table,
            state: State { labels, values },
        }),
        Cover::Overlap {
            table,
            first,
            second,
            values,
            labels,
        } => Err(Report::Overlap {
            tables,
            table,
            first,
            second,
            state: State { labels, values },
        }),
        Cover::OutOfRange {
            table,
            cell,
            values,
            labels,
        } => Err(Report::OutOfRange {
            tables,
            table,
            cell,
            state: State { labels, values },
        }),
        Cover::Spent { obligation, tree } => Err(Report::Spent {
            tables,
            subject: Subject::Obligation(obligation),
            tree,
            short: None,
        }),
    }
}

/// The checked set that a text spells, with proper tables.
pub(crate) fn proper_set(alloc: Global, text: &[u8]) -> Result<Tables, Report>
    requires { length text.now < 2 ^ 32 - 1 }
    ensures set { IfOk result (IsSetOfText text.now) }
    ensures blocks { IfOk result (λ tables. HasNoBlockFault tables.vars tables.blocks) }
    ensures proper { IfOk result AllProper }
    ensures stopped { IfErr result (IsJudgement text.now) }
    ensures early { IfErr result IsEarly }
{
    let (tables, _) = admitted(alloc, text)?;
    let kept = covered(alloc, tables)?;
    Ok(kept)
}

/// Stops where the environment of a set with proper tables allows no list of some length up to its depth. Else it gives the set back
/// with an allowed list of so many scans.
fn listed(alloc: Global, tables: Tables) -> Result<(Tables, History), Report>
    requires { AllProper tables }
    ensures listed { IfOk result (IsListed tables) }
    ensures stopped { IfErr result (IsReportOn tables) }
{
    let found = allowed_list(alloc, &tables)?;
    match found {
        Lists::List { history } => Ok((tables, history)),
        Lists::Stops { length } => Err(Report::NatStops { length }),
        Lists::SpentAt { length, tree } => Err(Report::Spent {
            tables,
            subject: Subject::NatList(length),
            tree,
            short: None,
        }),
    }
}

/// Stops where a short list shows that the design of a set with proper tables differs from its requirement. Else it gives the set back
/// with what is known of such lists.
fn without_difference(alloc: Global, tables: Tables) -> Result<(Tables, Short), Report>
    requires proper { AllProper tables }
    requires lists { HasAllowed tables tables.depth }
    ensures searched { IfOk result (IsSearched tables) }
    ensures stopped { IfErr result (IsReportOn tables) }
{
    let found = refute(alloc, &tables)?;
    match found {
        Refute::List { history, scan } => Err(Report::Refuted {
            tables,
            list: history,
            scan,
        }),
        Refute::Safe => {
            let length = tables.depth;
            Ok((tables, Short::Safe { length }))
        }
        Refute::SpentAt { length, tree } => Ok((tables, Short::SpentAt { length, tree })),
    }
}

/// The report on a set of which a fact fails at a state.
fn failing(
    alloc: Global,
    tables: Tables,
    obligation: u32,
    cells: Cells,
    state: State,
) -> Result<Report, Report>
    requires proper { AllProper tables }
    requires lists { HasAllowed tables tables.depth }
    requires found { IsBlocks tables false (Blocks.Fails obligation cells state.values state.labels) }
    ensures ended { IfOk result (IsReportOn tables) }
    ensures stopped { IfErr result (IsReportOn tables) }
{
    let (tables, short) = without_difference(alloc, tables)?;
    Ok(Report::Fails {
        tables,
        obligation,
        req: cells.req,
        out: cells.out,
        state,
        short,
    })
}

/// The report on a set of whose facts a search was spent.
fn spent(alloc: Global, tables: Tables, obligation: u32, tree: SpentTree) -> Result<Report, Report>
    requires proper { AllProper tables }
    requires lists { HasAllowed tables tables.depth }
    requires found { IsBlocks tables false (Blocks.Spent obligation tree) }
    ensures ended { IfOk result (IsReportOn tables) }
    ensures stopped { IfErr result (IsReportOn tables) }
{
    let (tables, short) = without_difference(alloc, tables)?;
    Ok(Report::Spent {
        tables,
        subject: Subject::Obligation(obligation),
        tree,
        short: Some(short),
    })
}

/// The report on a set with proper tables and an allowed list, by what is found of its facts.
fn decided(alloc: Global, tables: Tables, list: History, found: Blocks) -> Result<Report, Report>
    requires proper { AllProper tables }
    requires deep { IsDeep tables list }
    requires found { IsBlocks tables false found }
    ensures ended { IfOk result (IsReportOn tables) }
    ensures stopped { IfErr result (IsReportOn tables) }
{
    match found {
        Blocks::AllShown { .. } => Ok(Report::Verified { tables, list }),
        Blocks::Fails {
            obligation,
            cells,
            values,
            labels,
        } => failing(alloc, tables, obligation, cells, State { labels, values }),
        Blocks::Spent { obligation, tree } => spent(alloc, tables, obligation, tree),
    }
}

/// The report on a set with proper tables, from the stages after that.
fn judged(alloc: Global, tables: Tables, graph: &Graph) -> Result<Report, Report>
    requires proper { AllProper tables }
    requires blocks { HasNoBlockFault tables.vars tables.blocks }
    requires order { IsOrder (block_reads tables.blocks) graph.now.order }
    requires goals { HasGoals tables.vars tables.blocks }
    ensures ended { IfOk result (IsReportOn tables) }
    ensures stopped { IfErr result (IsReportOn tables) }
{
    let (tables, list) = listed(alloc, tables)?;
    let found = decide_blocks(alloc, &tables, graph, false)?;
    decided(alloc, tables, list, found)
}

/// The report on the set that a text spells, from the last stage of its verdict or from the one that stops it.
fn verdict(alloc: Global, text: &[u8]) -> Result<Report, Report>
    requires { length text.now < 2 ^ 32 - 1 }
    ensures ended { IfOk result (IsJudgement text.now) }
    ensures stopped { IfErr result (IsJudgement text.now) }
{
    let (tables, graph) = admitted(alloc, text)?;
    let tables = covered(alloc, tables)?;
    judged(alloc, tables, &graph)
}

/// What the set that a text spells comes to. The text is shorter than 2^32 - 1 bytes.
pub fn report_on_text(alloc: Global, text: &[u8]) -> Report
    requires { length text.now < 2 ^ 32 - 1 }
    ensures { IsJudgement text.now result }
{
    match verdict(alloc, text) {
        Ok(report) => report,
        Err(report) => report,
    }
}
