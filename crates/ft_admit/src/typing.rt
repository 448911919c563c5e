ghost use Rattle.std.specs.Prelude.{◌≡◌, IfOk, IfErr, OnOk, IsOkUnless};
ghost use Rattle.ft_core.specs.checked.Sound.{IsSound};
ghost use Rattle.ft_core.specs.checked.Checked.{IsChecked};
ghost use Rattle.ft_admit.specs.meaning.TreeFaults.{HasNoFault, IsFirstFault};
ghost use Rattle.ft_admit.specs.meaning.Trees.{parts_of, set_of_tree};

use crate::cycles::judge_cycles;
use crate::fault::TypeFault;
use crate::forms_law::lawful_form;
use crate::judging::judge_tree;
use crate::terms_law::lawful_terms;
use crate::uses::judge_uses;
use ft_build::{Parts, build_set};
use ft_core::Tables;
use ft_names::names_differ;
use ft_tree::Tree;
use std::alloc::Global;

// The checked set of parts that pass.
fn checked(parts: Parts) -> Tables
    requires sound { IsSound parts.period parts.vars parts.memories parts.tables parts.first parts.always parts.step }
    requires checked { IsChecked parts.name parts.splits parts.depth parts.vars parts.memories parts.tables parts.first parts.always
        parts.step parts.blocks }
    ensures { parts_of result ≡ parts }
{
    Tables {
        name: parts.name,
        period: parts.period,
        splits: parts.splits,
        depth: parts.depth,
        vars: parts.vars,
        memories: parts.memories,
        tables: parts.tables,
        first: parts.first,
        always: parts.always,
        step: parts.step,
        blocks: parts.blocks,
    }
}

/// The checked set that a tree spells, or the first fault of the tree: of the kinds from NoVariable to UnknownInvariant the first that
/// occurs, at its first place in the text; or want of memory.
pub fn type_set(alloc: Global, tree: &Tree) -> Result<Tables, TypeFault>
    ensures set { IfOk result (λ tables. parts_of tables ≡ set_of_tree tree.now) }
    ensures no_fault { OnOk result (HasNoFault tree.now) }
    ensures fault { IfErr result (IsFirstFault tree.now) }
    ensures only { HasNoFault tree.now → IsOkUnless result TypeFault.NoMemory }
{
    lawful_form();
    lawful_terms();
    names_differ();
    let known = judge_tree(alloc, tree)?;
    let parts = build_set(alloc, &known.names, &known.cards, tree)?;
    judge_cycles(alloc, tree, &parts)?;
    judge_uses(alloc, &known.cards, tree)?;
    Ok(checked(parts))
}
