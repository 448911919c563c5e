ghost use Rattle.std.specs.Prelude.{Option, ◌++◌, ◌∷◌, [], ◌≡◌, map};
ghost use Rattle.std.specs.List.{flat_map};
ghost use Rattle.ft_names.specs.meaning.First.{Answers, first_of};
ghost use Rattle.ft_names.specs.declared.walk.Role.TheVariants.{Taken, Used};
ghost use Rattle.ft_names.specs.meaning.Spots.{Spot, bound, condition, conditions, entry_spots, fact_spots, grid_spots, initial};
ghost use Rattle.ft_names.specs.meaning.Spots.{item_spots, kind_spots, moment_site, named, number, row_spots, section_site, spots};
ghost use Rattle.ft_names.specs.meaning.Spots.{term_for, vector_row, vector_spots};

use crate::site::Site;
use crate::stop::Stop;
use ft_tree::{Bound, Expr, FactItem, Item, Kind, Row, SectionWord, VRow, Word};

/// What a name is used for, outside expressions, bounds and `init` values.
#[derive(Clone, Copy, Drop)]
pub enum Role {
    /// After `:`, as a variable's type.
    TypeName,
    /// What a table of this section defines.
    Target(SectionWord),
    /// After `takes`.
    Taken,
    /// After `uses`.
    Used,
    /// After `goal`.
    Goal,
}

/// What the entries of a header, or of the rows of a table, are.
#[derive(Clone, Copy, Drop)]
pub enum Entries {
    Conditions,
    /// Terms for the variable that the table defines.
    Terms,
}

/// A test of each place of a set's text.
pub trait Judge {
    type Fault: Drop;

    /// The fault of what stands at a place.
    ghost test: { Self → Spot → Option Self.Fault };

    /// A name that is used outside expressions, bounds and `init` values.
    fn named(&self, role: Role, word: &Word) -> Result<(), Stop<Self::Fault>>
        ensures { Answers result (test self.now (named role word.now)) };

    /// A bound or a hold.
    fn bound(&self, value: &Bound) -> Result<(), Stop<Self::Fault>>
        ensures { Answers result (test self.now (bound value.now)) };

    /// An `init` value, with its variable's type.
    fn initial(&self, of: &Kind, value: &Bound) -> Result<(), Stop<Self::Fault>>
        ensures { Answers result (test self.now (initial of.now value.now)) };

    /// An expression that has to be a condition.
    fn condition(&self, site: Site, expr: &Expr) -> Result<(), Stop<Self::Fault>>
        ensures { Answers result (test self.now (condition site expr.now)) };

    /// The term of a `hyst`, which has to be a number.
    fn number(&self, site: Site, expr: &Expr) -> Result<(), Stop<Self::Fault>>
        ensures { Answers result (test self.now (number site expr.now)) };

    /// A term for the variable of this name.
    fn term_for(&self, site: Site, word: &Word, expr: &Expr) -> Result<(), Stop<Self::Fault>>
        ensures { Answers result (test self.now (term_for site word.now expr.now)) };
}

#[tactic(auto, using(crate::specs::laws::First::firsts))]
fn judge_bounds<J: Judge>(judge: &J, lo: &Bound, hi: &Bound) -> Result<(), Stop<J::Fault>>
    ensures { Answers result (first_of (J.test judge.now) (bound lo.now ∷ bound hi.now ∷ [])) }
{
    judge.bound(lo)?;
    judge.bound(hi)
}

#[tactic(auto, using(crate::specs::laws::First::firsts))]
fn judge_kind<J: Judge>(judge: &J, of: &Kind) -> Result<(), Stop<J::Fault>>
    ensures { Answers result (first_of (J.test judge.now) (kind_spots of.now)) }
{
    match of {
        Kind::Range(lo, hi) => judge_bounds(judge, lo, hi),
        Kind::Named(word) => judge.named(Role::TypeName, word),
        Kind::Bool => Ok(()),
    }
}

#[tactic(auto, using(crate::specs::laws::First::firsts))]
fn judge_names<J: Judge>(judge: &J, role: Role, words: &[Word]) -> Result<(), Stop<J::Fault>>
    ensures { Answers result (first_of (λ x. J.test judge.now (named role x)) words.now) }
{
    for word in words {
        judge.named(role, word)?;
    }
    Ok(())
}

#[tactic(auto, using(crate::specs::laws::First::firsts))]
fn judge_conditions<J: Judge>(judge: &J, site: Site, exprs: &[Expr]) -> Result<(), Stop<J::Fault>>
    ensures { Answers result (first_of (λ x. J.test judge.now (condition site x)) exprs.now) }
{
    for expr in exprs {
        judge.condition(site, expr)?;
    }
    Ok(())
}

#[tactic(auto, using(crate::specs::laws::First::firsts))]
fn judge_terms<J: Judge>(
    judge: &J,
    site: Site,
    word: &Word,
    exprs: &[Expr],
) -> Result<(), Stop<J::Fault>>
    ensures { Answers result (first_of (λ x. J.test judge.now (term_for site word.now x)) exprs.now) }
{
    for expr in exprs {
        judge.term_for(site, word, expr)?;
    }
    Ok(())
}

#[tactic(auto, using(crate::specs::laws::First::firsts))]
fn judge_entries<J: Judge>(
    judge: &J,
    entries: Entries,
    site: Site,
    word: &Word,
    exprs: &[Expr],
) -> Result<(), Stop<J::Fault>>
    ensures { Answers result (first_of (J.test judge.now) (entry_spots entries site word.now exprs.now)) }
{
    match entries {
        Entries::Conditions => judge_conditions(judge, site, exprs),
        Entries::Terms => judge_terms(judge, site, word, exprs),
    }
}

#[tactic(auto, using(crate::specs::laws::First::firsts))]
fn judge_row<J: Judge>(
    judge: &J,
    entries: Entries,
    site: Site,
    word: &Word,
    row: &Row,
) -> Result<(), Stop<J::Fault>>
    ensures { Answers result (first_of (J.test judge.now) (row_spots entries site word.now row.now)) }
{
    judge.condition(site, &row.head)?;
    judge_entries(judge, entries, site, word, row.entries.as_slice())
}

#[tactic(auto, using(crate::specs::laws::First::firsts))]
fn judge_rows<J: Judge>(
    judge: &J,
    entries: Entries,
    site: Site,
    word: &Word,
    rows: &[Row],
) -> Result<(), Stop<J::Fault>>
    ensures { Answers result (first_of (λ x. first_of (J.test judge.now) (row_spots entries site word.now x)) rows.now) }
{
    for row in rows {
        judge_row(judge, entries, site, word, row)?;
    }
    Ok(())
}

// A normal table, with conditions in its header and terms in its rows, or an inverted one, the other way round.
#[tactic(auto, using(crate::specs::laws::First::firsts))]
fn judge_grid<J: Judge>(
    judge: &J,
    section: SectionWord,
    target: &Word,
    header: Entries,
    headers: &[Expr],
    entries: Entries,
    rows: &[Row],
) -> Result<(), Stop<J::Fault>>
    ensures { Answers result (first_of (J.test judge.now) (grid_spots section target.now header headers.now entries rows.now)) }
{
    let site = Site::of_section(section);
    judge.named(Role::Target(section), target)?;
    judge_entries(judge, header, site, target, headers)?;
    judge_rows(judge, entries, site, target, rows)
}

#[tactic(auto, using(crate::specs::laws::First::firsts))]
fn judge_vector_row<J: Judge>(
    judge: &J,
    section: SectionWord,
    row: &VRow,
) -> Result<(), Stop<J::Fault>>
    ensures { Answers result (first_of (J.test judge.now) (vector_row section row.now)) }
{
    let site = Site::of_section(section);
    judge.named(Role::Target(section), &row.target)?;
    judge_terms(judge, site, &row.target, row.entries.as_slice())
}

#[tactic(auto, using(crate::specs::laws::First::firsts))]
fn judge_vector_rows<J: Judge>(
    judge: &J,
    section: SectionWord,
    rows: &[VRow],
) -> Result<(), Stop<J::Fault>>
    ensures { Answers result (first_of (λ x. first_of (J.test judge.now) (vector_row section x)) rows.now) }
{
    for row in rows {
        judge_vector_row(judge, section, row)?;
    }
    Ok(())
}

#[tactic(auto, using(crate::specs::laws::First::firsts))]
fn judge_vector<J: Judge>(
    judge: &J,
    section: SectionWord,
    columns: &[Expr],
    rows: &[VRow],
) -> Result<(), Stop<J::Fault>>
    ensures { Answers result (first_of (J.test judge.now) (vector_spots section columns.now rows.now)) }
{
    judge_conditions(judge, Site::of_section(section), columns)?;
    judge_vector_rows(judge, section, rows)
}

#[tactic(auto, using(crate::specs::laws::First::firsts))]
fn judge_fact<J: Judge>(judge: &J, fact: &FactItem) -> Result<(), Stop<J::Fault>>
    ensures { Answers result (first_of (J.test judge.now) (fact_spots fact.now)) }
{
    match fact {
        FactItem::Shows { cond, .. } => judge.condition(Site::Shows, cond),
        FactItem::Goal { con } => judge.named(Role::Goal, con),
    }
}

#[tactic(auto, using(crate::specs::laws::First::firsts))]
fn judge_facts<J: Judge>(judge: &J, facts: &[FactItem]) -> Result<(), Stop<J::Fault>>
    ensures { Answers result (first_of (λ x. first_of (J.test judge.now) (fact_spots x)) facts.now) }
{
    for fact in facts {
        judge_fact(judge, fact)?;
    }
    Ok(())
}

#[tactic(auto, using(crate::specs::laws::First::firsts))]
fn judge_block<J: Judge>(
    judge: &J,
    takes: &[Word],
    uses: &[Word],
    facts: &[FactItem],
) -> Result<(), Stop<J::Fault>>
    ensures { Answers result (first_of (J.test judge.now) (map (named Taken) takes.now ++ map (named Used) uses.now
        ++ flat_map fact_spots facts.now)) }
{
    judge_names(judge, Role::Taken, takes)?;
    judge_names(judge, Role::Used, uses)?;
    judge_facts(judge, facts)
}

#[tactic(auto, using(crate::specs::laws::First::firsts))]
fn judge_item<J: Judge>(judge: &J, item: &Item) -> Result<(), Stop<J::Fault>>
    ensures { Answers result (first_of (J.test judge.now) (item_spots item.now)) }
{
    match item {
        Item::Constant { .. } | Item::EnumType { .. } => Ok(()),
        Item::RangeType { lo, hi, .. } => judge_bounds(judge, lo, hi),
        Item::Variable { of, init, .. } => {
            judge_kind(judge, of)?;
            judge.initial(of, init)
        }
        Item::Held {
            side,
            cond,
            hold,
            ..
        } => {
            judge.condition(Site::of_section(*side), cond)?;
            judge.bound(hold)
        }
        Item::Hyst {
            side,
            term,
            lo,
            hi,
            ..
        } => {
            judge.number(Site::of_section(*side), term)?;
            judge_bounds(judge, lo, hi)
        }
        Item::Normal {
            section,
            target,
            columns,
            rows,
        } => judge_grid(
            judge,
            *section,
            target,
            Entries::Conditions,
            columns.as_slice(),
            Entries::Terms,
            rows.as_slice(),
        ),
        Item::Inverted {
            section,
            target,
            terms,
            rows,
        } => judge_grid(
            judge,
            *section,
            target,
            Entries::Terms,
            terms.as_slice(),
            Entries::Conditions,
            rows.as_slice(),
        ),
        Item::Vector {
            section,
            columns,
            rows,
        } => judge_vector(judge, *section, columns.as_slice(), rows.as_slice()),
        Item::Nat { moment, cond } => judge.condition(Site::of_moment(*moment), cond),
        Item::Block {
            takes,
            uses,
            facts,
            ..
        } => judge_block(judge, takes.as_slice(), uses.as_slice(), facts.as_slice()),
    }
}

#[tactic(auto, using(crate::specs::laws::First::firsts))]
fn judge_items<J: Judge>(judge: &J, items: &[Item]) -> Result<(), Stop<J::Fault>>
    ensures { Answers result (first_of (λ x. first_of (J.test judge.now) (item_spots x)) items.now) }
{
    for item in items {
        judge_item(judge, item)?;
    }
    Ok(())
}

/// Looks for the first fault of a set's items, in the order of the text. It comes to each place once.
#[tactic(auto, using(crate::specs::laws::First::firsts))]
pub fn judge_set<J: Judge>(judge: &J, items: &[Item]) -> Result<(), Stop<J::Fault>>
    ensures answers { Answers result (first_of (J.test judge.now) (spots items.now)) }
{
    judge_items(judge, items)
}
