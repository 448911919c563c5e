ghost use Rattle.std.specs.Prelude.{◌≡◌, List, ◌++◌, ◌∷◌, [], OnOk};
ghost use Rattle.ft_tree.specs.declared.item.Item.{Item};
ghost use Rattle.ft_read.specs.parsers.Combinators.{Gives};
ghost use Rattle.ft_parse.specs.parsers.Counts.{AreCounted, sort_named};
ghost use Rattle.ft_parse.specs.parsers.Items.{declared_by};
ghost use Rattle.ft_parse.specs.meaning.Room.{is_full, no_more_facts};

use ft_base::{List, NoMemory};
use ft_read::{Cursor, LimitWord, Stop, counted_name};
use ft_tree::{Item, Word};
use std::alloc::Global;
use std::marker::Model;

/// What the limits of a set count.
#[derive(Clone, Copy, Drop)]
pub enum Sort {
    Constants,
    Types,
    Variables,
    Memories,
    Tables,
    Clauses,
    Blocks,
}

/// How many items there are of each sort, and how many facts. Each stands still at the type's end, which is past each limit.
#[derive(Clone, Copy, Drop)]
pub struct Counts {
    pub constants: usize,
    pub types: usize,
    pub variables: usize,
    pub memories: usize,
    pub tables: usize,
    pub clauses: usize,
    pub blocks: usize,
    pub facts: usize,
}

/// The items of a set that were read so far. Their counts are kept beside them, so that no limit counts them anew.
#[derive(Drop)]
pub struct Items {
    list: List<Item>,
    counts: Counts,
}

impl Model for Items {
    ghost use Rattle.std.specs.Prelude.{List};
    ghost use Rattle.std.specs.Coded.{codes};
    ghost use Rattle.ft_tree.specs.contracts.expr.Expr as expr;
    ghost use Rattle.ft_tree.specs.declared.item.Item.{Item};
    ghost use Rattle.ft_parse.specs.parsers.Counts.{AreCounted};

    ghost Value = { List Item };

    ghost coded = { Prim.hlevel (codes, expr.the_row.coded) };

    ghost view = { λ items. items.list };

    ghost invariant = { λ items. AreCounted items.counts items.list };
}

const NONE: Counts = Counts {
    constants: 0,
    types: 0,
    variables: 0,
    memories: 0,
    tables: 0,
    clauses: 0,
    blocks: 0,
    facts: 0,
};

impl Counts {
    /// The counts with an item more.
    #[tactic(auto, using(crate::proofs::CountLemmas::counts))]
    fn including(self, item: &Item) -> Counts
        ensures { (items : List Item) → AreCounted self items → AreCounted result (items ++ item.now ∷ []) }
    {
        match item {
            Item::Constant { .. } => Counts {
                constants: self.constants.saturating_add(1),
                ..self
            },
            Item::RangeType { .. } | Item::EnumType { .. } => Counts {
                types: self.types.saturating_add(1),
                ..self
            },
            Item::Variable { .. } => Counts {
                variables: self.variables.saturating_add(1),
                ..self
            },
            Item::Held { .. } | Item::Hyst { .. } => Counts {
                memories: self.memories.saturating_add(1),
                ..self
            },
            Item::Normal { .. } | Item::Inverted { .. } | Item::Vector { .. } => Counts {
                tables: self.tables.saturating_add(1),
                ..self
            },
            Item::Nat { .. } => Counts {
                clauses: self.clauses.saturating_add(1),
                ..self
            },
            Item::Block { facts, .. } => Counts {
                blocks: self.blocks.saturating_add(1),
                facts: self.facts.saturating_add(facts.len()),
                ..self
            },
        }
    }
}

impl Items {
    /// No items.
    pub fn new(alloc: Global) -> Items
        ensures { result ≡ [] }
    {
        Items {
            list: List::new(alloc),
            counts: NONE,
        }
    }

    /// The items alone.
    pub fn into_list(self) -> List<Item>
        ensures { result ≡ self }
    {
        let Items { list, .. } = self;
        list
    }

    /// Whether there is no room for an item more of a sort.
    #[tactic(auto, using(crate::proofs::CountLemmas::rooms))]
    pub fn is_full(&self, sort: Sort) -> bool
        ensures { result ≡ is_full (sort_named sort) self.now }
    {
        match sort {
            Sort::Constants => self.counts.constants >= 200,
            Sort::Types => self.counts.types >= 200,
            Sort::Variables => self.counts.variables >= 500,
            Sort::Memories => self.counts.memories >= 200,
            Sort::Tables => self.counts.tables >= 300,
            Sort::Clauses => self.counts.clauses >= 100,
            Sort::Blocks => self.counts.blocks >= 300,
        }
    }

    /// Whether there is no room for a fact more, after those of the items and so many of a block.
    #[tactic(auto, using(crate::proofs::CountLemmas::rooms))]
    pub fn has_no_room_after(&self, facts: usize) -> bool
        ensures { result ≡ no_more_facts self.now facts }
    {
        self.counts.facts.saturating_add(facts) >= 300
    }

    /// Adds an item at the end.
    pub fn push(&mut self, item: Item) -> Result<(), NoMemory>
        ensures { OnOk result (self.new ≡ self.old ++ item ∷ []) }
    {
        let counts = self.counts.including(&item);
        self.list.push(item)?;
        self.counts = counts;
        Ok(())
    }
}

/// Goes past the name of an item of a sort, which is one too many where there is no room for it.
#[tactic(auto, unfolding(crate::specs::parsers::Items::declared_by))]
pub fn declared(
    alloc: Global,
    cursor: &mut Cursor,
    before: &Items,
    sort: Sort,
    which: LimitWord,
) -> Result<Word, Stop>
    ensures { Gives (λ name. name) result cursor.new (declared_by (sort_named sort) which before.now cursor.old) }
{
    counted_name(alloc, cursor, before.is_full(sort), which)
}
