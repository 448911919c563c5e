use crate::expr::Expr;
use ft_base::{List, Place, Text};

/// A name and its place.
#[derive(Drop)]
pub struct Word {
    pub text: Text,
    pub place: Place,
}

/// A number and its place.
#[derive(Clone, Copy, Drop)]
pub struct Number {
    pub value: u64,
    pub place: Place,
}

/// A number, a name or a truth.
#[derive(Drop)]
pub enum Plain {
    Number(u64),
    Name(Text),
    Truth(bool),
}

/// A bound, an `init` value or a hold, with the place of its first token.
/// A truth stands in an `init` value alone and has no minus. A hold has no minus.
#[derive(Drop)]
pub struct Bound {
    pub minus: bool,
    pub value: Plain,
    pub place: Place,
}

/// What values a variable has: those of a range, of a declared type, or the truths.
#[derive(Drop)]
pub enum Kind {
    Range(Bound, Bound),
    Named(Word),
    Bool,
}

/// The words before a variable's name.
#[derive(Clone, Copy, PartialEq, Eq, Drop)]
pub enum VarWord {
    Mon,
    Con,
    Input,
    Output,
    ReqVar,
    SofVar,
}

/// The section of a table, or the side of a memory.
#[derive(Clone, Copy, PartialEq, Eq, Drop)]
pub enum SectionWord {
    In,
    Req,
    Sof,
    Out,
}

/// When a clause on the environment holds: at scan 0, at each scan, or at each scan after 0.
#[derive(Clone, Copy, PartialEq, Eq, Drop)]
pub enum NatWord {
    First,
    Always,
    Step,
}

/// A row of a table, with the place of its word `row`.
#[derive(Drop)]
pub struct Row {
    pub place: Place,
    pub head: Expr,
    pub entries: List<Expr>,
}

/// A row of a vector table, with the place of its word `row`.
#[derive(Drop)]
pub struct VRow {
    pub place: Place,
    pub target: Word,
    pub entries: List<Expr>,
}

/// A fact of a block: an invariant that it shows, or a controlled variable that is its goal.
#[derive(Drop)]
pub enum FactItem {
    Shows { name: Word, cond: Expr },
    Goal { con: Word },
}

/// A declaration, a table, a clause on the environment or a block.
#[derive(Drop)]
pub enum Item {
    Constant {
        name: Word,
        minus: bool,
        value: Number,
    },
    RangeType {
        name: Word,
        lo: Bound,
        hi: Bound,
    },
    EnumType {
        name: Word,
        members: List<Word>,
    },
    Variable {
        kind: VarWord,
        name: Word,
        of: Kind,
        init: Bound,
    },
    /// The side is Req or Sof.
    Held {
        side: SectionWord,
        name: Word,
        cond: Expr,
        hold: Bound,
    },
    /// The side is Req or Sof.
    Hyst {
        side: SectionWord,
        name: Word,
        term: Expr,
        lo: Bound,
        hi: Bound,
        start: bool,
    },
    Normal {
        section: SectionWord,
        target: Word,
        columns: List<Expr>,
        rows: List<Row>,
    },
    Inverted {
        section: SectionWord,
        target: Word,
        terms: List<Expr>,
        rows: List<Row>,
    },
    Vector {
        section: SectionWord,
        columns: List<Expr>,
        rows: List<VRow>,
    },
    Nat {
        moment: NatWord,
        cond: Expr,
    },
    /// An empty `takes` or `uses` is a part that isn't there.
    Block {
        name: Word,
        takes: List<Word>,
        uses: List<Word>,
        facts: List<FactItem>,
    },
}
