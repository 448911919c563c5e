use ft_base::{NoMemory, Place};

/// A limit of sets.
#[derive(Clone, Copy, Debug, PartialEq, Eq, Drop)]
pub enum LimitWord {
    /// A name has at most 40 bytes.
    Name,
    /// A number is at most 1,000,000,000.
    Number,
    /// At most 200 constants.
    Constants,
    /// At most 200 types.
    Types,
    /// At most 64 members of a type.
    Members,
    /// At most 500 variables.
    Variables,
    /// At most 200 memories.
    Memories,
    /// At most 100 clauses on the environment.
    Nat,
    /// At most 300 tables.
    Tables,
    /// At most 32 rows of a table.
    Rows,
    /// At most 32 entries of a header or a row.
    Columns,
    /// At most 300 blocks.
    Blocks,
    /// At most 300 facts of all blocks together.
    Facts,
    /// At most 300 names after `takes` or `uses`.
    List,
    /// At most 1,000 tokens of an expression.
    Expression,
    /// At most 64 open `(`, `not` and `-` before an operand in an expression.
    Nesting,
}

/// A limit that is passed, and the place that is told for it.
#[derive(Clone, Copy, PartialEq, Eq, Drop)]
pub struct Pass {
    pub which: LimitWord,
    pub place: Place,
}

/// Why reading stops at a token.
#[derive(Clone, Copy, PartialEq, Eq, Drop)]
pub enum Stop {
    /// No text goes on with it.
    Syntax,
    /// It passes a limit.
    Limit(Pass),
    /// There was no memory.
    NoMemory,
}

impl From<NoMemory> for Stop {
    ghost use Rattle.std.specs.Prelude.{◌≡◌};
    ghost use Rattle.ft_read.specs.declared.stop.Stop.TheVariants as stop;

    ghost from_gives = { λ _ e. e ≡ stop.NoMemory };

    fn from(_refused: NoMemory) -> Stop {
        Stop::NoMemory
    }
}
