use ft_tree::{SectionWord, VarWord};

/// What values a type has.
#[derive(Clone, Copy, Drop)]
pub enum Values {
    /// The numbers from `lo` to `hi`.
    Numbers { lo: i64, hi: i64 },
    /// `false` and `true`.
    Truths,
    /// The members of an enum type, named by the number of the item that declares it.
    Members { item: u32, count: u32 },
    /// None: the type's name is that of no type.
    Untyped,
}

/// What a declared name stands for.
#[derive(Clone, Copy, Drop)]
pub enum Card {
    /// A constant with its value.
    Constant(i64),
    /// A type.
    TypeName(Values),
    /// A member of the enum type that this item declares, and its position there.
    Member {
        item: u32,
        position: u32,
    },
    /// A variable, with its place among the variables.
    Variable {
        place: u32,
        kind: VarWord,
        values: Values,
    },
    /// A memory, with its place among the memories, its side and the hold of a timer.
    Memory {
        place: u32,
        side: SectionWord,
        hold: Option<i64>,
    },
    /// A block, with its place among the blocks.
    Block(u32),
    /// An invariant, with the place of its block and its own place among the block's facts.
    Invariant {
        block: u32,
        fact: u32,
    },
}
