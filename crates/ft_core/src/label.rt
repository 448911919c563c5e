use ft_base::{Duplicate, List, NoMemory, Text};
use std::alloc::Global;

/// What an unknown of a formula stands for, as a report names it.
#[derive(Drop)]
pub struct Label {
    pub name: Text,
    /// The members of an enum, and none for a number.
    pub members: List<Text>,
}

/// A value for each label.
#[derive(Drop)]
pub struct State {
    pub labels: List<Label>,
    /// One for each label, in their order; of an enum its member's position.
    pub values: List<i64>,
}

impl Duplicate for Label {
    fn duplicate(&self, alloc: Global) -> Result<Label, NoMemory> {
        Ok(Label {
            name: self.name.duplicate(alloc)?,
            members: self.members.duplicate(alloc)?,
        })
    }
}

impl Duplicate for State {
    fn duplicate(&self, alloc: Global) -> Result<State, NoMemory> {
        Ok(State {
            labels: self.labels.duplicate(alloc)?,
            values: self.values.duplicate(alloc)?,
        })
    }
}
