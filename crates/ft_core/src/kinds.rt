ghost use Rattle.std.specs.Prelude.{◌≡◌};
ghost use Rattle.ft_core.specs.meaning.Kinds.{defined_kinds, given_kinds, section_of, side_kinds};

use crate::tables::{Section, Side, Var, VarKind};

impl Section {
    /// Whether its tables define the variable at a place of the set.
    pub fn defines(self, place: usize, var: &Var) -> bool
        ensures { result ≡ defined_kinds self place var.now }
    {
        match self {
            Section::In => var.kind == VarKind::Input,
            Section::Req => var.kind == VarKind::Con || var.kind == VarKind::ReqInner,
            Section::Sof => var.kind == VarKind::Output || var.kind == VarKind::SofInner,
            Section::Out => var.kind == VarKind::Con,
        }
    }
}

impl Side {
    /// The section of its tables.
    pub fn section(self) -> Section
        ensures { result ≡ section_of self }
    {
        match self {
            Side::Req => Section::Req,
            Side::Sof => Section::Sof,
        }
    }

    /// Whether it is given the variable at a place of the set at each scan.
    pub fn is_given(self, place: usize, var: &Var) -> bool
        ensures { result ≡ given_kinds self place var.now }
    {
        match self {
            Side::Req => var.kind == VarKind::Mon,
            Side::Sof => var.kind == VarKind::Input,
        }
    }

    /// Whether a trace of it has the variable at a place of the set: those that are given and those that its tables define.
    pub fn has(self, place: usize, var: &Var) -> bool
        ensures { result ≡ side_kinds self place var.now }
    {
        self.is_given(place, var) || self.section().defines(place, var)
    }
}
