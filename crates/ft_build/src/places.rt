ghost use Rattle.std.specs.Prelude.{◌≡◌, ◌+◌, ◌≤◌, ◌<◌, ◌^◌};
ghost use Rattle.ft_build.specs.meaning.Variables.{counted, no_places, one_more, place_among};
ghost use Rattle.ft_build.specs.counting.Totals.{total};

use ft_tree::{Item, VarWord};

/// How many variables of each kind stand before an item.
#[derive(Clone, Copy, Drop)]
pub struct Places {
    pub monitored: u32,
    pub controlled: u32,
    pub inputs: u32,
    pub outputs: u32,
    pub requirement: u32,
    pub design: u32,
}

impl Places {
    /// Before the first item.
    pub fn none() -> Places
        ensures places { result ≡ no_places }
        ensures total { total result ≡ 0 }
    {
        Places {
            monitored: 0,
            controlled: 0,
            inputs: 0,
            outputs: 0,
            requirement: 0,
            design: 0,
        }
    }

    /// How many of this kind.
    pub fn among(self, kind: VarWord) -> u32
        ensures { result ≡ place_among kind self }
    {
        match kind {
            VarWord::Mon => self.monitored,
            VarWord::Con => self.controlled,
            VarWord::Input => self.inputs,
            VarWord::Output => self.outputs,
            VarWord::ReqVar => self.requirement,
            VarWord::SofVar => self.design,
        }
    }

    // With one more of this kind.
    fn one_more(self, kind: VarWord) -> Places
        requires { total self + 1 < 2 ^ 32 }
        ensures places { result ≡ one_more kind self }
        ensures total { total result ≡ total self + 1 }
    {
        let mut places = self;
        match kind {
            VarWord::Mon => places.monitored += 1,
            VarWord::Con => places.controlled += 1,
            VarWord::Input => places.inputs += 1,
            VarWord::Output => places.outputs += 1,
            VarWord::ReqVar => places.requirement += 1,
            VarWord::SofVar => places.design += 1,
        }
        places
    }

    /// How many stand before the next item.
    pub fn after(self, item: &Item) -> Places
        requires { total self + 1 < 2 ^ 32 }
        ensures places { result ≡ counted self item.now }
        ensures total { total result ≤ total self + 1 }
    {
        match item {
            Item::Variable { kind, .. } => self.one_more(*kind),
            _ => self,
        }
    }
}
