ghost use Rattle.std.specs.Prelude.{◌≡◌};
ghost use Rattle.ft_names.specs.meaning.Spots.{moment_site, section_site};

use ft_tree::{NatWord, SectionWord};

/// Where an expression stands.
#[derive(Clone, Copy, Drop)]
pub enum Site {
    /// In a clause on scan 0.
    First,
    /// In a clause on each scan.
    Always,
    /// In a clause on each scan after 0.
    Step,
    /// In an IN table.
    In,
    /// In a table or memory of the requirement.
    Req,
    /// In a table or memory of the design.
    Sof,
    /// In an OUT table.
    Out,
    /// In an invariant.
    Shows,
}

impl Site {
    /// Where the expressions of a table or memory stand.
    pub fn of_section(section: SectionWord) -> Site
        ensures { result ≡ section_site section }
    {
        match section {
            SectionWord::In => Site::In,
            SectionWord::Req => Site::Req,
            SectionWord::Sof => Site::Sof,
            SectionWord::Out => Site::Out,
        }
    }

    /// Where the expression of a clause on the environment stands.
    pub fn of_moment(moment: NatWord) -> Site
        ensures { result ≡ moment_site moment }
    {
        match moment {
            NatWord::First => Site::First,
            NatWord::Always => Site::Always,
            NatWord::Step => Site::Step,
        }
    }
}
