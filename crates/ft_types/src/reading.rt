ghost use Rattle.std.specs.Prelude.{◌≡◌};
ghost use Rattle.ft_types.specs.meaning.Sides.{defines, has_age, has_prev, may_define, may_read, may_take, may_use, reads, remembers};

use ft_names::{Card, Role, Site};
use ft_tree::{SectionWord, VarWord};

/// Whether `prev` may stand there.
pub fn has_prev(site: Site) -> bool
    ensures { result ≡ has_prev site }
{
    match site {
        Site::Step | Site::Req | Site::Sof => true,
        Site::First | Site::Always | Site::In | Site::Out | Site::Shows => false,
    }
}

/// Whether `age` may stand there.
pub fn has_age(site: Site) -> bool
    ensures { result ≡ has_age site }
{
    match site {
        Site::Shows => true,
        _ => false,
    }
}

// Whether a variable of this kind may be read there.
fn reads(site: Site, kind: VarWord) -> bool
    ensures { result ≡ reads site kind }
{
    match site {
        Site::First | Site::Always | Site::Step | Site::In => kind == VarWord::Mon,
        Site::Req => kind == VarWord::Mon || kind == VarWord::Con || kind == VarWord::ReqVar,
        Site::Sof => {
            kind == VarWord::Input || kind == VarWord::Output || kind == VarWord::SofVar
        }
        Site::Out => kind == VarWord::Output,
        Site::Shows => true,
    }
}

// Whether a memory of this side may be read there.
fn remembers(site: Site, side: SectionWord) -> bool
    ensures { result ≡ remembers site side }
{
    match site {
        Site::Req => side == SectionWord::Req,
        Site::Sof => side == SectionWord::Sof,
        Site::Shows => true,
        Site::First | Site::Always | Site::Step | Site::In | Site::Out => false,
    }
}

/// Whether a name may be read there, as far as it is that of a variable or memory.
pub fn may_read(site: Site, card: Option<Card>) -> bool
    ensures { result ≡ may_read site card }
{
    match card {
        Some(Card::Variable { kind, .. }) => reads(site, kind),
        Some(Card::Memory { side, .. }) => remembers(site, side),
        _ => true,
    }
}

// Whether the tables of a section define variables of this kind.
fn defines(section: SectionWord, kind: VarWord) -> bool
    ensures { result ≡ defines section kind }
{
    match section {
        SectionWord::In => kind == VarWord::Input,
        SectionWord::Req => kind == VarWord::Con || kind == VarWord::ReqVar,
        SectionWord::Sof => kind == VarWord::Output || kind == VarWord::SofVar,
        SectionWord::Out => kind == VarWord::Con,
    }
}

fn may_define(section: SectionWord, card: Option<Card>) -> bool
    ensures { result ≡ may_define section card }
{
    match card {
        Some(Card::Variable { kind, .. }) => defines(section, kind),
        _ => true,
    }
}

fn may_take(card: Option<Card>) -> bool
    ensures { result ≡ may_take card }
{
    match card {
        Some(Card::Variable { kind, .. }) => !(kind == VarWord::Mon || kind == VarWord::Input),
        _ => true,
    }
}

/// Whether a name may be used so, as far as its side goes.
pub fn may_use(role: Role, card: Option<Card>) -> bool
    ensures { result ≡ may_use role card }
{
    match role {
        Role::Target(section) => may_define(section, card),
        Role::Taken => may_take(card),
        Role::TypeName | Role::Used | Role::Goal => true,
    }
}
