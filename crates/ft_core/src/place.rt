//! Where the value of a variable stands in a scan.
ghost use Rattle.std.specs.Prelude.{◌≡◌, IsTrue};
ghost use Rattle.ft_core.specs.meaning.Kinds.{given_kinds, image_kinds, is_of, makes_image, of_kind, place_of};

use crate::tables::{Section, Side, Tables, VarKind};

/// The place of a variable in a scan of the variables of its kind.
pub fn kind_place(tables: &Tables, kind: VarKind, variable: usize) -> usize
    requires { IsTrue (is_of tables.now.vars (of_kind kind) variable) }
    ensures { result ≡ place_of (of_kind kind) tables.now.vars variable }
{
    tables.vars.get(variable).place as usize
}

/// The place of a variable in a scan of what a side is given.
pub fn given_place(tables: &Tables, side: Side, variable: usize) -> usize
    requires { IsTrue (is_of tables.now.vars (given_kinds side) variable) }
    ensures { result ≡ place_of (given_kinds side) tables.now.vars variable }
{
    match side {
        Side::Req => kind_place(tables, VarKind::Mon, variable),
        Side::Sof => kind_place(tables, VarKind::Input, variable),
    }
}

/// The place of a variable in a scan of an image.
pub fn image_place(tables: &Tables, section: Section, variable: usize) -> usize
    requires section { IsTrue (makes_image section) }
    requires variable { IsTrue (is_of tables.now.vars (image_kinds section) variable) }
    ensures { result ≡ place_of (image_kinds section) tables.now.vars variable }
{
    match section {
        Section::In => given_place(tables, Side::Sof, variable),
        Section::Out => kind_place(tables, VarKind::Con, variable),
        Section::Req | Section::Sof => unreachable!(),
    }
}
