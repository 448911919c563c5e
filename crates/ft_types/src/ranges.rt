ghost use Rattle.std.specs.Prelude.{◌≡◌, ℤ, pos, IsTrue};
ghost use Rattle.std.specs.List.{list_all};
ghost use Rattle.ft_tree.specs.meaning.Limits.{is_bound, is_init, is_item, is_kind, is_number, is_option};
ghost use Rattle.ft_names.specs.meaning.Declared.{listing};
ghost use Rattle.std.specs.Option.{option_or};
ghost use Rattle.ft_names.specs.meaning.Cards.{kind_values};
ghost use Rattle.ft_names.specs.meaning.First.{Answers};
ghost use Rattle.ft_types.specs.meaning.Ranges.{init_fault, item_band, item_hold, item_range, kind_fault, lies, number_fault, option_fault};
ghost use Rattle.ft_types.specs.meaning.Ranges.{range_fault, set_range};

use crate::examine::Examine;
use crate::fault::{ItemFault, unless};
use ft_names::{Names, Stop, Values, bound_value, kind_values};
use ft_tree::{Bound, Item, Kind, Number};

fn lies(lo: i64, hi: i64, number: i64) -> bool
    ensures { result ≡ lies lo hi number }
{
    lo <= number && number <= hi
}

// A lower bound above the upper one.
fn range_fault(names: &Names, items: &[Item], lo: &Bound, hi: &Bound) -> Result<(), Stop<ItemFault>>
    requires named { names.now ≡ listing 0 items.now }
    requires lawful { IsTrue (list_all is_item items.now) }
    requires lo { IsTrue (is_bound lo.now) }
    requires hi { IsTrue (is_bound hi.now) }
    ensures { Answers result (range_fault items.now lo.now hi.now) }
{
    let right = bound_value(names, items, lo) <= bound_value(names, items, hi);
    unless(right, ItemFault::BadRange { place: lo.place })
}

fn kind_fault(names: &Names, items: &[Item], of: &Kind) -> Result<(), Stop<ItemFault>>
    requires named { names.now ≡ listing 0 items.now }
    requires lawful { IsTrue (list_all is_item items.now) }
    requires here { IsTrue (is_kind of.now) }
    ensures { Answers result (kind_fault items.now of.now) }
{
    match of {
        Kind::Range(lo, hi) => range_fault(names, items, lo, hi),
        Kind::Named(_) | Kind::Bool => Ok(()),
    }
}

// An `init` out of the range of its variable's type.
fn init_fault(
    names: &Names,
    items: &[Item],
    values: Values,
    init: &Bound,
) -> Result<(), Stop<ItemFault>>
    requires named { names.now ≡ listing 0 items.now }
    requires lawful { IsTrue (list_all is_item items.now) }
    requires here { IsTrue (is_init init.now) }
    ensures { Answers result (init_fault items.now values init.now) }
{
    match values {
        Values::Numbers { lo, hi } => unless(
            lies(lo, hi, bound_value(names, items, init)),
            ItemFault::BadRange { place: init.place },
        ),
        Values::Truths | Values::Members { .. } | Values::Untyped => Ok(()),
    }
}

// The ranges of a variable's type and of its `init`.
fn variable_fault(
    names: &Names,
    items: &[Item],
    of: &Kind,
    init: &Bound,
) -> Result<(), Stop<ItemFault>>
    requires named { names.now ≡ listing 0 items.now }
    requires lawful { IsTrue (list_all is_item items.now) }
    requires kind { IsTrue (is_kind of.now) }
    requires init { IsTrue (is_init init.now) }
    ensures { Answers result (option_or (kind_fault items.now of.now) (init_fault items.now (kind_values items.now of.now) init.now)) }
{
    kind_fault(names, items, of)?;
    init_fault(names, items, kind_values(names, items, of), init)
}

fn number_fault(lo: i64, hi: i64, number: Number) -> Result<(), Stop<ItemFault>>
    requires { IsTrue (is_number number.value) }
    ensures { Answers result (number_fault lo hi number) }
{
    unless(
        lies(lo, hi, number.value as i64),
        ItemFault::BadRange {
            place: number.place,
        },
    )
}

fn option_fault(lo: i64, hi: i64, number: Option<Number>) -> Result<(), Stop<ItemFault>>
    requires { IsTrue (is_option number) }
    ensures { Answers result (option_fault lo hi number) }
{
    match number {
        Some(number) => number_fault(lo, hi, number),
        None => Ok(()),
    }
}

/// The period, the splits or the depth of a set out of its range.
pub fn set_range(
    period: Number,
    splits: Option<Number>,
    depth: Option<Number>,
) -> Result<(), Stop<ItemFault>>
    requires period { IsTrue (is_number period.value) }
    requires splits { IsTrue (is_option splits) }
    requires depth { IsTrue (is_option depth) }
    ensures { Answers result (set_range period splits depth) }
{
    number_fault(1, 10_000, period)?;
    option_fault(0, 200_000, splits)?;
    option_fault(1, 8, depth)
}

/// The test for bounds and `init` values out of their ranges.
#[derive(Drop)]
pub struct Ranges<'t> {
    pub names: &'t Names,
    pub items: &'t [Item],
}

impl<'t> Examine for Ranges<'t> {
    ghost use Rattle.std.specs.Prelude.{◌≡◌, IsTrue};
    ghost use Rattle.std.specs.List.{list_all};
    ghost use Rattle.ft_tree.specs.meaning.Limits.{is_item};
    ghost use Rattle.ft_names.specs.meaning.Declared.{listing};
    ghost use Rattle.ft_types.specs.meaning.Ranges.{item_range};

    ghost test = { λ s. item_range s.items.now };

    ghost ready = { λ s. (s.names.now ≡ listing 0 s.items.now) × IsTrue (list_all is_item s.items.now) };

    fn item(&self, item: &Item) -> Result<(), Stop<ItemFault>> {
        match item {
            Item::RangeType { lo, hi, .. } => range_fault(self.names, self.items, lo, hi),
            Item::Variable { of, init, .. } => { variable_fault(self.names, self.items, of, init) }
            _ => Ok(()),
        }
    }
}

/// The test for holds out of their range.
#[derive(Drop)]
pub struct Holds<'t> {
    pub names: &'t Names,
    pub items: &'t [Item],
}

impl<'t> Examine for Holds<'t> {
    ghost use Rattle.std.specs.Prelude.{◌≡◌, IsTrue};
    ghost use Rattle.std.specs.List.{list_all};
    ghost use Rattle.ft_tree.specs.meaning.Limits.{is_item};
    ghost use Rattle.ft_names.specs.meaning.Declared.{listing};
    ghost use Rattle.ft_types.specs.meaning.Ranges.{item_hold};

    ghost test = { λ s. item_hold s.items.now };

    ghost ready = { λ s. (s.names.now ≡ listing 0 s.items.now) × IsTrue (list_all is_item s.items.now) };

    fn item(&self, item: &Item) -> Result<(), Stop<ItemFault>> {
        match item {
            Item::Held { hold, .. } => unless(
                lies(0, 1_000_000, bound_value(self.names, self.items, hold)),
                ItemFault::BadHold { place: hold.place },
            ),
            _ => Ok(()),
        }
    }
}

/// The test for bands that are none.
#[derive(Drop)]
pub struct Bands<'t> {
    pub names: &'t Names,
    pub items: &'t [Item],
}

impl<'t> Examine for Bands<'t> {
    ghost use Rattle.std.specs.Prelude.{◌≡◌, IsTrue};
    ghost use Rattle.std.specs.List.{list_all};
    ghost use Rattle.ft_tree.specs.meaning.Limits.{is_item};
    ghost use Rattle.ft_names.specs.meaning.Declared.{listing};
    ghost use Rattle.ft_types.specs.meaning.Ranges.{item_band};

    ghost test = { λ s. item_band s.items.now };

    ghost ready = { λ s. (s.names.now ≡ listing 0 s.items.now) × IsTrue (list_all is_item s.items.now) };

    fn item(&self, item: &Item) -> Result<(), Stop<ItemFault>> {
        match item {
            Item::Hyst { lo, hi, .. } => {
                let right = bound_value(self.names, self.items, lo)
                    < bound_value(self.names, self.items, hi);
                unless(right, ItemFault::BadBand { place: lo.place })
            }
            _ => Ok(()),
        }
    }
}
