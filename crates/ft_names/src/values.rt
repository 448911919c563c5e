ghost use Rattle.std.specs.Prelude.{◌≡◌, ◌≤◌, ◌<◌, ◌^◌, IsTrue, Some, slice_get, option_and_then, unsigned_abs};
ghost use Rattle.std.specs.List.{list_all};
ghost use Rattle.ft_tree.specs.meaning.Limits.{is_bound, is_item, is_kind};
ghost use Rattle.ft_names.specs.meaning.Declared.{listing};
ghost use Rattle.ft_names.specs.meaning.Cards.{bound_value, constant_value, declared_values, enum_values, is_small, kind_values, number_of};
ghost use Rattle.ft_names.specs.meaning.Cards.{plain_value, range_values, signed, values_at};

use crate::card::Values;
use crate::names::Names;
use ft_tree::{Bound, Item, Kind, Plain};

// A number with the minus before it.
fn signed(minus: bool, value: i64) -> i64
    requires { unsigned_abs value ≤ 1000000000 }
    ensures value { result ≡ signed minus value }
    ensures small { unsigned_abs result ≤ 1000000000 }
{
    if minus { -value } else { value }
}

// The value of a constant, and 0 for any other item.
pub fn constant_value(item: &Item) -> i64
    requires { IsTrue (is_item item.now) }
    ensures value { result ≡ constant_value (Some item.now) }
    ensures small { unsigned_abs result ≤ 1000000000 }
{
    match item {
        Item::Constant { minus, value, .. } => signed(*minus, value.value as i64),
        _ => 0,
    }
}

// The value of the constant of this name.
fn named_value(names: &Names, items: &[Item], name: &[u8]) -> i64
    requires named { names.now ≡ listing 0 items.now }
    requires lawful { IsTrue (list_all is_item items.now) }
    ensures value { result ≡ constant_value (option_and_then (slice_get items.now) (number_of items.now name.now)) }
    ensures small { unsigned_abs result ≤ 1000000000 }
{
    match names.number_of(name) {
        Some(number) => match items.get(number as usize) {
            Some(item) => constant_value(item),
            None => 0,
        },
        None => 0,
    }
}

fn plain_value(names: &Names, items: &[Item], value: &Plain) -> i64
    requires named { names.now ≡ listing 0 items.now }
    requires lawful { IsTrue (list_all is_item items.now) }
    requires small { IsTrue (is_small value.now) }
    ensures value { result ≡ plain_value items.now value.now }
    ensures small { unsigned_abs result ≤ 1000000000 }
{
    match value {
        Plain::Number(value) => *value as i64,
        Plain::Name(name) => named_value(names, items, name.as_slice()),
        Plain::Truth(_) => 0,
    }
}

/// The number of a bound, a hold or an `init`. A name that is that of no constant counts as 0.
pub fn bound_value(names: &Names, items: &[Item], bound: &Bound) -> i64
    requires named { names.now ≡ listing 0 items.now }
    requires lawful { IsTrue (list_all is_item items.now) }
    requires small { IsTrue (is_small bound.now.value) }
    ensures { result ≡ bound_value items.now bound.now }
{
    signed(bound.minus, plain_value(names, items, &bound.value))
}

// The numbers between two bounds.
pub fn range_values(names: &Names, items: &[Item], lo: &Bound, hi: &Bound) -> Values
    requires named { names.now ≡ listing 0 items.now }
    requires lawful { IsTrue (list_all is_item items.now) }
    requires lo { IsTrue (is_bound lo.now) }
    requires hi { IsTrue (is_bound hi.now) }
    ensures { result ≡ range_values items.now lo.now hi.now }
{
    Values::Numbers {
        lo: bound_value(names, items, lo),
        hi: bound_value(names, items, hi),
    }
}

// The values of an enum type, where the name is its own and not that of a member.
fn enum_values(own: bool, number: u32, count: usize) -> Values
    requires { count < 2 ^ 32 }
    ensures { result ≡ enum_values own number count }
{
    if own {
        Values::Members {
            item: number,
            count: count as u32,
        }
    } else {
        Values::Untyped
    }
}

// The values of the type that an item declares under this name.
fn declared_values(names: &Names, items: &[Item], name: &[u8], number: u32, item: &Item) -> Values
    requires named { names.now ≡ listing 0 items.now }
    requires lawful { IsTrue (list_all is_item items.now) }
    requires here { IsTrue (is_item item.now) }
    ensures { result ≡ declared_values items.now name.now number (Some item.now) }
{
    match item {
        Item::RangeType { lo, hi, .. } => range_values(names, items, lo, hi),
        Item::EnumType { name: own, members } => {
            enum_values(name == own.text.as_slice(), number, members.len())
        }
        _ => Values::Untyped,
    }
}

// The values of the type of this name.
fn values_at(names: &Names, items: &[Item], name: &[u8]) -> Values
    requires named { names.now ≡ listing 0 items.now }
    requires lawful { IsTrue (list_all is_item items.now) }
    ensures { result ≡ values_at items.now name.now (number_of items.now name.now) }
{
    match names.number_of(name) {
        Some(number) => match items.get(number as usize) {
            Some(item) => declared_values(names, items, name, number, item),
            None => Values::Untyped,
        },
        None => Values::Untyped,
    }
}

/// The values of a variable of this type.
pub fn kind_values(names: &Names, items: &[Item], of: &Kind) -> Values
    requires named { names.now ≡ listing 0 items.now }
    requires lawful { IsTrue (list_all is_item items.now) }
    requires here { IsTrue (is_kind of.now) }
    ensures { result ≡ kind_values items.now of.now }
{
    match of {
        Kind::Range(lo, hi) => range_values(names, items, lo, hi),
        Kind::Named(word) => values_at(names, items, word.text.as_slice()),
        Kind::Bool => Values::Truths,
    }
}
