ghost use Rattle.std.specs.Prelude.{◌≡◌, ◌++◌, ◌<◌, ◌^◌, length, IsTrue, IfOk, OnOk};
ghost use Rattle.std.specs.List.{list_all};
ghost use Rattle.ft_tree.specs.meaning.Limits.{is_init, is_item};
ghost use Rattle.ft_names.specs.meaning.Cards.{kind_values, under};
ghost use Rattle.ft_names.specs.meaning.Declared.{listing};
ghost use Rattle.ft_build.specs.meaning.Variables.{build_var, init_value, named_position, no_places, position_of, truth_position, var_kind};
ghost use Rattle.ft_build.specs.meaning.Variables.{var_of, vars_from};

use crate::places::Places;
use crate::ranges::values_range;
use crate::terms::truth_value;
use crate::texts::value_members;
use ft_base::{List, NoMemory};
use ft_core::{Var, VarKind};
use ft_names::{Card, Cards, Names, Values, bound_value, kind_values};
use ft_tree::{Bound, Item, Plain, VarWord, Word};
use std::alloc::Global;

fn var_kind(word: VarWord) -> VarKind
    ensures { result ≡ var_kind word }
{
    match word {
        VarWord::Mon => VarKind::Mon,
        VarWord::Con => VarKind::Con,
        VarWord::Input => VarKind::Input,
        VarWord::Output => VarKind::Output,
        VarWord::ReqVar => VarKind::ReqInner,
        VarWord::SofVar => VarKind::SofInner,
    }
}

fn position_of(card: Option<Card>) -> u32
    ensures { result ≡ position_of card }
{
    match card {
        Some(Card::Member { position, .. }) => position,
        _ => 0,
    }
}

// The position of the member that an `init` names.
fn named_position(cards: &Cards, value: &Plain) -> u32
    ensures { result ≡ named_position (under cards.now) value.now }
{
    match value {
        Plain::Name(name) => position_of(cards.find(name.as_slice())),
        Plain::Number(_) | Plain::Truth(_) => 0,
    }
}

fn truth_position(value: &Plain) -> i64
    ensures { result ≡ truth_position value.now }
{
    match value {
        Plain::Truth(value) => truth_value(*value),
        Plain::Name(_) | Plain::Number(_) => 0,
    }
}

fn init_value(names: &Names, cards: &Cards, items: &[Item], values: Values, init: &Bound) -> i64
    requires named { names.now ≡ listing 0 items.now }
    requires lawful { IsTrue (list_all is_item items.now) }
    requires here { IsTrue (is_init init.now) }
    ensures { result ≡ init_value items.now (under cards.now) values init.now }
{
    match values {
        Values::Numbers { .. } => bound_value(names, items, init),
        Values::Truths => truth_position(&init.value),
        Values::Members { .. } => i64::from(named_position(cards, &init.value)),
        Values::Untyped => 0,
    }
}

// The variable that is declared so.
fn declared_var(
    alloc: Global,
    items: &[Item],
    name: &Word,
    kind: VarWord,
    place: u32,
    values: Values,
    init: i64,
) -> Result<Var, NoMemory>
    ensures { IfOk result (λ var. var ≡ var_of items.now name.now.text kind place values init) }
{
    Ok(Var {
        name: List::copy_of(alloc, name.text.as_slice())?,
        kind: var_kind(kind),
        place,
        range: values_range(values),
        members: value_members(alloc, items, values)?,
        init,
    })
}

// Adds the variable that an item declares, where it does, after so many.
fn add_var(
    vars: &mut List<Var>,
    alloc: Global,
    names: &Names,
    cards: &Cards,
    items: &[Item],
    item: &Item,
    places: Places,
) -> Result<(), NoMemory>
    requires named { names.now ≡ listing 0 items.now }
    requires lawful { IsTrue (list_all is_item items.now) }
    requires here { IsTrue (is_item item.now) }
    ensures { OnOk result (vars.new ≡ vars.old ++ build_var items.now (under cards.now) places item.now) }
{
    match item {
        Item::Variable {
            kind,
            name,
            of,
            init,
        } => {
            let values = kind_values(names, items, of);
            let init = init_value(names, cards, items, values, init);
            let place = places.among(*kind);
            let var = declared_var(alloc, items, name, *kind, place, values, init)?;
            vars.push(var)
        }
        _ => Ok(()),
    }
}

/// The variables that items declare, in order of declaration.
pub fn build_vars(
    alloc: Global,
    names: &Names,
    cards: &Cards,
    items: &[Item],
) -> Result<List<Var>, NoMemory>
    requires named { names.now ≡ listing 0 items.now }
    requires lawful { IsTrue (list_all is_item items.now) }
    requires few { length items.now < 2 ^ 32 }
    ensures { IfOk result (λ vars. vars ≡ vars_from items.now (under cards.now) no_places items.now) }
{
    let mut vars = List::new(alloc);
    let mut places = Places::none();
    for item in items {
        add_var(&mut vars, alloc, names, cards, items, item, places)?;
        places = places.after(item);
    }
    Ok(vars)
}
