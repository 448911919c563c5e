ghost use Rattle.std.specs.Prelude.{◌≡◌, ◌+◌, ◌<◌, ◌^◌, ◌∷◌, ◌++◌, [], length, IfOk, OnOk, IsTrue};
ghost use Rattle.std.specs.List.{flat_map, list_all};
ghost use Rattle.ft_tree.specs.meaning.Limits.{is_item};
ghost use Rattle.ft_names.specs.meaning.Declared.{entries, fact_words, item_words, listing, names_in};
ghost use Rattle.ft_names.specs.meaning.Duplicates.{item_namings, namings, repeated, set_namings};
ghost use Rattle.ft_names.specs.meaning.First.{Answers, first_of};

use crate::fault::NameFault;
use crate::names::Names;
use crate::stop::Stop;
use ft_base::List;
use ft_tree::{FactItem, Item, Word};
use std::alloc::Global;

// Declares one name of an item.
fn declare(
    names: &mut Names,
    alloc: Global,
    word: &Word,
    number: u32,
) -> Result<(), Stop<NameFault>>
    requires { length names.old + 1 < 2 ^ 32 }
    ensures answers { Answers result (repeated (names_in names.old, word.now)) }
    ensures added { OnOk result (names.new ≡ names.old ++ entries number (word.now ∷ [])) }
{
    if names.add(alloc, word.text.as_slice(), number)? {
        Ok(())
    } else {
        let name = List::copy_of(alloc, word.text.as_slice())?;
        Err(Stop::Fault(NameFault::DuplicateName {
            name,
            place: word.place,
        }))
    }
}

// Declares names of an item in turn.
fn declare_all(
    names: &mut Names,
    alloc: Global,
    words: &[Word],
    number: u32,
) -> Result<(), Stop<NameFault>>
    requires { length names.old + length words.now < 2 ^ 32 }
    ensures answers { Answers result (first_of repeated (namings (names_in names.old) words.now)) }
    ensures added { OnOk result (names.new ≡ names.old ++ entries number words.now) }
{
    for word in words {
        declare(names, alloc, word, number)?;
    }
    Ok(())
}

// Looks for a name that stands twice among these.
fn differ(alloc: Global, words: &[Word]) -> Result<(), Stop<NameFault>>
    requires { length words.now < 2 ^ 32 }
    ensures { Answers result (first_of repeated (namings [] words.now)) }
{
    let mut names = Names::new(alloc);
    declare_all(&mut names, alloc, words, 0)
}

// Declares the invariant that a fact shows.
#[tactic(auto, using(crate::specs::laws::First::firsts))]
fn declare_fact(
    names: &mut Names,
    alloc: Global,
    fact: &FactItem,
    number: u32,
) -> Result<(), Stop<NameFault>>
    requires { length names.old + length (fact_words fact.now) < 2 ^ 32 }
    ensures answers { Answers result (first_of repeated (namings (names_in names.old) (fact_words fact.now))) }
    ensures added { OnOk result (names.new ≡ names.old ++ entries number (fact_words fact.now)) }
{
    match fact {
        FactItem::Shows { name, .. } => declare(names, alloc, name, number),
        FactItem::Goal { .. } => Ok(()),
    }
}

// Declares the invariants that facts show, in turn.
fn declare_facts(
    names: &mut Names,
    alloc: Global,
    facts: &[FactItem],
    number: u32,
) -> Result<(), Stop<NameFault>>
    requires { length names.old + length (flat_map fact_words facts.now) < 2 ^ 32 }
    ensures answers { Answers result (first_of repeated (namings (names_in names.old) (flat_map fact_words facts.now))) }
    ensures added { OnOk result (names.new ≡ names.old ++ entries number (flat_map fact_words facts.now)) }
{
    for fact in facts {
        declare_fact(names, alloc, fact, number)?;
    }
    Ok(())
}

// Declares a block's name, then the invariants that it shows. In between stand the names that it takes and uses.
#[tactic(auto, using(crate::proofs::DeclareLemmas::declared))]
fn declare_block(
    names: &mut Names,
    alloc: Global,
    name: &Word,
    takes: &[Word],
    uses: &[Word],
    facts: &[FactItem],
    number: u32,
) -> Result<(), Stop<NameFault>>
    requires room { length names.old + length (name.now ∷ flat_map fact_words facts.now) < 2 ^ 32 }
    requires takes { length takes.now < 2 ^ 32 }
    requires uses { length uses.now < 2 ^ 32 }
    ensures answers { Answers result (first_of repeated (namings (names_in names.old) (name.now ∷ []) ++ namings [] takes.now
        ++ namings [] uses.now ++ namings (names_in names.old ++ name.now.text ∷ []) (flat_map fact_words facts.now))) }
    ensures added { OnOk result (names.new ≡ names.old ++ entries number (name.now ∷ flat_map fact_words facts.now)) }
{
    declare(names, alloc, name, number)?;
    differ(alloc, takes)?;
    differ(alloc, uses)?;
    declare_facts(names, alloc, facts, number)
}

// Declares an enum type's name, then its members.
#[tactic(auto, using(crate::proofs::DeclareLemmas::declared))]
fn declare_enum(
    names: &mut Names,
    alloc: Global,
    name: &Word,
    members: &[Word],
    number: u32,
) -> Result<(), Stop<NameFault>>
    requires { length names.old + length (name.now ∷ members.now) < 2 ^ 32 }
    ensures answers { Answers result (first_of repeated (namings (names_in names.old) (name.now ∷ members.now))) }
    ensures added { OnOk result (names.new ≡ names.old ++ entries number (name.now ∷ members.now)) }
{
    declare(names, alloc, name, number)?;
    declare_all(names, alloc, members, number)
}

// Declares the names of an item.
#[tactic(auto, using(crate::specs::laws::First::firsts))]
fn declare_item(
    names: &mut Names,
    alloc: Global,
    item: &Item,
    number: u32,
) -> Result<(), Stop<NameFault>>
    requires lawful { IsTrue (is_item item.now) }
    requires room { length names.old + length (item_words item.now) < 2 ^ 32 }
    ensures answers { Answers result (first_of repeated (item_namings (names_in names.old) item.now)) }
    ensures added { OnOk result (names.new ≡ names.old ++ entries number (item_words item.now)) }
{
    match item {
        Item::Constant { name, .. } => declare(names, alloc, name, number),
        Item::RangeType { name, .. } => declare(names, alloc, name, number),
        Item::EnumType { name, members } => {
            declare_enum(names, alloc, name, members.as_slice(), number)
        }
        Item::Variable { name, .. } => declare(names, alloc, name, number),
        Item::Held { name, .. } => declare(names, alloc, name, number),
        Item::Hyst { name, .. } => declare(names, alloc, name, number),
        Item::Normal { .. } | Item::Inverted { .. } | Item::Vector { .. } | Item::Nat { .. } => {
            Ok(())
        }
        Item::Block {
            name,
            takes,
            uses,
            facts,
        } => declare_block(
            names,
            alloc,
            name,
            takes.as_slice(),
            uses.as_slice(),
            facts.as_slice(),
            number,
        ),
    }
}

/// The declared names of items in order, or the first name that stands a second time.
pub fn declare_items(alloc: Global, items: &[Item]) -> Result<Names, Stop<NameFault>>
    requires lawful { IsTrue (list_all is_item items.now) }
    requires few { length items.now < 2 ^ 32 }
    requires room { length (listing 0 items.now) < 2 ^ 32 }
    ensures answers { Answers result (first_of repeated (set_namings [] items.now)) }
    ensures names { IfOk result (λ names. names ≡ listing 0 items.now) }
{
    let mut names = Names::new(alloc);
    for (number, item) in items.iter().enumerate() {
        declare_item(&mut names, alloc, item, number as u32)?;
    }
    Ok(names)
}
