// Names, each with the number of the item that declares it.
ghost use Rattle.std.specs.Prelude.{◌≡◌, ◌+◌, ◌<◌, ◌∷◌, ◌++◌, [], Some, IfOk, OnErr, not, length, slice_get, option_map, MatchBool, ◌^◌};
ghost use Rattle.ft_names.specs.meaning.Cards.{under};
ghost use Rattle.ft_names.specs.meaning.Declared.{is_among, names_in, place_of};

use ft_base::NoMemory;
use indexmap::IndexMap;
use std::alloc::Global;
use std::marker::Model;

/// The declared names of a set in the order of their declaration, each with the number of the item of the tree that
/// declares it, from 0. A name is found by its hash.
#[derive(Drop)]
pub struct Names {
    items: IndexMap<Vec<u8>, u32>,
}

impl Model for Names {
    ghost use Rattle.ft_names.specs.meaning.Declared.{Listing};

    ghost Value = { Listing };

    ghost use Rattle.ft_names.specs.naming.Names.{IsSmall, listed};

    ghost view = { listed };

    ghost invariant = { IsSmall };
}

impl Names {
    /// No name. It takes no memory.
    pub fn new(alloc: Global) -> Names
        ensures { result ≡ [] }
    {
        Names {
            items: IndexMap::new(alloc),
        }
    }

    /// The place of a name in the list, from 0. None exactly where it isn't there.
    pub fn find(&self, name: &[u8]) -> Option<u32>
        ensures { result ≡ place_of (names_in self.now) name.now }
    {
        match self.items.get_index_of(name) {
            Some(place) => Some(place as u32),
            None => None,
        }
    }

    /// Whether a name is there.
    pub fn has(&self, name: &[u8]) -> bool
        ensures { result ≡ is_among (names_in self.now) name.now }
    {
        self.find(name).is_some()
    }

    /// The number of the item that declares the name at a place.
    pub fn item(&self, place: u32) -> u32
        requires { place < length self.now }
        ensures { option_map (λ entry. entry.1) (slice_get self.now place) ≡ Some result }
    {
        self.items[place as usize]
    }

    /// The number of the item that declares a name. None exactly where nothing does.
    pub fn number_of(&self, name: &[u8]) -> Option<u32>
        ensures { result ≡ under self.now name.now }
    {
        match self.find(name) {
            Some(place) => Some(self.item(place)),
            None => None,
        }
    }

    /// Adds a name at the end, unless it is there already, and answers whether it was new. Where memory is refused the
    /// names stay as they were.
    pub fn add(&mut self, alloc: Global, name: &[u8], item: u32) -> Result<bool, NoMemory>
        requires { length self.old + 1 < 2 ^ 32 }
        ensures added { IfOk result (λ new. MatchBool new (self.new ≡ self.old ++ (name.now, item) ∷ []) (self.new ≡ self.old)) }
        ensures new { IfOk result (λ new. is_among (names_in self.old) name.now ≡ not new) }
        ensures refused { OnErr result (self.new ≡ self.old) }
    {
        if self.has(name) {
            return Ok(false);
        }
        let key = name.to_vec(alloc)?;
        self.items.insert(key, item)?;
        Ok(true)
    }
}
