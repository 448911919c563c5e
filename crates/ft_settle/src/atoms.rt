//! The atoms of a formula while it is settled.
ghost use Rattle.std.specs.Prelude.{◌≡◌, [], IfOk, OnOk};
ghost use Rattle.std.specs.Cmp.{partial_equiv_from_equiv};
ghost use Rattle.ft_settle.specs.meaning.Settled.{place_of, same_form, with_form};
ghost use Rattle.ft_settle.specs.laws.Hashes.{form_alike, form_equiv, form_writes};

use crate::canonical::same_form;
use ft_base::{List, NoMemory};
use ft_linear::Lin;
use indexmap::IndexSet;
use std::alloc::Global;
use std::hash::{Hash, Hasher};
use std::marker::Model;

/// A form as the key of a hash table.
#[derive(Drop)]
struct Key {
    form: Lin,
}

impl Model for Key {
    ghost use Rattle.ft_linear.specs.meaning.Form.{LinView};

    ghost Value = { LinView };

    ghost view = { λ key. key.form };
}

impl PartialEq for Key {
    ghost eq = { same_form };

    ghost laws = { partial_equiv_from_equiv form_equiv };

    fn eq(&self, other: &Key) -> bool {
        same_form(&self.form, &other.form)
    }
}

impl Eq for Key {
    ghost laws = { form_equiv };
}

impl Hash for Key {
    ghost hash_input = { form_writes };

    ghost respects_eq = { form_alike.fed };

    fn hash<H: Hasher>(&self, state: &mut H) {
        state.write_i64(self.form.constant());
        self.form.factors().hash(state);
    }
}

/// Different forms in the order of their places, which are counted from 0. A form is found by its hash.
#[derive(Drop)]
pub struct Atoms {
    keys: IndexSet<Key>,
}

impl Model for Atoms {
    ghost use Rattle.std.specs.Prelude.{List};
    ghost use Rattle.ft_linear.specs.meaning.Form.{LinView};

    ghost Value = { List LinView };

    ghost view = { λ atoms. atoms.keys.keys };
}

impl Atoms {
    /// No form. It takes no memory.
    pub fn new(alloc: Global) -> Atoms
        ensures { result ≡ [] }
    {
        Atoms {
            keys: IndexSet::new(alloc),
        }
    }

    /// Adds a form at the end, unless it is there already.
    pub fn insert(&mut self, form: Lin) -> Result<(), NoMemory>
        ensures { OnOk result (self.new ≡ with_form self.old form) }
    {
        self.keys.insert(Key { form })?;
        Ok(())
    }

    /// The place of a form among these; their number where it is none of them.
    pub fn place_of(&self, form: Lin) -> usize
        ensures { result ≡ place_of self.now form }
    {
        let key = Key { form };
        match self.keys.get_index_of(&key) {
            Some(place) => place,
            None => self.keys.len(),
        }
    }

    /// The forms by place.
    pub fn into_list(self, alloc: Global) -> Result<List<Lin>, NoMemory>
        ensures { IfOk result (λ forms. forms ≡ self) }
    {
        let Atoms { keys } = self;
        let mut forms = List::new(alloc);
        for key in keys {
            forms.push(key.form)?;
        }
        Ok(forms)
    }
}
