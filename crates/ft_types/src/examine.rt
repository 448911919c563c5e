ghost use Rattle.std.specs.Prelude.{IsTrue, Option};
ghost use Rattle.std.specs.List.{list_all};
ghost use Rattle.ft_tree.specs.declared.item.Item.{Item};
ghost use Rattle.ft_tree.specs.meaning.Limits.{is_item};
ghost use Rattle.ft_names.specs.meaning.First.{Answers, first_of};
ghost use Rattle.ft_types.specs.declared.fault.ItemFault.{ItemFault};

use crate::fault::ItemFault;
use ft_names::Stop;
use ft_tree::Item;

/// A test of one item as a whole.
pub trait Examine {
    /// The first fault of an item.
    ghost test: { Self → Item → Option ItemFault };

    /// What the test goes by is what it has to be.
    ghost ready: { Self → Type 0 };

    /// One item.
    fn item(&self, item: &Item) -> Result<(), Stop<ItemFault>>
        requires ready { ready self.now }
        requires lawful { IsTrue (is_item item.now) }
        ensures { Answers result (test self.now item.now) };
}

/// Looks for the first fault of items, in the order of the text.
pub fn examine_items<E: Examine>(examiner: &E, items: &[Item]) -> Result<(), Stop<ItemFault>>
    requires ready { E.ready examiner.now }
    requires lawful { IsTrue (list_all is_item items.now) }
    ensures { Answers result (first_of (E.test examiner.now) items.now) }
{
    for item in items {
        examiner.item(item)?;
    }
    Ok(())
}
