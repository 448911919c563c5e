ghost use Rattle.std.specs.Option.{option_or};
ghost use Rattle.ft_tree.specs.declared.item.SectionWord.TheVariants.{Out, Req};
ghost use Rattle.ft_names.specs.meaning.First.{Answers};
ghost use Rattle.ft_types.specs.gathering.Gathered.{HasTitles};
ghost use Rattle.ft_types.specs.meaning.Targets.{item_lack, lack, section_of, targets};

use crate::examine::Examine;
use crate::fault::ItemFault;
use crate::gathering::section_of;
use crate::shapes::title;
use ft_base::List;
use ft_names::{Names, Stop};
use ft_tree::{Item, SectionWord, VarWord, Word};
use std::alloc::Global;

/// A fault that was found before, where there is one.
pub fn found(fault: Option<ItemFault>) -> Result<(), Stop<ItemFault>>
    ensures { Answers result fault }
{
    match fault {
        Some(fault) => Err(Stop::Fault(fault)),
        None => Ok(()),
    }
}

/// The test for variables that lack a table.
#[derive(Drop)]
pub struct Lacks<'t> {
    pub alloc: Global,
    pub titles: &'t Names,
    pub items: &'t [Item],
}

impl<'t> Lacks<'t> {
    // The table of a variable in a section.
    fn lack(&self, section: SectionWord, name: &Word) -> Result<(), Stop<ItemFault>>
        requires { HasTitles self.now.titles.now (targets self.now.items.now) }
        ensures { Answers result (lack (targets self.now.items.now) section name.now) }
    {
        let title = title(self.alloc, section, name.text.as_slice())?;
        if self.titles.has(title.as_slice()) {
            Ok(())
        } else {
            let name = List::copy_of(self.alloc, name.text.as_slice())?;
            Err(Stop::Fault(ItemFault::NoTable {
                section: section_of(section),
                name,
            }))
        }
    }

    // The two tables of a controlled variable.
    fn lack_controlled(&self, name: &Word) -> Result<(), Stop<ItemFault>>
        requires { HasTitles self.now.titles.now (targets self.now.items.now) }
        ensures { Answers result (option_or (lack (targets self.now.items.now) Req name.now)
            (lack (targets self.now.items.now) Out name.now)) }
    {
        self.lack(SectionWord::Req, name)?;
        self.lack(SectionWord::Out, name)
    }
}

impl<'t> Examine for Lacks<'t> {
    ghost use Rattle.ft_types.specs.gathering.Gathered.{HasTitles};
    ghost use Rattle.ft_types.specs.meaning.Targets.{item_lack, targets};

    ghost test = { λ s. item_lack (targets s.items.now) };

    ghost ready = { λ s. HasTitles s.titles.now (targets s.items.now) };

    fn item(&self, item: &Item) -> Result<(), Stop<ItemFault>> {
        match item {
            Item::Variable { kind, name, .. } => match kind {
                VarWord::Mon => Ok(()),
                VarWord::Con => self.lack_controlled(name),
                VarWord::Input => self.lack(SectionWord::In, name),
                VarWord::Output => self.lack(SectionWord::Sof, name),
                VarWord::ReqVar => self.lack(SectionWord::Req, name),
                VarWord::SofVar => self.lack(SectionWord::Sof, name),
            },
            _ => Ok(()),
        }
    }
}
