ghost use Rattle.std.specs.Prelude.{ℕ, ◌≡◌, [], IfOk};
ghost use Rattle.ft_mean.specs.meaning.Allowed.{Allowed};
ghost use Rattle.ft_mean.specs.meaning.Proper.{AllProper};
ghost use Rattle.ft_mean.specs.meaning.Refines.{FirstDiffers};
ghost use Rattle.ft_replay.specs.meaning.Replayed.{IfAgree, IfDiffer};

use crate::law::laws;
use crate::replayer::Replayer;
use ft_base::NoMemory;
use ft_core::{History, Tables};
use std::alloc::Global;

/// What became of an allowed list.
#[derive(Clone, Copy, Drop)]
pub enum Replayed {
    /// The design's controlled values are those of the requirement at each scan.
    Agree,
    /// They differ at this scan, from 0, and at none before it.
    Differ { scan: usize },
}

/// Replays the scans of a history.
fn replay_all(replayer: &mut Replayer<'_>, history: &History)
    requires list { replayer.old.list ≡ [] }
    requires allowed { Allowed replayer.old.set history.now }
    ensures set { replayer.new.set ≡ replayer.old.set }
    ensures list { replayer.new.list ≡ history.now }
{
    laws();
    for scan in 0..history.scans() {
        replayer.scan(history.row(scan));
    }
}

/// Runs both sides of a set over an allowed list, and tells the first scan at which they differ.
pub fn replay(alloc: Global, tables: &Tables, history: &History) -> Result<Replayed, NoMemory>
    requires proper { AllProper tables.now }
    requires allowed { Allowed tables.now history.now }
    ensures differ { IfOk result (IfDiffer (FirstDiffers tables.now history.now)) }
    ensures agree { IfOk result (IfAgree ((scan : ℕ) → FirstDiffers tables.now history.now scan → ⊥)) }
{
    let mut replayer = Replayer::open(alloc, tables)?;
    replay_all(&mut replayer, history);
    match replayer.first() {
        Some(scan) => Ok(Replayed::Differ { scan }),
        None => Ok(Replayed::Agree),
    }
}
