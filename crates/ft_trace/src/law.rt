//! Which history bytes spell, over the definitions alone.
ghost use Rattle.std.specs.Prelude.{ℕ, List, [], length, ◌≡◌, ◌≢◌, ◌≤◌};
ghost use Rattle.ft_core.specs.declared.tables.Tables.{Tables};
ghost use Rattle.ft_core.specs.meaning.Kinds.{monitored};
ghost use Rattle.ft_mean.specs.meaning.Reading.{IsListOf, Scans};
ghost use Rattle.ft_trace.specs.meaning.Spelling.{IsFirstFault, SpellsHistory};
ghost use Rattle.ft_trace.specs.meaning.Writing.{trace_text};
ghost use Rattle.ft_trace.specs.declared.fault.TraceFault.{TraceFault};
ghost use Rattle.ft_trace.specs.declared.fault.TraceFault.TheVariants as faults;

use ft_mean::row_laws;

/// Bytes spell one history at most.
pub fn one_history()
    ensures { (S : Tables) (bytes : List ℕ) (h k : Scans) → SpellsHistory S bytes h → SpellsHistory S bytes k → h ≡ k }
{
    row_laws();
}

/// Bytes that spell a history have no fault.
pub fn history_or_fault()
    ensures { (S : Tables) (bytes : List ℕ) (h : Scans) (f : TraceFault) → SpellsHistory S bytes h → IsFirstFault S bytes f → f
        ≡ faults.NoMemory }
{}

/// The text that is written of a list of 1 to 100,000 scans of monitored values spells that list.
pub fn written_is_spelled()
    ensures { (S : Tables) (h : Scans) → IsListOf S monitored h → h ≢ [] → length h ≤ 100000 → SpellsHistory S (trace_text S h) h }
{}
