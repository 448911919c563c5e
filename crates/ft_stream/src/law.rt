//! What a trace spells and where a mark stands, over the definitions alone.
ghost use Rattle.ft_stream.specs.laws.Laws.{FirstMarkIsSkipped, Laws, NoMarkIsWhole, SpelledIsMonitored};

use ft_mean::{allowed_by_scan, row_laws};
use ft_replay::allowed_after_last;

/// What the proofs of this crate need of the definitions of the crates below.
pub(crate) fn laws()
    ensures { Laws }
{
    allowed_after_last();
    allowed_by_scan();
    row_laws();
}

/// What bytes spell is a monitored list.
pub fn spelled_is_monitored()
    ensures { SpelledIsMonitored }
{
    laws();
}

/// What follows the mark is what stands after the first line that is `trace:`, and where no line is, it is all.
pub fn mark_is_skipped()
    ensures first { FirstMarkIsSkipped }
    ensures none { NoMarkIsWhole }
{}
