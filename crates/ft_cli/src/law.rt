//! What the proofs of the top call need of the definitions of the crates below.
ghost use Rattle.ft_cli.specs.stages.Laws.{Laws};

use ft_admit::one_set;
use ft_claims::{cover_laws, point_laws};
use ft_compose::{failure_laws, faultless_compose};
use ft_mean::{allowed_by_scan, row_laws};
use ft_oblige::number_laws;
use ft_stream::mark_is_skipped;
use ft_trace::{one_history, written_is_spelled};

/// What the proofs of the top call need of the definitions of the crates below.
pub(crate) fn laws()
    ensures { Laws }
{
    one_set();
    cover_laws();
    point_laws();
    number_laws();
    faultless_compose();
    failure_laws();
    allowed_by_scan();
    row_laws();
    one_history();
    written_is_spelled();
    mark_is_skipped();
}
