ghost use Rattle.ft_scan.specs.laws.Laws.{Laws};

use ft_mean::{
    evaluation_laws, look_laws, memory_laws, past_laws, row_laws, table_laws, time_laws, trace_laws,
};

/// What the proofs of this crate need of the definitions of the crates below.
pub(crate) fn laws()
    ensures { Laws }
{
    evaluation_laws();
    memory_laws();
    look_laws();
    past_laws();
    time_laws();
    row_laws();
    table_laws();
    trace_laws();
}
