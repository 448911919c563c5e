ghost use Rattle.std.specs.Prelude.{◌≡◌};
ghost use Rattle.ft_mean.specs.meaning.Value.{value, truth};
ghost use Rattle.ft_mean.specs.judge.Safe.{IsSafe, IsSafeCond};

use crate::arithmetic::{compare, difference, negated, product, sum};
use crate::look::Look;
use ft_base::div_floor;
use ft_core::{Cond, Term};

/// The value of a term at what is looked at.
pub fn value_of<L: Look>(term: &Term, look: &L) -> i64
    requires { IsSafe (L.view look.now) term.now }
    ensures { result ≡ value (L.view look.now) term.now }
{
    match term {
        Term::Num(number) => *number,
        Term::Now(variable) => look.now_of(*variable),
        Term::Prev(variable) => look.before_of(*variable),
        Term::Age(memory) => look.age_of(*memory),
        Term::Neg(inner) => negated(value_of(inner.get(), look)),
        Term::Add(left, right) => sum(value_of(left.get(), look), value_of(right.get(), look)),
        Term::Sub(left, right) => {
            difference(value_of(left.get(), look), value_of(right.get(), look))
        }
        Term::Times(factor, inner) => product(*factor, value_of(inner.get(), look)),
        Term::Div(inner, divisor) => div_floor(value_of(inner.get(), look), *divisor),
    }
}

/// The truth of a condition at what is looked at.
pub fn truth_of<L: Look>(cond: &Cond, look: &L) -> bool
    requires { IsSafeCond (L.view look.now) cond.now }
    ensures { result ≡ truth (L.view look.now) cond.now }
{
    match cond {
        Cond::Yes => true,
        Cond::No => false,
        Cond::Compare(relation, left, right) => {
            compare(*relation, value_of(left, look), value_of(right, look))
        }
        Cond::Memory(memory) => look.memory_of(*memory),
        Cond::Not(inner) => !truth_of(inner.get(), look),
        Cond::And(left, right) => truth_of(left.get(), look) && truth_of(right.get(), look),
        Cond::Or(left, right) => truth_of(left.get(), look) || truth_of(right.get(), look),
    }
}
