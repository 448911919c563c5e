ghost use Rattle.std.specs.Prelude.{◌≡◌, ◌<◌, ◌+◌, nat_le};
ghost use Rattle.ft_read.specs.parsers.Cursor.{passes_of};
ghost use Rattle.ft_read.specs.meaning.Limit.{is_extra, is_late, opening, where_so, within};
ghost use Rattle.ft_read.specs.meaning.Lexeme.{or_else};

use crate::lexeme::Lexeme;
use crate::parts::Site;
use crate::stop::{LimitWord, Pass};
use ft_base::Place;

/// Which limits a token may pass.
#[derive(Clone, Copy, Drop)]
pub enum Limits {
    /// None.
    Free,
    /// Those of names and numbers.
    Lexical,
    /// Those, and this one where there is no room for what the token begins or names.
    Counted {
        is_full: bool,
        which: LimitWord,
    },
    /// The same, where the limit is told at another place.
    CountedAt {
        is_full: bool,
        which: LimitWord,
        place: Place,
    },
    /// Those of a token of an expression.
    Within(Site),
    /// Those of a `(`, a `not` or a `-` before an operand, where so many more may open.
    Opening {
        site: Site,
        room: u32,
    },
}

/// This limit at this place, where it is so.
fn where_so(is_so: bool, which: LimitWord, place: Place) -> Option<Pass>
    ensures { result ≡ where_so is_so which place }
{
    is_so.then_some(Pass { which, place })
}

/// How many tokens an expression has at most.
const MOST_TOKENS: usize = 1000;

/// The limit that a token of an expression passes, by the number of tokens before it.
fn within(site: Site, at: usize, lexeme: &Lexeme) -> Option<Pass>
    ensures { result ≡ within site at lexeme.now }
{
    let is_extra = site.is_beyond && at == site.before;
    let is_late = at.saturating_sub(site.before) >= MOST_TOKENS;
    lexeme
        .lexical_pass()
        .or(where_so(is_extra, LimitWord::Columns, lexeme.place))
        .or(where_so(is_late, LimitWord::Expression, site.start))
}

impl Limits {
    /// The first of them that a token passes, by the number of tokens before it.
    pub fn pass(self, at: usize, lexeme: &Lexeme) -> Option<Pass>
        ensures { result ≡ passes_of self at lexeme.now }
    {
        match self {
            Limits::Free => None,
            Limits::Lexical => lexeme.lexical_pass(),
            Limits::Counted { is_full, which } => {
                lexeme
                    .lexical_pass()
                    .or(where_so(is_full, which, lexeme.place))
            }
            Limits::CountedAt {
                is_full,
                which,
                place,
            } => lexeme.lexical_pass().or(where_so(is_full, which, place)),
            Limits::Within(site) => within(site, at, lexeme),
            Limits::Opening { site, room } => {
                within(site, at, lexeme).or(where_so(room == 0, LimitWord::Nesting, lexeme.place))
            }
        }
    }
}
