ghost use Rattle.std.specs.Prelude.{◌≡◌, ◌+◌, ◌-◌, ◌^◌, ◌<◌, ◌≤◌, length, take};
ghost use Rattle.ft_lex.specs.meaning.Place.{place_after};
ghost use Rattle.ft_lex.specs.lexing.Lexing.{next_place};

use ft_base::Place;

fn next(place: Place, byte: u8) -> Place
    requires { (place.line < 2 ^ 32 - 1) × (place.column < 2 ^ 32 - 1) }
    ensures { result ≡ next_place place byte }
{
    if byte == b'\n' {
        Place {
            line: place.line + 1,
            column: 1,
        }
    } else {
        Place {
            line: place.line,
            column: place.column + 1,
        }
    }
}

/// The place of the byte at `to`, from that of the byte at `from`.
pub fn place_at(text: &[u8], from: usize, to: usize, place: Place) -> Place
    requires short { length text.now < 2 ^ 32 - 1 }
    requires ordered { from ≤ to }
    requires within { to ≤ length text.now }
    requires place { place ≡ place_after (take from text.now) }
    ensures { result ≡ place_after (take to text.now) }
{
    let mut place = place;
    for at in from..to {
        place = next(place, text[at]);
    }
    place
}
