ghost use Rattle.ft_claims.specs.laws.ValueLaws.{NumbersAreMade, PointsAreOfNumbers};

/// Numbers for all names: those made of what the names stand for tell it, and a point of a formula has the values of some numbers,
/// each in its span.
pub fn value_laws()
    ensures made { NumbersAreMade }
    ensures points { PointsAreOfNumbers }
{}
