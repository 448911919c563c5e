ghost use Rattle.std.specs.Prelude.{◌≡◌};
ghost use Rattle.ft_base.specs.Three.{all_by, any_by, can_be, is_no, is_yes, three_not};

/// What is known of a truth: that it is false, nothing, or that it is true.
#[derive(Clone, Copy, Debug, PartialEq, Eq, Drop)]
pub enum Three {
    /// False, whatever is still open.
    No,
    /// Open.
    Maybe,
    /// True, whatever is still open.
    Yes,
}

impl Three {
    /// What is known of the opposite.
    pub fn not(self) -> Three
        ensures { result ≡ three_not self }
    {
        match self {
            Three::No => Three::Yes,
            Three::Maybe => Three::Maybe,
            Three::Yes => Three::No,
        }
    }

    /// Whether it is known to be false.
    pub fn is_no(self) -> bool
        ensures { result ≡ is_no self }
    {
        self == Three::No
    }

    /// Whether it is known to be true.
    pub fn is_yes(self) -> bool
        ensures { result ≡ is_yes self }
    {
        self == Three::Yes
    }

    /// Whether it may still be what is wanted.
    pub fn can_be(self, want: bool) -> bool
        ensures { result ≡ can_be want self }
    {
        if want { !self.is_no() } else { !self.is_yes() }
    }

    /// What is known of "each part is true", by how many parts are known to be false and to be true, and how many there are.
    pub fn all_of(no: usize, yes: usize, parts: usize) -> Three
        ensures { result ≡ all_by no yes parts }
    {
        if no > 0 {
            Three::No
        } else if yes == parts {
            Three::Yes
        } else {
            Three::Maybe
        }
    }

    /// What is known of "some part is true", by the same numbers.
    pub fn any_of(no: usize, yes: usize, parts: usize) -> Three
        ensures { result ≡ any_by no yes parts }
    {
        if yes > 0 {
            Three::Yes
        } else if no == parts {
            Three::No
        } else {
            Three::Maybe
        }
    }
}
