// The two crews of the two-level lists that each crew becomes, and the numbers that they have.
ghost use Rattle.std.specs.Prelude.{◌≡◌, ◌^◌, ◌<◌};
ghost use Rattle.matching.specs.Copies.{copy_number};

// A crew of the two-level lists: the lower or the upper one of a crew below.
#[derive(Clone, Copy, PartialEq, Eq, Debug)]
pub(crate) enum CrewCopy {
    Lower { crew: u16 },
    Upper { crew: u16 },
}

impl CrewCopy {
    // The number of the copy; no `From`, since it is asked only where the number fits.
    pub(crate) fn number(self) -> u16
        requires { copy_number self < 2 ^ 16 }
        ensures { result ≡ copy_number self }
    {
        match self {
            CrewCopy::Lower { crew } => 2 * crew,
            CrewCopy::Upper { crew } => 2 * crew + 1,
        }
    }
}

// The copy that has a number.
impl From<u16> for CrewCopy {
    ghost from_gives = { λ number copy. number ≡ copy_number copy };

    fn from(number: u16) -> CrewCopy {
        let crew = number / 2;
        if number % 2 == 0 {
            CrewCopy::Lower { crew }
        } else {
            CrewCopy::Upper { crew }
        }
    }
}
