// The two sides of a trial and the parties on them.
ghost use Rattle.std.specs.Prelude.{◌≡◌};
ghost use Rattle.lists.specs.Sides.{other, across};

#[derive(Clone, Copy, PartialEq, Eq, Debug)]
pub enum Side {
    Crew,
    Site,
}

#[derive(Clone, Copy, PartialEq, Eq, Debug)]
pub struct Party {
    pub side: Side,
    pub number: u16,
}

impl Side {
    // The side that this one ranks.
    pub fn opposite(self) -> Side
        ensures { result ≡ other self }
    {
        match self {
            Side::Crew => Side::Site,
            Side::Site => Side::Crew,
        }
    }
}

impl Party {
    // Two names for one constructor, since `Party::crew(0)` reads better at a call than a side and a number.
    pub fn crew(number: u16) -> Party
        ensures { result ≡ record { side = Side.Crew; number = number } }
    {
        Party {
            side: Side::Crew,
            number,
        }
    }

    pub fn site(number: u16) -> Party
        ensures { result ≡ record { side = Side.Site; number = number } }
    {
        Party {
            side: Side::Site,
            number,
        }
    }

    // The party of the same number on the other side.
    pub fn opposite(self) -> Party
        ensures { result ≡ across self }
    {
        Party {
            side: self.side.opposite(),
            number: self.number,
        }
    }
}
