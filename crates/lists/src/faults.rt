// What a call refuses, and where the reason lies.
ghost use Rattle.std.specs.Prelude.{◌≡◌};
ghost use Rattle.lists.specs.Faults.{number_of, layer_of, where_of};

// Each case carries the place that its number leaves open.
#[derive(Clone, Copy, PartialEq, Eq, Debug)]
pub enum Fault {
    // The length of a roster is not one that a roster can have.
    RosterLength,
    // The check of a block does not fit its bytes.
    BlockCheck { block: u16 },
    // A field has a value that it may not have, or a byte that must be zero is not.
    BlockField { block: u16, byte: u16 },
    // An entry names a party that the other side does not have.
    EntryTooHigh { block: u16, byte: u16 },
    // An entry names a party that its list has named before.
    EntryRepeated { block: u16, byte: u16 },
    // An entry names a party whose own list does not name it back.
    EntryUnreturned { block: u16, byte: u16 },
    // A ring has more parties on a side than lists may have.
    RingTooLarge,
    // The lists have more parties on a side than a round may have.
    ListsTooLarge,
    // A buffer does not have the length that the call needs.
    BufferLength,
    // One of the plans and buffers handed in does not have the length that the call needs.
    HandedLength { which: Which },
    // A plan gives a crew a site that does not exist.
    NoSuchSite { which: Which, crew: u16 },
    // A plan gives a crew a site that a crew with a smaller number has.
    SiteTaken { which: Which, crew: u16 },
    // A plan gives a crew a site that its list does not name.
    PairNotListed { which: Which, crew: u16 },
    // A level is neither 0 nor 1, or is not 1 where the crew is left out.
    LevelUnfit { crew: u16 },
    // An entry of a crew's list makes a pair whose levels do not fit its votes.
    PairUnfit { crew: u16, place: u16 },
}

// Which of the plans or buffers handed in a fault is about.
#[derive(Clone, Copy, PartialEq, Eq, Debug)]
pub enum Which {
    // There is only one.
    Only,
    First,
    Second,
}

// The layer in which a fault was found.
#[derive(Clone, Copy, PartialEq, Eq, Debug)]
pub enum Layer {
    File,
    Lists,
    Round,
}

// Where in what was handed in the reason for a fault lies.
#[derive(Clone, Copy, PartialEq, Eq, Debug)]
pub enum Place {
    // The thing as a whole, written as 0.
    Whole,
    // A byte of a block of a roster.
    Byte { block: u16, byte: u16 },
    // A plan or a buffer as a whole, written as 0.
    Handed { which: Which },
    // What a plan, or a level, says of a crew.
    Crew { which: Which, crew: u16 },
    // An entry of a crew's list.
    Entry { crew: u16, place: u16 },
}

impl Fault {
    // The number by which the fault is known: a number and no enum, since a caller in C is handed it as it is.
    pub fn number(self) -> u8
        ensures { result ≡ number_of self }
    {
        match self {
            Fault::RosterLength => 1,
            Fault::BlockCheck { .. } => 2,
            Fault::BlockField { .. } => 3,
            Fault::EntryTooHigh { .. } => 4,
            Fault::EntryRepeated { .. } => 5,
            Fault::EntryUnreturned { .. } => 6,
            Fault::RingTooLarge => 17,
            Fault::ListsTooLarge => 16,
            Fault::BufferLength => 21,
            Fault::HandedLength { .. } => 21,
            Fault::NoSuchSite { .. } => 22,
            Fault::SiteTaken { .. } => 23,
            Fault::PairNotListed { .. } => 24,
            Fault::LevelUnfit { .. } => 25,
            Fault::PairUnfit { .. } => 26,
        }
    }

    // The layer in which the fault was found.
    pub fn layer(self) -> Layer
        ensures { result ≡ layer_of self }
    {
        match self {
            Fault::RosterLength | Fault::BlockCheck { .. } | Fault::BlockField { .. } =>
                Layer::File,
            Fault::EntryTooHigh { .. }
            | Fault::EntryRepeated { .. }
            | Fault::EntryUnreturned { .. }
            | Fault::RingTooLarge => Layer::Lists,
            Fault::ListsTooLarge
            | Fault::BufferLength
            | Fault::HandedLength { .. }
            | Fault::NoSuchSite { .. }
            | Fault::SiteTaken { .. }
            | Fault::PairNotListed { .. }
            | Fault::LevelUnfit { .. }
            | Fault::PairUnfit { .. } => Layer::Round,
        }
    }

    // Where the reason for the fault lies.
    pub fn place(self) -> Place
        ensures { result ≡ where_of self }
    {
        match self {
            Fault::RosterLength => Place::Byte { block: 0, byte: 0 },
            Fault::BlockCheck { block } => Place::Byte { block, byte: 508 },
            Fault::BlockField { block, byte }
            | Fault::EntryTooHigh { block, byte }
            | Fault::EntryRepeated { block, byte }
            | Fault::EntryUnreturned { block, byte } => Place::Byte { block, byte },
            Fault::RingTooLarge | Fault::ListsTooLarge | Fault::BufferLength => Place::Whole,
            Fault::HandedLength { which } => Place::Handed { which },
            Fault::NoSuchSite { which, crew }
            | Fault::SiteTaken { which, crew }
            | Fault::PairNotListed { which, crew } => Place::Crew { which, crew },
            Fault::LevelUnfit { crew } => Place::Crew {
                which: Which::Only,
                crew,
            },
            Fault::PairUnfit { crew, place } => Place::Entry { crew, place },
        }
    }
}
