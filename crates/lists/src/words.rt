// Sides, parties and faults in words.
ghost use Rattle.std.specs.Prelude.{◌≡◌, Some};
ghost use Rattle.lists.specs.Words.{side_words, party_words, layer_words, which_words, place_words, cause_words, fault_words};

use crate::faults::{Fault, Layer, Place, Which};
use crate::parties::{Party, Side};
use std::error::Error;
use std::fmt;

impl fmt::Display for Side {
    ghost output = { λ side. Some (side_words side) };

    fn fmt<W: fmt::Write>(&self, f: &mut fmt::Formatter<W>) -> fmt::Result {
        f.write_str(match self {
            Side::Crew => "crew",
            Side::Site => "site",
        })
    }
}

impl fmt::Display for Party {
    ghost output = { λ party. Some (party_words party) };

    fn fmt<W: fmt::Write>(&self, f: &mut fmt::Formatter<W>) -> fmt::Result {
        let Party { side, number } = *self;
        write!(f, "{side} {number}")
    }
}

impl fmt::Display for Layer {
    ghost output = { λ layer. Some (layer_words layer) };

    fn fmt<W: fmt::Write>(&self, f: &mut fmt::Formatter<W>) -> fmt::Result {
        f.write_str(match self {
            Layer::File => "file",
            Layer::Lists => "lists",
            Layer::Round => "round",
        })
    }
}

// Written after the rest, and so with a space before it.
impl fmt::Display for Which {
    ghost output = { λ which. Some (which_words which) };

    fn fmt<W: fmt::Write>(&self, f: &mut fmt::Formatter<W>) -> fmt::Result {
        f.write_str(match self {
            Which::Only => "",
            Which::First => " of the first handed in",
            Which::Second => " of the second handed in",
        })
    }
}

// Written after the rest, and so with a space before it.
impl fmt::Display for Place {
    ghost output = { λ place. Some (place_words place) };

    fn fmt<W: fmt::Write>(&self, f: &mut fmt::Formatter<W>) -> fmt::Result {
        match *self {
            Place::Whole => Ok(()),
            Place::Byte { block, byte } => write!(f, " at block {block}, byte {byte}"),
            Place::Handed { which } => write!(f, "{which}"),
            Place::Crew { which, crew } => write!(f, " at crew {crew}{which}"),
            Place::Entry { crew, place } => write!(f, " at crew {crew}, place {place}"),
        }
    }
}

// What caused a fault: a text for every case, which no derive could make up.
fn cause(fault: Fault) -> &'static str
    ensures { result.now ≡ cause_words fault }
{
    match fault {
        Fault::RosterLength => "the length is not that of a roster with these counts",
        Fault::BlockCheck { .. } => "the check does not fit the block",
        Fault::BlockField { .. } => "a field has a value that it may not have",
        Fault::EntryTooHigh { .. } => "an entry names a party that does not exist",
        Fault::EntryRepeated { .. } => "an entry names a party for the second time in its list",
        Fault::EntryUnreturned { .. } => "an entry names a party that does not name it back",
        Fault::RingTooLarge => "a ring has at most 500 parties a side",
        Fault::ListsTooLarge => "the lists have more than 250 parties on a side",
        Fault::BufferLength => "a buffer has the wrong length",
        Fault::HandedLength { .. } => "a plan or a buffer has the wrong length",
        Fault::NoSuchSite { .. } => "the plan gives the crew a site that does not exist",
        Fault::SiteTaken { .. } => "the plan gives the crew a site that an earlier crew has",
        Fault::PairNotListed { .. } => "the plan gives the crew a site that it does not name",
        Fault::LevelUnfit { .. } => "the level does not fit the crew",
        Fault::PairUnfit { .. } => "the levels do not fit the votes of this pair",
    }
}

impl fmt::Display for Fault {
    ghost output = { λ fault. Some (fault_words fault) };

    fn fmt<W: fmt::Write>(&self, f: &mut fmt::Formatter<W>) -> fmt::Result {
        let number = self.number();
        let layer = self.layer();
        let place = self.place();
        let cause = cause(*self);
        write!(f, "fault {number} ({layer}){place}: {cause}")
    }
}

impl Error for Fault {}
