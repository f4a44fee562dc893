// Why the planner gives up, in words.
ghost use Rattle.std.specs.Prelude.{◌≡◌, Some, None, codes};
ghost use Rattle.lists.specs.Words.{fault_words};
ghost use Rattle.planner.specs.Troubles.{trouble_words};
ghost use Rattle.planner.specs.declared.troubles.Trouble.TheVariants.{Unfit, Io, Memory};

use lists::faults::Fault;
use std::alloc::AllocError;
use std::{fmt, io};

#[derive(Drop)]
pub enum Trouble {
    // The words after the program's name are none that it knows.
    Usage,
    // The lists are refused.
    Unfit(Fault),
    // A file or the input cannot be read, or the output cannot be written.
    Io(io::Error),
    // There is no memory left.
    Memory,
}

// The three `From` are by hand, since what a derive writes does not tell a contract which case comes of a `?`.
impl From<Fault> for Trouble {
    ghost from_gives = { λ fault trouble. trouble ≡ Unfit fault };

    fn from(fault: Fault) -> Trouble {
        Trouble::Unfit(fault)
    }
}

impl From<io::Error> for Trouble {
    ghost from_gives = { λ error trouble. trouble ≡ Io error };

    fn from(error: io::Error) -> Trouble {
        Trouble::Io(error)
    }
}

impl From<AllocError> for Trouble {
    ghost from_gives = { λ _ trouble. trouble ≡ Memory };

    fn from(_: AllocError) -> Trouble {
        Trouble::Memory
    }
}

impl fmt::Display for Trouble {
    ghost output = { trouble_words };

    fn fmt<W: fmt::Write>(&self, f: &mut fmt::Formatter<W>) -> fmt::Result {
        match self {
            Trouble::Usage => write!(f, "unknown words; planner --help says which there are"),
            Trouble::Unfit(fault) => write!(f, "{fault}"),
            Trouble::Io(error) => write!(f, "{error}"),
            Trouble::Memory => write!(f, "out of memory"),
        }
    }
}
