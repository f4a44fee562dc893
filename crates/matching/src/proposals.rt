// The state of deferred acceptance, which knows nothing of lists: the better crew stays, the other is refused.
ghost use Rattle.std.specs.Prelude.{◌≡◌, ◌<◌, Some};
ghost use Rattle.std.specs.Option.{ForSome};
ghost use Rattle.matching.specs.Answers.{refused_of, counted, unasked, hold_in, asked_of, HasRoom};

use crate::limits::MOST;

// A crew that a site holds, with its place in the site's list.
#[derive(Clone, Copy)]
pub(crate) struct Hold {
    pub(crate) crew: u16,
    pub(crate) place: u16,
}

// Tables of fixed size, since the pairing allocates nothing.
#[derive(Drop)]
pub(crate) struct Proposals {
    // How many entries of each crew's list have refused it.
    pub(crate) refusals: [u16; MOST],
    // Whom each site holds.
    pub(crate) holds: [Option<Hold>; MOST],
}

impl Proposals {
    // Nobody has asked anybody yet; written out, since 0 and `None` say more than a default would.
    pub(crate) fn new() -> Proposals
        ensures { result ≡ unasked }
    {
        Proposals {
            refusals: [0; MOST],
            holds: [None; MOST],
        }
    }

    // One entry more has refused a crew.
    fn refuse(&mut self, crew: u16)
        requires { HasRoom self.old crew }
        ensures { self.new ≡ record self.old { refusals = counted self.old.refusals (Some crew) } }
    {
        self.refusals[usize::from(crew)] += 1;
    }

    // A crew asks a site that ranks it at a place: the answer is the crew that is refused, if any.
    pub(crate) fn ask(&mut self, crew: u16, site: u16, place: u16) -> Option<u16>
        requires crew { HasRoom self.old crew }
        requires site { site < 500 }
        requires held { ForSome (hold_in self.old site) (λ h. HasRoom self.old h.crew) }
        ensures refused { result ≡ refused_of (hold_in self.old site) crew place }
        ensures state { self.new ≡ asked_of self.old crew site place }
    {
        let current = self.holds[usize::from(site)];
        let Some(held) = current else {
            self.holds[usize::from(site)] = Some(Hold { crew, place });
            return None;
        };
        if held.place < place {
            self.refuse(crew);
            return Some(crew);
        }
        self.holds[usize::from(site)] = Some(Hold { crew, place });
        self.refuse(held.crew);
        Some(held.crew)
    }
}
