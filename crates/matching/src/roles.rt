// Who a party of the two-level lists is, by the lists below.
use crate::copies::CrewCopy;

#[derive(Clone, Copy, PartialEq, Eq, Debug)]
pub(crate) enum Role {
    // One of the two crews that a crew becomes.
    Copied(CrewCopy),
    // A site of the lists below.
    Real { site: u16 },
    // The site that stands in for a crew.
    StandIn { crew: u16 },
}
