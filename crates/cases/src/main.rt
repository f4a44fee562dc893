// Many rosters, each with a line that says what came of it: its first fault, or its two stable plans.
#![tactic(auto)]

use lists::faults::{Fault, Place};
use lists::flips::Flip;
use lists::interface::Lists;
use lists::parties::Side;
use matching::stable::stable_plan;
use roster::reader::read;
use std::alloc::{AllocError, Global};
use std::fmt::Write;
use std::{env, fs};

// A fault in the form of the test table, which is shorter than its `Display`.
fn fault_line(heap: Global, fault: Fault) -> Result<String, AllocError> {
    let number = fault.number();
    let layer = fault.layer();
    match fault.place() {
        Place::Whole | Place::Handed { .. } => format!(in heap; "fault {number}, {layer}, 0"),
        Place::Crew { crew, .. } => format!(in heap; "fault {number}, {layer}, crew {crew}"),
        Place::Entry { crew, place } => format!(in heap;
            "fault {number}, {layer}, crew {crew}, place {place}"
        ),
        Place::Byte { block, byte } => format!(in heap;
            "fault {number}, {layer}, block {block}, byte {byte}"
        ),
    }
}

// The crew-best stable plan of some lists, one number for each crew.
fn plan_line<L: Lists>(heap: Global, lists: &L) -> Result<String, AllocError> {
    let mut plan = vec![in heap; 0u16; usize::from(lists.count(Side::Crew))]?;
    match stable_plan(lists, plan.as_mut_slice()) {
        Ok(()) => {
            let mut line = String::new(heap);
            for site in &plan {
                write!(line, " {site}")?;
            }
            Ok(line)
        }
        Err(fault) => fault_line(heap, fault),
    }
}

fn roster_line(heap: Global, bytes: &[u8]) -> Result<String, AllocError> {
    match read(bytes) {
        Ok(roster) => {
            let crews = plan_line(heap, &roster)?;
            let sites = plan_line(heap, &Flip { lists: &roster })?;
            format!(in heap; "crew-best{crews}, site-best{sites}")
        }
        Err(fault) => fault_line(heap, fault),
    }
}

fn main(rt: HostRuntime) -> anyhow::Result<()> {
    for name in env::args(&rt)?.skip(1) {
        let bytes = fs::read(&rt, name.as_str())?;
        let line = roster_line(rt.alloc(), bytes.as_slice())?;
        println!(rt; "{name}: {line}")?;
    }
    Ok(())
}

#[cfg(test)]
mod tests {
    use super::*;
    use lists::faults::Layer;
    use lists::rings::Ring;
    use std::test::Fail;

    #[test]
    fn ring_of_three(rt: HostRuntime) -> Result<(), Fail> {
        let ring = Ring::new(3, 0, 1)?;
        let mut plan = [0u16; 3];
        stable_plan(&ring, &mut plan)?;
        assert_eq!(rt; plan, [1, 2, 3]);
        stable_plan(&Flip { lists: &ring }, &mut plan)?;
        assert_eq!(rt; plan, [2, 3, 1]);
        Ok(())
    }

    // Every crew of a ring has another first choice, so all of them get it.
    #[test]
    fn largest_ring(rt: HostRuntime) -> Result<(), Fail> {
        let ring = Ring::new(500, 65535, 7)?;
        let mut plan = vec![in rt.alloc(); 0u16; 500]?;
        stable_plan(&ring, plan.as_mut_slice())?;
        for (crew, site) in plan.iter().enumerate() {
            assert_eq!(rt; usize::from(*site), (crew + 65535) % 500 + 1);
        }
        Ok(())
    }

    #[test]
    fn empty_ring(rt: HostRuntime) -> Result<(), Fail> {
        let ring = Ring::new(0, 9, 9)?;
        assert_eq!(rt; ring.count(Side::Crew), 0);
        let mut plan = [0u16; 0];
        stable_plan(&ring, &mut plan)?;
        Ok(())
    }

    #[test]
    fn ring_too_large(rt: HostRuntime) -> Result<(), Fail> {
        let Err(fault) = Ring::new(501, 0, 0) else {
            return Err(Fail::new("a ring of 501 was made"));
        };
        assert_eq!(rt; fault.number(), 17);
        assert_eq!(rt; fault.layer(), Layer::Lists);
        assert_eq!(rt; fault.place(), Place::Whole);
        Ok(())
    }

    // A buffer of another length is refused and keeps what it holds.
    #[test]
    fn buffer_of_another_length(rt: HostRuntime) -> Result<(), Fail> {
        let ring = Ring::new(3, 0, 1)?;
        let mut short = [7u16; 2];
        assert_eq!(rt; stable_plan(&ring, &mut short), Err(Fault::BufferLength));
        assert_eq!(rt; short, [7, 7]);
        let mut long = [7u16; 4];
        assert_eq!(rt; stable_plan(&ring, &mut long), Err(Fault::BufferLength));
        assert_eq!(rt; long, [7, 7, 7, 7]);
        assert_eq!(rt; Fault::BufferLength.number(), 21);
        assert_eq!(rt; Fault::BufferLength.layer(), Layer::Round);
        assert_eq!(rt; Fault::BufferLength.place(), Place::Whole);
        Ok(())
    }
}
