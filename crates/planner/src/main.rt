// Pairs the drive crews and radio sites of a trial, and prints who works with whom.
#![tactic(auto)]

mod commands;
mod pairings;
mod reports;
mod trials;
mod troubles;

use commands::Command;
use reports::HELP;
use std::fs::File;
use std::io::Read;
use std::process::ExitCode;
use std::{env, io};
use troubles::Trouble;

// One byte more than the longest roster has, so that a longer one is seen to be too long.
const MOST_BYTES: u64 = 501 * 512 + 1;

fn read_all(rt: &HostRuntime, source: impl Read + Drop) -> Result<Vec<u8>, Trouble> {
    let mut bytes = Vec::new(rt.alloc());
    source.take(MOST_BYTES).read_to_end(&mut bytes)?;
    Ok(bytes)
}

// Reads a roster to its end, and prints its trial.
fn pair_roster(rt: &HostRuntime, source: impl Read + Drop) -> Result<(), Trouble> {
    let bytes = read_all(rt, source)?;
    rt.print(trials::of_roster(rt.alloc(), bytes.as_slice())?)?;
    Ok(())
}

// The words after the program's name.
fn words(rt: &HostRuntime) -> Result<Vec<String>, Trouble> {
    Ok(env::args(rt)?.skip(1).collect(rt.alloc())?)
}

fn run(rt: &HostRuntime) -> Result<(), Trouble> {
    let words = words(rt)?;
    match Command::of(words.as_slice()).ok_or(Trouble::Usage)? {
        Command::Help => rt.print(HELP)?,
        Command::Ring { size, crews, sites } => rt.print(trials::of_ring(
            rt.alloc(),
            size,
            crews,
            sites,
        )?)?,
        Command::File { path } => pair_roster(rt, File::open(rt, path)?)?,
        Command::Input => pair_roster(rt, rt.stdin())?,
    }
    Ok(())
}

// A reason to give up is printed as one line, and ends the program with status 1.
fn main(rt: HostRuntime) -> io::Result<ExitCode> {
    match run(&rt) {
        Ok(()) => Ok(ExitCode::SUCCESS),
        Err(trouble) => {
            eprintln!(rt; "planner: {trouble}")?;
            Ok(ExitCode::FAILURE)
        }
    }
}
