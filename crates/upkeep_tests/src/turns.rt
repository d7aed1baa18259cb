// Two of a kind at one store, call by call, and one that stops.
use crate::executions::{Executed, execute, fresh};
use std::alloc::{AllocError, Global};
use std::test::Fail;

// Two appends, each of a part of its own.
const APPENDS: &str =
    "begin A append 0 5\n1 1 x\n.\nstep A 99\nbegin A append 5 10\n6 1 y\n.\nstep A 99\n";

// What a new reader finds at the end.
const LOOK: &str = "reader R 1000\nbegin R snapshot 9\nstep R 99\n";

const FOUND: &str = "R 1 x\nR 1 y\nR .\n";

// Executes a schedule whose appends are answered and whose end is looked at. What is said between is given back.
fn between(alloc: Global, clients: &str, turns: &str) -> Result<String, Fail> {
    let schedule = format!(in alloc; "writer A\n{clients}{APPENDS}{turns}{LOOK}")?;
    let Executed { complete, text, .. } = execute(alloc, schedule.as_str(), fresh(alloc))?;
    let said = String::from_utf8(text)?;
    let inner = said
        .as_str()
        .strip_prefix("A ok\nA ok\n")
        .and_then(|rest| rest.strip_suffix(FOUND));
    match inner {
        Some(inner) if complete => Ok(String::from_str(alloc, inner)?),
        _ => Ok(format!(in alloc; "in all: {said}")?),
    }
}

// One makes so many calls, then the other all of its own, then the first the rest.
fn turns_of(
    alloc: Global,
    first: u64,
    names: (&str, &str),
    what: &str,
) -> Result<String, AllocError> {
    let (one, two) = names;
    format!(in alloc;
        "begin {one} {what}\nbegin {two} {what}\nstep {one} {first}\nstep {two} 99\nstep {one} 99\n"
    )
}

#[test]
fn two_compactors_take_turns(rt: HostRuntime) -> Result<(), Fail> {
    let alloc = rt.alloc();
    let clients = "compactor C 1000\ncompactor D 1000\n";
    for (first, said) in [
        (1, "D merged 6\nC superseded 6\n"),
        (2, "D merged 6\nC superseded 6\n"),
        (3, "D merged 6\nC superseded 6\n"),
        (4, "D merged 6\nC superseded 6\n"),
        (5, "C merged 6\nD nothing 6\n"),
    ] {
        let turns = turns_of(alloc, first, ("C", "D"), "merge")?;
        let text = between(alloc, clients, turns.as_str())?;
        assert_eq!(rt; text.as_str(), said, "{first}");
    }
    let one_by_one =
        "begin C merge\nbegin D merge\nstep C 1\nstep D 1\nstep C 1\nstep D 1\nstep C 1\nstep D 1\nstep C 1\nstep D 1\nstep C 1\nstep D 9\n";
    let text = between(alloc, clients, one_by_one)?;
    assert_eq!(rt; text.as_str(), "C merged 6\nD superseded 6\n");
    Ok(())
}

#[test]
fn two_collectors_take_turns(rt: HostRuntime) -> Result<(), Fail> {
    let alloc = rt.alloc();
    let clients = "compactor C 1000\ncollector G\ncollector H\n";
    for (first, said) in [
        (1, "C merged 5\nH collected 5 2\nG collected 5 2\n"),
        (2, "C merged 5\nH collected 5 2\nG collected 5 2\n"),
        (3, "C merged 5\nH collected 5 2\nG collected 5 2\n"),
        (4, "C merged 5\nG collected 5 2\nH collected 5 2\n"),
    ] {
        let turns = turns_of(alloc, first, ("G", "H"), "collect")?;
        let merged = format!(in alloc; "begin C merge\nstep C 99\n{turns}")?;
        let text = between(alloc, clients, merged.as_str())?;
        assert_eq!(rt; text.as_str(), said, "{first}");
    }
    Ok(())
}

// Another does all of the work of a compactor that stops, and a collector finds the parts that it merged.
#[test]
fn a_compactor_stops_after_each_call(rt: HostRuntime) -> Result<(), Fail> {
    let alloc = rt.alloc();
    for (calls, said) in [
        (1, "D merged 6\nE removed 1\nG collected 6 2\n"),
        (2, "D merged 6\nE removed 1\nG collected 6 2\n"),
        (3, "D merged 6\nE removed 1\nG collected 6 2\n"),
        (4, "D merged 6\nE removed 1\nG collected 6 2\n"),
        (5, "C merged 5\nD nothing 6\nE removed 1\nG collected 6 2\n"),
    ] {
        let turns = format!(in alloc;
            "begin C merge\nstep C {calls}\nstop C\ncompactor D 1000\nbegin D merge\nstep D 99\nmoment 500\nexpirer E\nbegin E expire\nstep E 99\ncollector G\nbegin G collect\nstep G 99\n"
        )?;
        let text = between(alloc, "compactor C 100\n", turns.as_str())?;
        assert_eq!(rt; text.as_str(), said, "{calls}");
    }
    Ok(())
}
