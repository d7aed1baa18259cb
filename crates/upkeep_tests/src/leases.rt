// Leases, and shards without versions.
use crate::executions::{execute, fresh};
use std::test::Fail;

// A schedule, what is said, and how many calls are made.
#[test]
fn leases_run_out_at_their_moment(rt: HostRuntime) -> Result<(), Fail> {
    let alloc = rt.alloc();
    for (name, schedule, said, calls) in [
        (
            "each from its own moment, and a writer's never",
            "writer A\nreader R 1000\nreader Q 50\ncompactor C 100\nexpirer E\nmoment 49\nbegin E expire\nstep E 9\nmoment 100\nbegin E expire\nstep E 9\nmoment 999\nbegin E expire\nstep E 9\nmoment 1000\nbegin E expire\nstep E 9\nmoment 18446744073709551615\nbegin E expire\nstep E 9\n",
            "E none 4\nE removed 2 3\nE none 5\nE removed 1\nE none 6\n",
            14,
        ),
        (
            "past the last moment",
            "moment 5\nreader R 18446744073709551615\nexpirer E\nmoment 18446744073709551615\nbegin E expire\nstep E 9\n",
            "E none 1\n",
            4,
        ),
        (
            "no versions",
            "collector G\nbegin G collect\nbegin G collect\nstep G 9\nstep G 9\nexpirer E\nbegin E expire\nbegin E expire\nstep E 9\nhead\n",
            "G open\nG collected 0 0\nE open\nE none 0\nhead none\n",
            3,
        ),
    ] {
        let executed = execute(alloc, schedule, fresh(alloc))?;
        assert!(rt; executed.complete, "{name}");
        assert_eq!(rt; executed.text.as_slice(), said.as_bytes(), "{name}");
        assert_eq!(rt; executed.store.trail().len(), calls, "{name}");
    }
    Ok(())
}
