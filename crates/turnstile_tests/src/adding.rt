// Threads that add to one tally.
ghost use Rattle.std.specs.Prelude.{◌≡◌, ◌++◌, List, IfOk, IfErr};
ghost use Rattle.turnstile.specs.Passes.{IsPassOf, view};
ghost use Rattle.turnstile_tests.specs.declared.marks.Mark.{Mark};
ghost use Rattle.turnstile_tests.specs.Tallies.{mark_client, tally_told, GoesOn};

use crate::tallies::Tally;
use std::alloc::Global;
use std::thread::{Threads, join};
use turnstile::{Pass, Turnstile};

/// Adds a mark as soon as the turn is found free.
pub fn add_once(turnstile: &Turnstile<Tally>, mut pass: Pass<Tally>, amount: u64) -> Pass<Tally>
    requires { IsPassOf tally_told mark_client turnstile.now pass }
    ensures { GoesOn turnstile.now pass result }
{
    for _ in 0..u64::MAX {
        match turnstile.try_take(pass) {
            Ok(mut held) => {
                let number = held.number();
                held.value().add(number, amount);
                return held.give();
            }
            Err(back) => pass = back,
        }
    }
    pass
}

// Two threads add a mark each.
fn add_two<R: Threads + Sync>(
    rt: &R,
    turnstile: &Turnstile<Tally>,
    mut pass: Pass<Tally>,
    amount: u64,
) -> Pass<Tally>
    requires { IsPassOf tally_told mark_client turnstile.now pass }
    ensures { GoesOn turnstile.now pass result }
{
    let Ok(other) = turnstile.split(&mut pass) else {
        return pass;
    };
    let (mut pass, other) = join(
        rt,
        || -> Pass<Tally>
            requires { IsPassOf tally_told mark_client turnstile.now pass }
            ensures { GoesOn turnstile.entry.now pass result }
        { add_once(turnstile, pass, amount) },
        || -> Pass<Tally>
            requires { IsPassOf tally_told mark_client turnstile.now other }
            ensures { GoesOn turnstile.entry.now other result }
        { add_once(turnstile, other, amount.wrapping_mul(2)) },
    );
    turnstile.join(&mut pass, other);
    pass
}

// Four threads add a mark each. The first pass is joined into the other.
fn add_four<R: Threads + Sync>(
    rt: &R,
    turnstile: &Turnstile<Tally>,
    mut pass: Pass<Tally>,
    amount: u64,
) -> Pass<Tally>
    requires { IsPassOf tally_told mark_client turnstile.now pass }
    ensures { GoesOn turnstile.now pass result }
{
    let Ok(other) = turnstile.split(&mut pass) else {
        return pass;
    };
    let (pass, mut other) = join(
        rt,
        || -> Pass<Tally>
            requires { IsPassOf tally_told mark_client turnstile.now pass }
            ensures { GoesOn turnstile.entry.now pass result }
        { add_two(rt, turnstile, pass, amount) },
        || -> Pass<Tally>
            requires { IsPassOf tally_told mark_client turnstile.now other }
            ensures { GoesOn turnstile.entry.now other result }
        { add_two(rt, turnstile, other, amount.wrapping_mul(4)) },
    );
    turnstile.join(&mut other, pass);
    other
}

// Eight threads add a mark each.
fn add_eight<R: Threads + Sync>(
    rt: &R,
    turnstile: &Turnstile<Tally>,
    mut pass: Pass<Tally>,
    amount: u64,
) -> Pass<Tally>
    requires { IsPassOf tally_told mark_client turnstile.now pass }
    ensures { GoesOn turnstile.now pass result }
{
    let Ok(other) = turnstile.split(&mut pass) else {
        return pass;
    };
    let (mut pass, other) = join(
        rt,
        || -> Pass<Tally>
            requires { IsPassOf tally_told mark_client turnstile.now pass }
            ensures { GoesOn turnstile.entry.now pass result }
        { add_four(rt, turnstile, pass, amount) },
        || -> Pass<Tally>
            requires { IsPassOf tally_told mark_client turnstile.now other }
            ensures { GoesOn turnstile.entry.now other result }
        { add_four(rt, turnstile, other, amount.wrapping_mul(16)) },
    );
    turnstile.join(&mut pass, other);
    pass
}

/// Eight threads add a mark each to a tally: `amount` times each power of two below 256. The tally comes back as it was for want of memory.
pub fn add_by_threads<R: Threads + Sync>(
    rt: &R,
    alloc: Global,
    tally: Tally,
    amount: u64,
) -> Result<Tally, Tally>
    ensures from { IfOk result (λ done. done.from ≡ tally.from) }
    ensures marks { IfOk result (λ done. (es : List Mark) × (done.marks.items ≡ tally.marks.items ++ es)) }
    ensures memory { IfErr result (λ back. back ≡ tally) }
{
    let (turnstile, pass) = Turnstile::new(alloc, tally)?;
    let pass = add_eight(rt, &turnstile, pass, amount);
    Ok(turnstile.close(pass))
}
