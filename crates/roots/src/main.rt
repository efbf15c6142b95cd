// Compares `arcs::root` with a second root, built otherwise, on many doubles, and prints how many of each kind were compared and how many differed.

#![tactic(auto)]

mod cases;
mod second;

use cases::Tally;
use std::io;

// A kind's line; the next kind counts from 0 again.
fn print(rt: &impl Print, name: &str, t: Tally) -> io::Result<Tally> {
    println!(rt;
        "{name}: compared {}, different {}",
        t.compared, t.different
    )?;
    Ok(Tally {
        compared: 0,
        different: 0,
        ..t
    })
}

fn main(rt: HostRuntime) -> io::Result<()> {
    let t = Tally {
        seed: 0x9e37_79b9_7f4a_7c15,
        compared: 0,
        different: 0,
    };
    let t = print(&rt, "every exponent", cases::exponents(t))?;
    let t = print(&rt, "subnormals", cases::subnormals(t))?;
    let t = print(&rt, "squares and their neighbours", cases::squares(t))?;
    let t = print(
        &rt,
        "nearest to halfway and their neighbours",
        cases::halfways(t),
    )?;
    let t = print(&rt, "random bits", cases::randoms(t))?;
    print(&rt, "specials", cases::specials(t))?;
    Ok(())
}
