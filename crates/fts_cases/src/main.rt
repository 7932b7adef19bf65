//! Runs the cases of standard input over devices in memory, and prints what each comes to.
//!
//! A case is data: what it shows stands in its file below `cases/`, and `tools/cases join` makes
//! standard input and what is wanted of all of them. What reads a case is proved, and no case is.
#![tactic(auto)]

mod ask;
mod change;
mod device;
mod obey;
mod program;
mod script;
mod world;

use std::io;

fn main(rt: HostRuntime) -> io::Result<()> {
    let mut world = world::World::new(rt.alloc())?;
    for line in rt.lines(rt.alloc()) {
        let told = obey::obey(rt.alloc(), &mut world, line?.as_str())?;
        print!(rt; "{told}")?;
    }
    Ok(())
}
