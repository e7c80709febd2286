//! Runs cases that are written as text: standard input has the cases, and standard output has them again with their answers. README.md
//! has the language.
#![tactic(auto)]

mod answers;
mod bench;
mod bytes;
mod calls;
mod loops;
mod runs;
mod shown;

use bench::Bench;
use std::io;

fn main(rt: HostRuntime) -> io::Result<()> {
    let mut bench = Bench::new(rt.alloc());
    for line in rt.lines(rt.alloc()) {
        let mut told = String::new(rt.alloc());
        bench.take(rt.alloc(), line?.as_str(), &mut told)?;
        print!(rt; "{told}")?;
    }
    Ok(())
}
