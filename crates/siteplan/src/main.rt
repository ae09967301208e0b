//! From the survey and the routing tree of a site to its approved transmission plan, in lines that a surveyor can
//! read. Standard input has the nodes, edge and tree records of a day file.
#![tactic(auto)]

mod report;

use listing::listing::FILE_LIMIT;
use listing::survey::planned_site;
use report::{Refusal, print_plan};
use std::io::Read;

fn run(rt: &HostRuntime) -> anyhow::Result<()> {
    let mut file = Vec::new(rt.alloc());
    // One byte past the limit is enough to see that a file is too long. As `daylist` reads its file: a crate for these lines
    // would say no more.
    rt.stdin()
        .take(FILE_LIMIT as u64 + 1)
        .read_to_end(&mut file)?;
    match planned_site(&file) {
        Ok(site) => print_plan(rt, &site),
        Err(stop) => {
            println!(rt; "{}", Refusal(stop))?;
            Ok(())
        }
    }
}

fn main(rt: HostRuntime) -> anyhow::Result<()> {
    run(&rt)
}
