//! Day files by the thousand, made by a fixed generator and listed twice: by the product, and by a naive scheduler that is
//! written apart from it. Every byte of the answers is compared, and counted by how the file ends.
#![tactic(auto)]

mod comparison;
mod drawn;
mod ending;
mod example;
mod naive;
mod product;
mod survey;
mod tally;

use comparison::Comparison;
use drawn::file::draw_file;
use example::example_holds;
use tally::Tally;

const FILES: u32 = 12_000;

/// The most differing files that are told one by one.
const MOST_SHOWN: u32 = 5;

fn run(rt: &HostRuntime) -> anyhow::Result<()> {
    let heap = rt.alloc();
    if example_holds(heap)? {
        println!(rt; "example listed as expected")?;
    } else {
        println!(rt; "example not listed as expected")?;
    }
    let mut tally = Tally::new(heap)?;
    for index in 0..FILES {
        let file = draw_file(heap, index)?;
        let comparison = Comparison::run(heap, &file)?;
        tally.note(&file, &comparison);
        if !comparison.agrees() && tally.differ() <= MOST_SHOWN {
            comparison.print(rt, index)?;
        }
    }
    tally.print(rt)
}

fn main(rt: HostRuntime) -> anyhow::Result<()> {
    run(&rt)
}
