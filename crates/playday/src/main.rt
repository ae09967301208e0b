//! A short day of an engine over the plan of a small site, played from a script: what staff call, what is answered, and
//! what runs in each slot.
#![tactic(auto)]

mod day;
mod site;

use day::{Act, Wanted, play};
use engine::state::Engine;
use site::approved_plan;

/// The day: three bookings of which one is withdrawn, one that would make another query late, releases, a closing.
const DAY: [Act; 24] = [
    Act::Keep(Wanted {
        priority: 1,
        period: 12,
        deadline: 8,
    }),
    Act::Keep(Wanted {
        priority: 2,
        period: 20,
        deadline: 12,
    }),
    Act::Try(Wanted {
        priority: 0,
        period: 6,
        deadline: 6,
    }),
    Act::Keep(Wanted {
        priority: 0,
        period: 6,
        deadline: 6,
    }),
    Act::GiveUp(Wanted {
        priority: 3,
        period: 30,
        deadline: 16,
    }),
    Act::Keep(Wanted {
        priority: 3,
        period: 30,
        deadline: 31,
    }),
    Act::Wait(1),
    Act::Wait(2),
    Act::Wait(3),
    Act::Release(2),
    Act::Slot,
    Act::Release(1),
    Act::Release(1),
    Act::Slot,
    Act::Slot,
    Act::Slot,
    Act::Release(1),
    Act::Close(2),
    Act::Slot,
    Act::Wait(2),
    Act::Release(2),
    Act::Slot,
    Act::Slot,
    Act::Slot,
];

fn run(rt: &HostRuntime) -> anyhow::Result<()> {
    let Some(plan) = approved_plan() else {
        println!(rt; "the site has no plan")?;
        return Ok(());
    };
    let length = plan.length();
    let distance = plan.distance();
    println!(rt; "plan: {length} steps, minimum step distance {distance}")?;
    // The refusal is printed and the program goes on to its end, so the match stays.
    let mut engine = match Engine::open(&plan, 0) {
        Ok(engine) => engine,
        Err(why) => {
            let code = why.code();
            println!(rt; "open: refused {code}")?;
            return Ok(());
        }
    };
    for act in DAY.iter() {
        play(rt, &mut engine, *act)?;
    }
    Ok(())
}

fn main(rt: HostRuntime) -> anyhow::Result<()> {
    run(&rt)
}
