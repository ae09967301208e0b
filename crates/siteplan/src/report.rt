use dayfile::record::ReadFault;
use interference::fault::ModelFault;
use interference::transmission::Transmission;
use listing::stop::{SiteFault, Stop, StopFault};
use listing::survey::PlannedSite;
use routing::fault::TreeFault;
use std::fmt;

/// Why there is no plan, in a surveyor's words: the refusal's number, what it means, and where it was found. A draft
/// that the planner made is never refused.
#[derive(Clone, Copy)]
pub struct Refusal(pub Stop);

impl fmt::Display for Refusal {
    fn fmt<W: fmt::Write>(&self, f: &mut fmt::Formatter<W>) -> fmt::Result {
        let Stop { fault, offset } = self.0;
        if let StopFault::Unplanned(fault) = fault {
            return site_refusal(fault, f);
        }
        write!(
            f,
            "refused {}: {} (byte {offset})",
            fault.code(),
            file_meaning(fault)
        )
    }
}

/// The refusal of a site whose records were read.
fn site_refusal<W: fmt::Write>(fault: SiteFault, f: &mut fmt::Formatter<W>) -> fmt::Result {
    let (meaning, counted) = match fault {
        SiteFault::Graph(fault) => (model_meaning(fault), "edge"),
        SiteFault::Routing(fault) => (tree_meaning(fault), "tree record"),
    };
    write!(f, "refused {}: {meaning}", fault.code())?;
    match fault.position() {
        Some(at) => write!(f, " ({counted} {at})"),
        None => Ok(()),
    }
}

// Functions and no Display: the faults are types of other crates, which print themselves in other words or not at all.
fn file_meaning(fault: StopFault) -> &'static str {
    match fault {
        StopFault::TooLong => "the file is longer than 16384 bytes",
        StopFault::Unreadable(ReadFault::UnknownKind) => "a record of unknown kind",
        StopFault::Unreadable(ReadFault::CutShort) => "a record is cut short",
        StopFault::Order => "records in the wrong order",
        // Neither is said of a file: nothing is listed here, and of a site it is said what is refused
        StopFault::NoRoom => "no room for the listing",
        StopFault::Unplanned(_) => "the site has no plan",
    }
}

fn model_meaning(fault: ModelFault) -> &'static str {
    match fault {
        ModelFault::NodeCount => "the number of nodes is not from 1 to 64",
        ModelFault::EdgeOutside(_) => "an edge names a node that the site does not have",
        ModelFault::Side => "the side of a cell is out of range",
        ModelFault::Coordinate(_) => "a coordinate is out of range",
    }
}

fn tree_meaning(fault: TreeFault) -> &'static str {
    match fault {
        TreeFault::Count =>
            "there is not exactly one tree record for each node but the base station",
        TreeFault::OutOfRange(_) => {
            "a tree record names a node that the site does not have, gives slots not from 1 to 4, or has the base station or its own parent as child"
        }
        TreeFault::Repeated(_) => "a tree record repeats a child",
        TreeFault::Unrooted(_) => "a tree record's child has no way to the base station",
    }
}

/// The transmissions of one step, with a comma between them.
#[derive(Clone, Copy)]
struct Step<'a>(&'a [Transmission]);

impl fmt::Display for Step<'_> {
    fn fmt<W: fmt::Write>(&self, f: &mut fmt::Formatter<W>) -> fmt::Result {
        let [first, rest @ ..] = self.0 else {
            return f.write_str("no transmission");
        };
        write!(f, "{} -> {}", first.from, first.to)?;
        for next in rest {
            write!(f, ", {} -> {}", next.from, next.to)?;
        }
        Ok(())
    }
}

/// The plan, a line for each step.
pub fn print_plan(rt: &HostRuntime, site: &PlannedSite) -> anyhow::Result<()> {
    let nodes = site.nodes;
    let length = site.plan.length();
    let distance = site.plan.distance();
    println!(rt; "site: {nodes} nodes, base station 0")?;
    println!(rt; "plan: {length} steps, minimum step distance {distance}")?;
    for step in 0..length {
        if let Ok(part) = site.plan.step(step as usize) {
            println!(rt; "step {step}: {}", Step(part))?;
        }
    }
    Ok(())
}
