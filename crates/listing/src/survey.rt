// The site that a day file describes: its nodes, edge and tree records, and the plan that they give.
ghost use Rattle.std.specs.Prelude.{◌≡◌, ◌+◌, ◌≤◌, length, Some, None, Ok, Err, MatchResult};
ghost use Rattle.listing.specs.Sites.{bare, planned, planned_site, site_fault};
ghost use Rattle.listing.specs.Surveys.{NodesRead, Planned, Roomy, SiteRead, site_of};
ghost use Rattle.plan.specs.Plans.{plan_of};

use crate::listing::FILE_LIMIT;
use crate::records::Records;
use crate::stop::{SiteFault, Stop, StopFault};
use arrayvec::ArrayVec;
use dayfile::record::Record;
use interference::graph::{Edge, GraphModel};
use plan::approved::ApprovedPlan;
use planning::make_plan;
use routing::link::TreeLink;

/// An edge record takes three bytes and a tree record four, so no file has more of them.
const EDGES: usize = 5461;

const LINKS: usize = 4096;

/// The site of a day file: how many nodes it has, and its plan.
#[derive(Drop)]
pub struct PlannedSite {
    pub nodes: u8,
    pub plan: ApprovedPlan,
}

/// The records of a site, in the file's order.
#[derive(Drop)]
struct Survey {
    count: u8,
    edges: ArrayVec<Edge, EDGES>,
    links: ArrayVec<TreeLink, LINKS>,
}

impl Survey {
    /// A site of so many nodes, and no records yet.
    fn new(count: u8) -> Survey
        ensures { site_of result ≡ bare count }
    {
        Survey {
            count,
            edges: ArrayVec::new(),
            links: ArrayVec::new(),
        }
    }

    /// Notes the records up to the first of the day or the end, and answers those from there on.
    fn read<'a>(&mut self, records: Records<'a>) -> Result<Records<'a>, Stop>
        requires { Roomy self.old records }
        ensures { SiteRead self.old self.new records.entry result }
    {
        let mut rest = records;
        while let Some((said, after)) = rest.next()? {
            match said {
                Record::Edge { from, to } => self.edges.push(Edge { from, to }),
                Record::Tree {
                    child,
                    parent,
                    slots,
                } => self.links.push(TreeLink {
                    child,
                    parent,
                    slots,
                }),
                Record::Nodes { count: _ } => return Err(rest.stop(StopFault::Order)),
                _ => return Ok(rest),
            }
            rest = after;
        }
        Ok(rest)
    }

    /// The plan of the site, or why it has none.
    fn plan(&self) -> Result<ApprovedPlan, SiteFault>
        ensures { MatchResult result (λ p. (site_fault (site_of self.now) ≡ None) × (plan_of p ≡ planned (site_of self.now))) (λ f. site_fault (site_of self.now) ≡ Some f) }
    {
        let model = GraphModel::from_edges(self.count, self.edges.as_slice())?;
        let mut plan = ApprovedPlan::new();
        make_plan(&mut plan, self.links.as_slice(), &model)?;
        Ok(plan)
    }
}

/// The number of nodes that the first record gives, and the records after it.
fn first_nodes(records: Records<'_>) -> Result<(u8, Records<'_>), Stop>
    ensures { NodesRead records.entry result }
{
    let Some((said, rest)) = records.next()? else {
        return Err(records.stop(StopFault::Order));
    };
    match said {
        Record::Nodes { count } => Ok((count, rest)),
        _ => Err(records.stop(StopFault::Order)),
    }
}

/// Reads the site of a file and plans it; answers the records from the first of the day on.
pub(crate) fn plan_site(file: &[u8]) -> Result<(PlannedSite, Records<'_>), Stop>
    ensures { Planned file.now result }
{
    if file.len() > FILE_LIMIT {
        return Err(Stop {
            fault: StopFault::TooLong,
            offset: 0,
        });
    }
    let (nodes, records) = first_nodes(Records::all(file))?;
    let mut survey = Survey::new(nodes);
    let day = survey.read(records)?;
    let offset = day.offset();
    let plan = survey.plan().map_err(|fault| Stop {
        fault: StopFault::Unplanned(fault),
        offset,
    })?;
    Ok((PlannedSite { nodes, plan }, day))
}

/// The site of a day file, or where its listing stops before the day begins, and why.
pub fn planned_site(file: &[u8]) -> Result<PlannedSite, Stop>
    ensures { MatchResult result (λ s. planned_site file.now ≡ Ok (s.nodes, plan_of s.plan)) (λ stop. planned_site file.now ≡ Err stop) }
{
    let (site, _) = plan_site(file)?;
    Ok(site)
}
