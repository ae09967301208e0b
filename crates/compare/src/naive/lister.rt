use crate::ending::Stop;
use crate::naive::fault::{Fault, Halt};
use crate::naive::page::Page;
use crate::naive::reading::read;
use crate::naive::scheduler::{Engine, Failure, Refusal};
use crate::naive::site::Site;
use crate::naive::steps::make_plan;
use crate::survey::{Edge, Link};
use dayfile::record::Record;
use std::alloc::{AllocError, Global};

/// The most bytes that a day file has. Written here again: this scheduler takes nothing from the product but records.
const LIMIT: usize = 16_384;

/// A whole listing.
#[derive(Drop)]
pub struct Listed {
    pub text: Vec<u8>,
    pub stop: Option<Stop>,
}

#[derive(Drop)]
struct Lister {
    heap: Global,
    page: Page,
    /// From the nodes record on.
    site: Option<Site>,
    /// From the plan on.
    engine: Option<Engine>,
}

impl Lister {
    fn list(&mut self, file: &[u8]) -> Result<(), Halt> {
        if file.len() > LIMIT {
            return Err(Halt::Stopped(Fault::TooLong, 0));
        }
        let mut offset = 0usize;
        // Each turn takes bytes, so there are no more turns than bytes.
        for _ in 0..file.len() {
            if offset >= file.len() {
                break;
            }
            offset = offset.saturating_add(self.take(offset, file.get(offset..).unwrap_or(&[]))?);
        }
        self.open_engine(file.len())
    }

    /// Carries out the record at the front of the bytes, and answers its size.
    fn take(&mut self, offset: usize, bytes: &[u8]) -> Result<usize, Halt> {
        let reading = read(bytes).map_err(|fault| Halt::Stopped(fault, offset))?;
        match reading.record {
            Record::Nodes { count } => self.set_nodes(offset, count)?,
            Record::Edge { from, to } => {
                self.open_site(offset)?.edges.push(Edge { from, to })?;
            }
            Record::Tree {
                child,
                parent,
                slots,
            } => {
                let link = Link {
                    child,
                    parent,
                    slots,
                };
                self.open_site(offset)?.tree.push(link)?;
            }
            act => {
                self.open_engine(offset)?;
                self.carry_out(offset, act)?;
            }
        }
        Ok(reading.size)
    }

    fn set_nodes(&mut self, offset: usize, count: u8) -> Result<(), Halt> {
        if self.site.is_some() {
            return Err(Halt::Stopped(Fault::Order, offset));
        }
        self.site = Some(Site::new(self.heap, count));
        Ok(())
    }

    /// The site, as long as records may be added to it.
    fn open_site(&mut self, offset: usize) -> Result<&mut Site, Halt> {
        if self.engine.is_some() {
            return Err(Halt::Stopped(Fault::Order, offset));
        }
        self.site
            .as_mut()
            .ok_or(Halt::Stopped(Fault::Order, offset))
    }

    /// Makes the plan unless it is made.
    fn open_engine(&mut self, offset: usize) -> Result<(), Halt> {
        if self.engine.is_some() {
            return Ok(());
        }
        let Some(site) = &self.site else {
            return Err(Halt::Stopped(Fault::Order, offset));
        };
        site.check()
            .map_err(|fault| Halt::Stopped(Fault::Unplanned(fault), offset))?;
        let plan = make_plan(self.heap, site)?;
        let length = plan.length;
        let distance = plan.distance;
        let line = format!(in self.heap; "PLAN {length} {distance}\n")?;
        self.page.write(offset, line.as_str())?;
        self.engine = Some(Engine::open(self.heap, plan));
        Ok(())
    }

    fn carry_out(&mut self, offset: usize, act: Record) -> Result<(), Halt> {
        let Some(engine) = &mut self.engine else {
            return Ok(());
        };
        let refused = match act {
            Record::Release { number } => engine.release(number),
            Record::Close { number } => engine.close(number),
            Record::Query {
                priority,
                period,
                deadline,
            } => return self.ask(offset, priority, period, deadline),
            Record::Run { slots } => return self.run(offset, slots),
            // These went to the site.
            Record::Nodes { .. } | Record::Edge { .. } | Record::Tree { .. } => Ok(()),
        };
        match refused {
            Ok(()) => Ok(()),
            Err(refusal) => self.refuse(offset, refusal),
        }
    }

    fn ask(&mut self, offset: usize, priority: u8, period: u16, deadline: u16) -> Result<(), Halt> {
        let Some(engine) = &mut self.engine else {
            return Ok(());
        };
        let deadline = if deadline == 0 { period } else { deadline };
        match engine.accept(priority, u64::from(period), u64::from(deadline)) {
            Ok(accepted) => {
                let number = accepted.number;
                let wait = accepted.wait;
                let line = format!(in self.heap; "QUERY {number} {wait}\n")?;
                self.page.write(offset, line.as_str())
            }
            Err(Failure::Refused(refusal)) => self.refuse(offset, refusal),
            Err(Failure::Memory) => Err(Halt::Memory),
        }
    }

    fn run(&mut self, offset: usize, slots: u16) -> Result<(), Halt> {
        let Some(engine) = &mut self.engine else {
            return Ok(());
        };
        for _ in 0..slots {
            let slot = engine.slot();
            if let Some(number) = engine.run_slot() {
                let line = format!(in self.heap; "START {slot} {number}\n")?;
                self.page.write(offset, line.as_str())?;
            }
        }
        Ok(())
    }

    fn refuse(&mut self, offset: usize, refusal: Refusal) -> Result<(), Halt> {
        let code = refusal.code();
        let line = match refusal {
            Refusal::Late(number) => format!(in self.heap; "NO {code} {offset} {number}\n")?,
            _ => format!(in self.heap; "NO {code} {offset}\n")?,
        };
        self.page.write(offset, line.as_str())
    }
}

/// Lists a file into so many bytes.
pub fn list(heap: Global, file: &[u8], room: usize) -> Result<Listed, AllocError> {
    let mut lister = Lister {
        heap,
        page: Page::new(heap, room),
        site: None,
        engine: None,
    };
    let stop = match lister.list(file) {
        Ok(()) => None,
        Err(Halt::Stopped(fault, offset)) => Some(fault.at(offset)),
        Err(Halt::Memory) => return Err(AllocError),
    };
    Ok(Listed {
        text: lister.page.text,
        stop,
    })
}
