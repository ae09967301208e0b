use crate::drawn::source::{Source, low_word};
use dayfile::record::Record;
use std::alloc::AllocError;

/// Draws the records that follow a site.
#[derive(Clone, Copy)]
pub struct Day {
    /// At least the length of the site's plan.
    scale: u32,
    /// The least period of an ordinary query: the shorter, the more queries are refused.
    base: u32,
    /// The queries asked for so far; no query has a higher number.
    asked: u32,
}

#[derive(Clone, Copy)]
struct Terms {
    period: u32,
    deadline: u32,
}

impl Day {
    pub fn draw(source: &mut Source, scale: u32) -> Day {
        let slack = match source.below(4) {
            0 => 3,
            1 => 6,
            2 => 12,
            _ => 40,
        };
        let base = if source.one_in(64) {
            30_000
        } else {
            scale.saturating_mul(slack).min(30_000)
        };
        Day {
            scale,
            base,
            asked: 0,
        }
    }

    fn period(&self, source: &mut Source) -> u32 {
        self.base.saturating_add(source.below(self.base))
    }

    /// Terms that no engine takes.
    fn faulty_terms(&self, source: &mut Source) -> Terms {
        match source.below(4) {
            0 => Terms {
                period: 0,
                deadline: 0,
            },
            1 => Terms {
                period: self.base,
                deadline: self.base.saturating_add(1).saturating_add(source.below(9)),
            },
            2 => {
                let period = source.below(5_535).saturating_add(60_001);
                let deadline = source.below(100).saturating_add(1);
                Terms { period, deadline }
            }
            _ => Terms {
                period: source.below(5_535).saturating_add(60_001),
                deadline: 0,
            },
        }
    }

    /// A deadline that the query itself will often miss.
    fn tight_terms(&self, source: &mut Source) -> Terms {
        let period = self.period(source);
        let most = self.scale.saturating_mul(3).min(period);
        let deadline = source.below(most).saturating_add(1);
        Terms { period, deadline }
    }

    fn ordinary_terms(&self, source: &mut Source) -> Terms {
        let period = self.period(source);
        let cut = match source.below(3) {
            0 => period,
            1 => source.below(period / 2),
            _ => source.below(period / 8),
        };
        Terms {
            period,
            deadline: period.saturating_sub(cut),
        }
    }

    /// So short a period that queries after it miss their deadlines.
    fn pressing_query(&self, source: &mut Source) -> Record {
        let priority = source.byte(4);
        let period = self.scale.saturating_add(source.below(self.scale));
        Record::Query {
            priority,
            period: low_word(period),
            deadline: 0,
        }
    }

    fn query(&mut self, source: &mut Source) -> Record {
        self.asked = self.asked.saturating_add(1);
        let how = source.below(16);
        if how == 2 {
            return self.pressing_query(source);
        }
        let priorities = if source.one_in(2) { 256 } else { 10 };
        let priority = source.byte(priorities);
        // One of three ways by the number drawn: closures would say the same.
        let terms = match how {
            0 => self.faulty_terms(source),
            1 => self.tight_terms(source),
            _ => self.ordinary_terms(source),
        };
        Record::Query {
            priority,
            period: low_word(terms.period),
            deadline: low_word(terms.deadline),
        }
    }

    /// A number that a query mostly has, since the first are asked for while there is room.
    fn number(&self, source: &mut Source) -> u32 {
        if source.one_in(32) {
            return source.below(1 << 31).saturating_mul(2);
        }
        if source.one_in(3) {
            return source.below(self.asked.saturating_add(2));
        }
        source.below(self.asked.min(10)).saturating_add(1)
    }

    fn run(&self, source: &mut Source) -> Record {
        let slots = match source.below(8) {
            0 => source.below(2),
            1..=3 => source.below(self.scale).saturating_add(1),
            4..=5 => source
                .below(self.base.saturating_mul(2).min(600))
                .saturating_add(1),
            6 => source.below(300),
            _ => {
                let most = if source.one_in(40) { 65_536 } else { 40 };
                source.below(most)
            }
        };
        Record::Run {
            slots: low_word(slots),
        }
    }

    pub fn release(&self, source: &mut Source) -> Record {
        Record::Release {
            number: self.number(source),
        }
    }

    pub fn act(&mut self, source: &mut Source) -> Record {
        match source.below(20) {
            0..=8 => self.release(source),
            9..=10 => Record::Close {
                number: self.number(source),
            },
            11..=12 => self.query(source),
            _ => self.run(source),
        }
    }

    /// An act for long files: hardly a query, and short runs, so that their many records take little time.
    pub fn short_act(&mut self, source: &mut Source) -> Record {
        match source.below(256) {
            0..=1 => self.query(source),
            2 => Record::Close {
                number: self.number(source),
            },
            3..=128 => self.release(source),
            _ => Record::Run {
                slots: source.word(8),
            },
        }
    }

    fn bookings(
        &mut self,
        source: &mut Source,
        count: u32,
        records: &mut Vec<Record>,
    ) -> Result<(), AllocError> {
        for _ in 0..count {
            records.push(self.query(source))?;
            if source.one_in(8) {
                records.push(Record::Run {
                    slots: source.word(self.scale),
                })?;
            }
        }
        Ok(())
    }

    pub fn records(
        &mut self,
        source: &mut Source,
        bookings: u32,
        acts: u32,
    ) -> Result<Vec<Record>, AllocError> {
        let mut records = Vec::new(source.heap);
        self.bookings(source, bookings, &mut records)?;
        for _ in 0..acts {
            records.push(self.act(source))?;
        }
        Ok(records)
    }
}
