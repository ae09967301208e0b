ghost use Rattle.engine.specs.Admissions.{Admitted, admit_refusal};
ghost use Rattle.rules.specs.Rows.{booked_row};

use crate::terms::Terms;
use crate::trial::TrialPlace;
use crate::waits::Queries;
use rules::phase::Phase;
use rules::refusal::Refusal;
use rules::row::Row;

impl Queries<'_> {
    /// The booked row of a query that is asked for, if every query keeps its deadline with it.
    pub(crate) fn admit(&self, next: u32, asked: TrialPlace) -> Result<Row, Refusal>
        ensures { Admitted (booked_row next asked.priority asked.period asked.deadline) (admit_refusal self.now.steps self.now.distance next self.now.rows.now (booked_row next asked.priority asked.period asked.deadline)) result }
    {
        let terms = Terms::new(asked.period, asked.deadline).ok_or(Refusal::Terms)?;
        if next > 1_000_000 {
            return Err(Refusal::Numbers);
        }
        if self.rows.len() >= 32 {
            return Err(Refusal::TableFull);
        }
        let row = Row {
            number: next,
            priority: asked.priority,
            period: terms.period(),
            deadline: terms.deadline(),
            earliest: 0,
            phase: Phase::Booked,
        };
        let queries = Queries {
            steps: self.steps,
            distance: self.distance,
            rows: self.rows,
            extra: Some(row),
        };
        match queries.first_late() {
            Some(late) => Err(Refusal::Deadline(late.number)),
            None => Ok(row),
        }
    }
}
