ghost use Rattle.std.specs.Prelude.{◌≡◌};
ghost use Rattle.engine.specs.Trials.{nothing};

/// A query that is asked for: its priority, period and deadline, as plain numbers; all 0 where none is.
#[derive(Clone, Copy, Default, PartialEq, Eq, Debug)]
pub(crate) struct TrialPlace {
    pub(crate) priority: u8,
    pub(crate) period: u32,
    pub(crate) deadline: u32,
}

/// Holds the trial place while a query is tried, and empties it when the trial ends, however it ends.
pub(crate) struct TrialGuard<'a>(pub(crate) &'a mut TrialPlace);

impl Drop for TrialGuard<'_> {
    fn drop(self)
        ensures { self.exit.0.now ≡ nothing }
    {
        *self.0 = TrialPlace::default();
        let TrialGuard(_) = self;
    }
}
