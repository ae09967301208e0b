ghost use Rattle.std.specs.Prelude.{◌≡◌, ◌≤◌, is_some, IfSome};
ghost use Rattle.rules.specs.Rules.{fair};

/// How often a query is released at most, and by when a round of it ends.
#[derive(Clone, Copy)]
pub struct Terms {
    period: u32,
    deadline: u32,
    ghost due: { 1 ≤ deadline },
    ghost within: { deadline ≤ period },
    ghost short: { period ≤ 60000 },
}

impl Terms {
    /// Terms from any numbers, if 1 ≤ deadline ≤ period ≤ 60,000.
    pub fn new(period: u32, deadline: u32) -> Option<Terms>
        ensures test { is_some result ≡ fair period deadline }
        ensures terms { IfSome result (λ t. (t.period ≡ period) × (t.deadline ≡ deadline)) }
    {
        if 1 <= deadline && deadline <= period && period <= 60_000 {
            Some(Terms { period, deadline })
        } else {
            None
        }
    }

    /// The least number of slots between two releases.
    pub fn period(&self) -> u32
        ensures { result ≡ self.now.period }
    {
        self.period
    }

    /// The number of slots in which a round ends, from its release on.
    pub fn deadline(&self) -> u32
        ensures { result ≡ self.now.deadline }
    {
        self.deadline
    }
}
