//! The worked examples of the rules, in one table.
#![tactic(auto)]

ghost use Rattle.examples.specs.Examples.{Worked};

/// The worked examples of models, trees, plans and engines come out as they should.
pub fn examples_hold() -> u8
    ensures { Worked }
{
    0
}
