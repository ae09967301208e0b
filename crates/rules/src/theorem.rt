ghost use Rattle.rules.specs.Examples.{Worked};
ghost use Rattle.rules.specs.Laws.{Admission, LinesFit, TrialSame, WaitAnswered, WaitFound, WaitLeast};
ghost use Rattle.rules.specs.Promise.{Promised};

/// Every run of an engine over a plan that fits keeps the promise: no conflicting transmissions in a slot, every
/// round in time and exactly once, and no query more than its share.
pub fn promise_holds() -> u8
    ensures { Promised }
{
    0
}

/// The longest wait is the least solution, admission names exactly the first query in rank that would not keep its
/// deadline, and the lines of a slot fit into the shortest list that is accepted.
pub fn laws_hold() -> u8
    ensures least { WaitLeast }
    ensures found { WaitFound }
    ensures admission { Admission }
    ensures trial { TrialSame }
    ensures answered { WaitAnswered }
    ensures lines { LinesFit }
{
    0
}

/// The worked examples come out as they should.
pub fn examples_hold() -> u8
    ensures { Worked }
{
    0
}
