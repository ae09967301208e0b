// Two kinds of element that a queue holds, and the order in which they come out.
#![tactic(auto)]

ghost use Rattle.queue_tests.specs.Ranks.{sooner, deeper};
ghost use Rattle.std.proofs.Common.{rules};

use queue::Rank;
use std::cmp::Reverse;

// Two types as engine and planner have them, which stand above this crate.

/// Waits for its turn: the smaller priority goes first, then the smaller number.
#[derive(Clone, Copy, Default, PartialEq, Eq, PartialOrd, Ord, Debug)]
pub struct Waiting {
    pub priority: u8,
    pub number: u32,
}

impl Rank for Waiting {
    ghost before = { sooner };

    ghost order = { Prim.search rules };

    fn precedes(&self, other: &Waiting) -> bool {
        self < other
    }
}

/// May transmit next: the deeper node goes first, then the smaller one.
#[derive(Clone, Copy, Default, PartialEq, Eq, PartialOrd, Ord, Debug)]
pub struct Candidate {
    pub depth: Reverse<u8>,
    pub node: u8,
}

impl Rank for Candidate {
    ghost before = { deeper };

    ghost order = { Prim.search rules };

    fn precedes(&self, other: &Candidate) -> bool {
        self < other
    }
}

#[cfg(test)]
mod tests {
    use super::*;
    use queue::{Full, Queue, is_empty, pop, push};
    use std::test::Fail;

    fn waiting(priority: u8, number: u32) -> Waiting {
        Waiting { priority, number }
    }

    fn candidate(depth: u8, node: u8) -> Candidate {
        Candidate {
            depth: Reverse(depth),
            node,
        }
    }

    #[test]
    fn smallest_priority_then_number_comes_first(rt: HostRuntime) -> Result<(), Fail> {
        let mut queue = Queue::<Waiting, 4>::new();
        queue.push(waiting(2, 1))?;
        queue.push(waiting(1, 7))?;
        queue.push(waiting(2, 0))?;
        queue.push(waiting(1, 5))?;
        assert_eq!(rt; queue.pop(), Some(waiting(1, 5)));
        assert_eq!(rt; queue.pop(), Some(waiting(1, 7)));
        assert_eq!(rt; queue.pop(), Some(waiting(2, 0)));
        assert_eq!(rt; queue.pop(), Some(waiting(2, 1)));
        assert_eq!(rt; queue.pop(), None);
        Ok(())
    }

    #[test]
    fn deepest_then_smallest_node_comes_first(rt: HostRuntime) -> Result<(), Fail> {
        let mut queue = Queue::<Candidate, 6>::new();
        queue.push(candidate(1, 4))?;
        queue.push(candidate(3, 9))?;
        queue.push(candidate(2, 2))?;
        assert_eq!(rt; queue.pop(), Some(candidate(3, 9)));
        queue.push(candidate(2, 1))?;
        queue.push(candidate(1, 3))?;
        assert_eq!(rt; queue.pop(), Some(candidate(2, 1)));
        assert_eq!(rt; queue.pop(), Some(candidate(2, 2)));
        assert_eq!(rt; queue.pop(), Some(candidate(1, 3)));
        assert_eq!(rt; queue.pop(), Some(candidate(1, 4)));
        Ok(())
    }

    #[test]
    fn full_queue_refuses_and_keeps_its_elements(rt: HostRuntime) -> Result<(), Fail> {
        let mut queue = Queue::<Waiting, 2>::new();
        queue.push(waiting(5, 0))?;
        queue.push(waiting(6, 0))?;
        assert_eq!(rt; queue.push(waiting(1, 0)), Err(Full));
        assert_eq!(rt; queue.push(waiting(1, 0)), Err(Full));
        assert_eq!(rt; queue.pop(), Some(waiting(5, 0)));
        assert_eq!(rt; queue.pop(), Some(waiting(6, 0)));
        assert_eq!(rt; queue.pop(), None);
        Ok(())
    }

    #[test]
    fn nothing_comes_out_of_an_empty_queue(rt: HostRuntime) -> Result<(), Fail> {
        let mut queue = Queue::<Candidate, 2>::new();
        assert_eq!(rt; queue.pop(), None);
        assert!(rt; queue.is_empty());
        queue.push(candidate(7, 1))?;
        assert!(rt; !queue.is_empty());
        queue.push(candidate(6, 1))?;
        assert_eq!(rt; queue.pop(), Some(candidate(7, 1)));
        assert_eq!(rt; queue.pop(), Some(candidate(6, 1)));
        assert_eq!(rt; queue.pop(), None);
        Ok(())
    }

    #[test]
    fn nothing_goes_into_a_queue_without_places(rt: HostRuntime) {
        let mut queue = Queue::<Candidate, 0>::new();
        assert_eq!(rt; queue.push(candidate(7, 1)), Err(Full));
        assert_eq!(rt; queue.pop(), None);
        assert!(rt; queue.is_empty());
    }

    #[test]
    fn smallest_priority_then_number_comes_first_of_places(rt: HostRuntime) -> Result<(), Fail> {
        let mut places = [waiting(0, 0); 4];
        push(&mut places, 0, waiting(2, 1))?;
        push(&mut places, 1, waiting(1, 7))?;
        push(&mut places, 2, waiting(2, 0))?;
        push(&mut places, 3, waiting(1, 5))?;
        assert_eq!(rt; pop(&mut places, 4), Some(waiting(1, 5)));
        assert_eq!(rt; pop(&mut places, 3), Some(waiting(1, 7)));
        assert_eq!(rt; pop(&mut places, 2), Some(waiting(2, 0)));
        assert_eq!(rt; pop(&mut places, 1), Some(waiting(2, 1)));
        assert_eq!(rt; pop(&mut places, 0), None);
        Ok(())
    }

    #[test]
    fn deepest_then_smallest_node_comes_first_of_places(rt: HostRuntime) -> Result<(), Fail> {
        let mut places = [candidate(0, 0); 6];
        push(&mut places, 0, candidate(1, 4))?;
        push(&mut places, 1, candidate(3, 9))?;
        push(&mut places, 2, candidate(2, 2))?;
        assert_eq!(rt; pop(&mut places, 3), Some(candidate(3, 9)));
        push(&mut places, 2, candidate(2, 1))?;
        push(&mut places, 3, candidate(1, 3))?;
        assert_eq!(rt; pop(&mut places, 4), Some(candidate(2, 1)));
        assert_eq!(rt; pop(&mut places, 3), Some(candidate(2, 2)));
        assert_eq!(rt; pop(&mut places, 2), Some(candidate(1, 3)));
        assert_eq!(rt; pop(&mut places, 1), Some(candidate(1, 4)));
        Ok(())
    }

    #[test]
    fn full_places_refuse_and_stay(rt: HostRuntime) -> Result<(), Fail> {
        let mut places = [waiting(9, 9); 2];
        push(&mut places, 0, waiting(5, 0))?;
        push(&mut places, 1, waiting(6, 0))?;
        assert_eq!(rt; push(&mut places, 2, waiting(1, 0)), Err(Full));
        assert_eq!(rt; push(&mut places, 3, waiting(1, 0)), Err(Full));
        assert_eq!(rt; places, [waiting(5, 0), waiting(6, 0)]);
        Ok(())
    }

    #[test]
    fn nothing_comes_out_of_places_of_no_queue(rt: HostRuntime) {
        let mut places = [candidate(7, 1), candidate(6, 1)];
        assert_eq!(rt; pop(&mut places, 0), None);
        assert_eq!(rt; pop(&mut places, 3), None);
        assert_eq!(rt; places, [candidate(7, 1), candidate(6, 1)]);
        assert!(rt; is_empty(&places, 0));
        assert!(rt; !is_empty(&places, 1));
        assert!(rt; is_empty(&places[0..0], 5));
    }
}
