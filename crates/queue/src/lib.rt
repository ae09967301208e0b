// A priority queue, over a slice or of at most N elements: what ranks first comes out first.
#![tactic(auto)]

ghost use Rattle.std.specs.Prelude.{◌≡◌, ℕ, ◌+◌, ◌-◌, ◌*◌, ◌<◌, ◌≤◌, Bool, ◌⊎◌, List, [], ◌∷◌, length, take, IfSome, MatchOption, MatchResult, OnOk, ◌==◌, slice_index_or};
ghost use Rattle.std.specs.List.Sorted.{IsPermutation};
ghost use Rattle.queue.specs.Heap.{Heap, First, Best, Rising, Sinking, Pushed, Popped};
ghost use Rattle.queue.specs.Order.{Order};
ghost use Rattle.queue.specs.Ranked.{placed, ranked};

use arrayvec::ArrayVec;
use std::marker::Model;

/// An order in which any two different values compare.
pub trait Rank: Copy {
    ghost before: { Self → Self → Bool };

    fn precedes(&self, other: &Self) -> bool
        ensures { result ≡ before self.now other.now };

    ghost order: { Order before };
}

// Whether the element at i ranks before the one at j.
fn precedes_at<T: Rank>(places: &[T], i: usize, j: usize) -> bool
    requires { (i < length places.now) × (j < length places.now) }
    ensures { (d : T) → T.before (slice_index_or places.now i d) (slice_index_or places.now j d) ≡ result }
{
    places[i].precedes(&places[j])
}

// The child of `at` that ranks first.
fn first_child<T: Rank>(places: &[T], at: usize) -> usize
    requires { at * 2 + 1 < length places.now }
    ensures child { (at * 2 + 1 ≤ result) × (result ≤ at * 2 + 2) × (result < length places.now) }
    ensures best { Best T.before places.now at result }
{
    let left = at * 2 + 1;
    let right = left + 1;
    if right == places.len() {
        return left;
    }
    if precedes_at(places, right, left) {
        right
    } else {
        left
    }
}

// Moves the element at `at` up past the parents that it ranks before.
fn sift_up<T: Rank>(places: &mut [T], mut at: usize)
    requires { at < length places.old }
    ensures shuffled { IsPermutation places.old places.new }
    ensures heaped { Rising T.before places.old at → Heap T.before places.new }
{
    while 0 < at && precedes_at(places, at, (at - 1) / 2) {
        places.swap((at - 1) / 2, at);
        at = (at - 1) / 2;
    }
}

// Moves the element at `at` down past the children that rank before it.
fn sift_down<T: Rank>(places: &mut [T], mut at: usize)
    ensures shuffled { IsPermutation places.old places.new }
    ensures heaped { Sinking T.before places.old at → Heap T.before places.new }
{
    while at < places.len() / 2 {
        let child = first_child(places, at);
        if !precedes_at(places, child, at) {
            return;
        }
        places.swap(at, child);
        at = child;
    }
}

// Takes out the first element, which in a heap is the one that ranks first, and leaves the last place free.
fn take_first<T: Rank>(places: &mut [T]) -> T
    requires { 0 < length places.old }
    ensures holds { IsPermutation places.old (result ∷ take (length places.old - 1) places.new) }
    ensures first { Heap T.before places.old → First T.before result places.old }
    ensures heaped { Heap T.before places.old → Heap T.before (take (length places.old - 1) places.new) }
{
    let last = places.len() - 1;
    let first = places[0];
    places.swap(0, last);
    sift_down(&mut places[0..last], 0);
    first
}

/// There is no place left.
#[derive(Clone, Copy, PartialEq, Eq, Debug)]
pub struct Full;

/// Puts `x` into the queue that the first `len` places hold, which then has `len + 1`.
pub fn push<T: Rank>(places: &mut [T], len: usize, x: T) -> Result<(), Full>
    ensures pushed { MatchResult result (λ _. Pushed T.before x len places.old places.new) (λ _. (length places.old ≤ len) × (places.new ≡ places.old)) }
    ensures ranked { OnOk result (ranked T.before (take (len + 1) places.new) ≡ placed T.before x (ranked T.before (take len places.old))) }
{
    if places.len() <= len {
        return Err(Full);
    }
    places[len] = x;
    sift_up(&mut places[0..len + 1], len);
    Ok(())
}

/// Takes what ranks first out of the queue that the first `len` places hold, which then has `len - 1`.
/// Nothing comes out of an empty queue, nor where there are fewer than `len` places.
pub fn pop<T: Rank>(places: &mut [T], len: usize) -> Option<T>
    ensures popped { MatchOption result (((len ≡ 0) ⊎ (length places.old < len)) × (places.new ≡ places.old)) (λ x. Popped T.before x len places.old places.new) }
    ensures ranked { IfSome result (λ x. Heap T.before (take len places.old) → ranked T.before (take len places.old) ≡ x ∷ ranked T.before (take (len - 1) places.new)) }
{
    if len == 0 || places.len() < len {
        return None;
    }
    Some(take_first(&mut places[0..len]))
}

/// Whether the queue that the first `len` places hold has no element.
pub fn is_empty<T: Rank>(places: &[T], len: usize) -> bool
    ensures { result ≡ (length (take len places.now) == 0) }
{
    len.min(places.len()) == 0
}

/// A queue of at most `N` elements. Clauses see them in the order in which they come out.
#[derive(Drop)]
pub struct Queue<T: Rank, const N: usize> {
    places: ArrayVec<T, N>,
}

impl<T: Rank, const N: usize> Model for Queue<T, N> {
    ghost Value = { List T };

    ghost view = { λ q. ranked T.before q.places.items };

    ghost invariant = { λ q. Heap T.before q.places.items };
}

impl<T: Rank + Default, const N: usize> Queue<T, N> {
    /// A queue without elements.
    pub fn new() -> Self
        ensures { result ≡ [] }
    {
        Queue {
            places: ArrayVec::new(),
        }
    }

    /// Takes out what ranks first, if there is an element.
    pub fn pop(&mut self) -> Option<T>
        ensures { MatchOption result ((self.old ≡ []) × (self.new ≡ [])) (λ x. (self.old ≡ x ∷ self.new) × First T.before x self.new) }
    {
        let first = self.places.swap_pop(0)?;
        sift_down(self.places.as_mut_slice(), 0);
        Some(first)
    }
}

impl<T: Rank, const N: usize> Queue<T, N> {
    /// Puts `x` in its place among the elements, if there is room.
    pub fn push(&mut self, x: T) -> Result<(), Full>
        ensures { MatchResult result (λ _. (length self.old < N) × (self.new ≡ placed T.before x self.old)) (λ _. (length self.old ≡ N) × (self.new ≡ self.old)) }
    {
        let last = self.places.len();
        if last == N {
            return Err(Full);
        }
        self.places.push(x);
        sift_up(self.places.as_mut_slice(), last);
        Ok(())
    }

    /// Whether there is no element.
    pub fn is_empty(&self) -> bool
        ensures { result ≡ (length self.now == 0) }
    {
        self.places.is_empty()
    }
}
