//! A binary tree of comparisons between the leaves of a revision tree, which finds the winner.
ghost use Rattle.std.specs.Prelude.{◌≡◌, ◌+◌, ◌/◌, ◌<◌, ◌≤◌, ◌^◌, [], true, IfSome, length};
ghost use Rattle.rev_tree.specs.Tournament.{IsBestLeaf, IsEntry, IsHeld, IsPlayed, IsWinnerOf};

use crate::node::Node;
use crate::winner::goes_before;
use std::alloc::Global;

/// A comparison tree: the winners of comparisons between the leaves of a revision tree. Each comparison uses the order
/// that decides the winning revision.
///
/// Comparison `i` is between the leaves at the indexes `2 * i` and `2 * i + 1`. Comparison 1 gives the winner of all
/// leaves. The winner of comparison `i` is the leaf at index `i` of the comparison tree. If node `n` was entered and is
/// a leaf, the leaf has the index `winners.len() + n` in the comparison tree.
///
/// The winner of a comparison is stored as the index of the winner's node, counted from 1. If a comparison has no leaf,
/// the number 0 is stored. When the stored winner of a comparison gets a child, the winner's index stays stored until
/// the comparison is repeated.
#[derive(Drop)]
pub(crate) struct Tournament {
    winners: Vec<u32>,
    /// The number of nodes that were entered into the comparison tree.
    entered: usize,
}

impl Tournament {
    /// Creates a comparison tree without nodes, which takes no memory.
    pub(crate) fn new(alloc: Global) -> Tournament
        ensures winners { result.winners.items ≡ [] }
        ensures entered { result.entered ≡ 0 }
    {
        Tournament {
            winners: Vec::new(alloc),
            entered: 0,
        }
    }

    /// Returns the index of the winning leaf's node. The call first enters the nodes that the comparison tree lacks.
    ///
    /// Returns `None` if an allocation fails or the comparison tree finds no winner. If the result is `None`, the
    /// caller must scan the nodes.
    pub(crate) fn first(&mut self, nodes: &[Node]) -> Option<usize>
        requires few { length nodes.now < 2 ^ 32 }
        requires played { IsPlayed nodes.now self.old.winners.items self.old.entered 0 }
        ensures played { IsPlayed nodes.now self.new.winners.items self.new.entered 0 }
        ensures first { IfSome result (λ place. IsBestLeaf nodes.now place) }
    {
        if !self.enter_all(nodes) {
            return None;
        }
        for _ in 0..nodes.len() {
            let winner = self.winners[1] as usize;
            if winner == 0 {
                return None;
            }
            if !nodes[winner - 1].has_child() {
                return Some(winner - 1);
            }
            self.replay(nodes, winner - 1);
        }
        None
    }

    /// Enters all nodes that the comparison tree lacks. Returns true if the comparison tree has all nodes, and false if
    /// an allocation fails or a leaf has no content.
    fn enter_all(&mut self, nodes: &[Node]) -> bool
        requires few { length nodes.now < 2 ^ 32 }
        requires played { IsPlayed nodes.now self.old.winners.items self.old.entered 0 }
        ensures played { IsPlayed nodes.now self.new.winners.items self.new.entered 0 }
        ensures all { result ≡ true → self.new.entered ≡ length nodes.now }
        ensures matches { result ≡ true → 2 ≤ length self.new.winners.items }
    {
        if !self.make_matches(nodes) {
            return false;
        }
        for place in self.entered..nodes.len() {
            if nodes[place].has_child() {
                self.entered = place + 1;
            } else if nodes[place].content().is_some() {
                self.entered = place + 1;
                self.replay(nodes, place);
            } else {
                return false;
            }
        }
        true
    }

    /// Makes space for all nodes in the comparison tree. The call starts an empty comparison tree if the list of
    /// winners has fewer than two elements or is shorter than the list of nodes. The new list has `2 * nodes.len() + 2`
    /// elements. Returns true if the comparison tree has space for all nodes, and false if an allocation fails.
    fn make_matches(&mut self, nodes: &[Node]) -> bool
        requires few { length nodes.now < 2 ^ 32 }
        requires played { IsPlayed nodes.now self.old.winners.items self.old.entered 0 }
        ensures played { IsPlayed nodes.now self.new.winners.items self.new.entered 0 }
        ensures all { result ≡ true → length nodes.now ≤ length self.new.winners.items }
        ensures matches { result ≡ true → 2 ≤ length self.new.winners.items }
    {
        let len = self.winners.as_slice().len();
        if len >= 2 && nodes.len() <= len {
            return true;
        }
        let Ok(winners) = vec![in *self.winners.allocator(); 0u32; 2 * nodes.len() + 2] else {
            return false;
        };
        self.winners = winners;
        self.entered = 0;
        true
    }

    /// Repeats all comparisons that involve the node at index `place`, from the node's first comparison up to
    /// comparison 1.
    fn replay(&mut self, nodes: &[Node], place: usize)
        requires few { length nodes.now < 2 ^ 32 }
        requires place { place < self.old.entered }
        requires played { IsPlayed nodes.now self.old.winners.items self.old.entered
            ((length self.old.winners.items + place) / 2) }
        ensures played { IsPlayed nodes.now self.new.winners.items self.new.entered 0 }
        ensures entered { self.new.entered ≡ self.old.entered }
        ensures matches { length self.new.winners.items ≡ length self.old.winners.items }
    {
        let mut at = (self.winners.as_slice().len() + place) / 2;
        while at > 0 {
            self.play(nodes, at);
            at /= 2;
        }
    }

    /// Repeats the comparison with index `at`.
    fn play(&mut self, nodes: &[Node], at: usize)
        requires few { length nodes.now < 2 ^ 32 }
        requires between { (0 < at) × (at < length self.old.winners.items) }
        requires played { IsPlayed nodes.now self.old.winners.items self.old.entered at }
        ensures played { IsPlayed nodes.now self.new.winners.items self.new.entered (at / 2) }
        ensures entered { self.new.entered ≡ self.old.entered }
        ensures matches { length self.new.winners.items ≡ length self.old.winners.items }
    {
        let one = self.player(nodes, 2 * at);
        let other = self.player(nodes, 2 * at + 1);
        self.winners[at] = better(nodes, one, other);
    }

    /// Returns the leaf at an index of the comparison tree. The result is the index of the leaf's node, counted from 1,
    /// or 0 if there is no leaf.
    fn player(&self, nodes: &[Node], at: usize) -> u32
        requires few { length nodes.now < 2 ^ 32 }
        requires held { IsHeld nodes.now self.now.winners.items self.now.entered }
        ensures { IsEntry nodes.now self.now.winners.items self.now.entered at result }
    {
        let len = self.winners.as_slice().len();
        if at < len {
            return self.winners[at];
        }
        let place = at - len;
        if place < self.entered && !nodes[place].has_child() {
            return place as u32 + 1;
        }
        0
    }
}

/// Compares two leaves, and returns the winner. Each leaf is given as the index of its node, counted from 1. The number
/// 0 means that a leaf is missing.
fn better(nodes: &[Node], one: u32, other: u32) -> u32
    requires one { one ≤ length nodes.now }
    requires other { other ≤ length nodes.now }
    ensures { IsWinnerOf nodes.now one other result }
{
    if other == 0 {
        return one;
    }
    if one == 0 {
        return other;
    }
    if goes_before(&nodes[other as usize - 1], Some(&nodes[one as usize - 1])) {
        other
    } else {
        one
    }
}
