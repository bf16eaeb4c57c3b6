//! A row of places of which the first that is set is found in few steps.

ghost use Rattle.std.specs.Prelude.{◌≡◌, ◌≢◌, ℕ, ◌+◌, ◌*◌, ◌^◌, ◌<◌, ◌≤◌, true, false, length, if◌then◌else◌, IfOk, IfSome, IfNone};
ghost use Rattle.pending_set.specs.Tree.{node_at, is_set, IsTree, IsTreeBut, IsFirst, IsFirstSet, NoneSet};

use rx_value::Memory;
use std::alloc::Global;
use std::marker::Model;

/// Places, each of which is set or not. A binary tree stands above them, in which a node is set where
/// one of the two below it is: to set a place, and to find the first, takes as many steps as the tree
/// has levels.
#[derive(Drop)]
pub struct PlaceTree {
    /// From 1 on, level by level. The last level is the places.
    nodes: Vec<bool>,
    /// How many places there are, and the number of the first of their nodes.
    width: usize,
    /// How many levels there are below the top.
    height: usize,
}

impl Model for PlaceTree {
    ghost use Rattle.std.specs.Prelude.{◌≡◌, ◌+◌, ◌^◌, ◌≤◌, length};
    ghost use Rattle.pending_set.specs.Tree.{Row, IsTree};

    ghost Value = { Row };

    ghost view = { λ t. record { width = t.width; nodes = t.nodes.items } };

    ghost invariant = { λ t. (t.width ≡ 2 ^ t.height) × (t.width ≤ 2 ^ 33) × (length t.nodes.items ≡ t.width + t.width)
        × IsTree t.width t.nodes.items };
}

/// Sets or clears the nodes above a leaf as those below them ask for.
fn settle(nodes: &mut Vec<bool>, leaf: usize, width: usize)
    requires long { length nodes.old.items ≡ width + width }
    requires short { width ≤ 2 ^ 33 }
    requires from { width ≤ leaf }
    requires to { leaf < width + width }
    requires others { IsTreeBut leaf width nodes.old.items }
    ensures long { length nodes.new.items ≡ width + width }
    ensures tree { IsTree width nodes.new.items }
    ensures leaves { (i : ℕ) → width ≤ i → node_at nodes.new.items i ≡ node_at nodes.old.items i }
{
    let mut node = leaf;
    while node > 1 {
        node /= 2;
        let either = nodes[2 * node] || nodes[2 * node + 1];
        nodes[node] = either;
    }
}

/// Of the two nodes below this one the first that is set, where one is.
fn lower(nodes: &[bool], node: usize) -> usize
    requires { 2 * node + 1 < length nodes.now }
    ensures { result ≡ if node_at nodes.now (2 * node) then 2 * node else (2 * node + 1) }
{
    let _count = nodes.len();
    if nodes[2 * node] {
        2 * node
    } else {
        2 * node + 1
    }
}

/// The first leaf that is set, so many levels below the top, which is set.
fn first_leaf(nodes: &[bool], height: usize) -> usize
    requires long { length nodes.now ≡ 2 ^ height + 2 ^ height }
    requires tree { IsTree (2 ^ height) nodes.now }
    requires some { node_at nodes.now 1 ≡ true }
    ensures { IsFirst nodes.now height result }
{
    let mut node = 1;
    let mut level = 0;
    while level < height {
        node = lower(nodes, node);
        level += 1;
    }
    node
}

/// The number of levels of a tree with room for so many places, and its room.
fn measured(count: usize) -> (usize, usize)
    requires { count < 2 ^ 32 }
    ensures power { result.1 ≡ 2 ^ result.0 }
    ensures room { count ≤ result.1 }
    ensures short { result.1 ≤ 2 ^ 33 }
{
    let mut height = 0;
    let mut width = 1;
    while width < count {
        width *= 2;
        height += 1;
    }
    (height, width)
}

impl PlaceTree {
    /// At least so many places, none of them set.
    pub fn new(alloc: Global, count: usize) -> Result<PlaceTree, Memory>
        requires { count < 2 ^ 32 }
        ensures room { IfOk result (λ row. count ≤ row.width) }
        ensures none { IfOk result (λ row. NoneSet row) }
    {
        let (height, width) = measured(count);
        let nodes = vec![in alloc; false; width + width]?;
        Ok(PlaceTree {
            nodes,
            width,
            height,
        })
    }

    /// Sets a place, or clears it.
    pub fn put(&mut self, place: usize, set: bool)
        requires { place < self.old.width }
        ensures width { self.new.width ≡ self.old.width }
        ensures here { is_set self.new place ≡ set }
        ensures others { (i : ℕ) → i ≢ place → is_set self.new i ≡ is_set self.old i }
    {
        let leaf = self.width + place;
        self.nodes[leaf] = set;
        settle(&mut self.nodes, leaf, self.width);
    }

    /// The first place that is set. There is none exactly where none is.
    pub fn first(&self) -> Option<usize>
        ensures some { IfSome result (λ place. IsFirstSet self.now place) }
        ensures none { IfNone result (NoneSet self.now) }
    {
        if !self.nodes[1] {
            return None;
        }
        let leaf = first_leaf(self.nodes.as_slice(), self.height);
        Some(leaf - self.width)
    }
}
