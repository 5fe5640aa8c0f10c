//! The nodes of a tree, and the lookup of a node by its revision.
ghost use Rattle.std.specs.Prelude.{◌≡◌, ℕ, ◌+◌, ◌<◌, ◌≤◌, ◌⊎◌, ◌∷◌, ◌++◌, [], Some, None, IfOk, IfSome, OnOk, slice_get, length, take, drop, true, nat_eq, nat_lt, vec_capacity, vec_len};
ghost use Rattle.rev_core.specs.Rev.{RevId};
ghost use Rattle.rev_core.specs.SmallRev.{blocks_of};
ghost use Rattle.rev_tree.specs.Node.{new_node};
ghost use Rattle.rev_tree.specs.Room.{HasIndexRoom};
ghost use Rattle.rev_tree.specs.Steps.{with_edge, with_content};
ghost use Rattle.rev_tree.specs.InOrder.{first_of};
ghost use Rattle.rev_tree.specs.Tree.{leaves};
ghost use Rattle.rev_tree.specs.declared.nodes.TheConstants.{MOST_WALKED};

use crate::content::Content;
use crate::node::Node;
use crate::place_index::Places;
use rev_core::{Rev, Sig, SmallRev};
use std::alloc::{AllocError, Global};
use std::hash::{FoldHasher, Hasher};
use std::marker::Model;
use std::slice::from_ref;

/// The maximum number of nodes that a lookup scans. A tree with more nodes has an index, unless each node is one
/// generation below the previous node.
pub(crate) const MOST_WALKED: usize = 8;

/// The maximum number of nodes of a tree. The index of a parent, counted from 1, has 32 bits.
const MOST_NODES: usize = u32::MAX as usize;

ghost use Rattle.rev_tree.specs.Index.{falls, index_for, mark_of, noted_from};
ghost use Rattle.rev_tree.specs.Nodes.{Distinct, HasGained, HasRoom, IsLinked, count_blocks, count_new, place_of, revs_in, tree_of, unless_among};

/// Nodes with their index. A tree never removes a node, so the positions of nodes do not change.
///
/// The invariant of a tree's nodes is that no revision has two nodes, and that the index of each parent is in range.
/// The invariant also says that a node is marked as a parent exactly if it is the parent of another node.
#[derive(Drop)]
pub(crate) struct Nodes {
    list: Vec<Node>,
    places: Places,
}

impl Model for Nodes {
    ghost use Rattle.std.specs.Prelude.{◌+◌, length, vec_capacity};
    ghost use Rattle.rev_tree.specs.Nodes.{NodesValue};
    ghost use Rattle.rev_tree.specs.Tournament.{IsIndexed};

    ghost Value = { NodesValue };

    ghost view = { λ n. record {
      items = n.list.items;
      capacity = vec_capacity n.list;
      index_capacity = length n.places.entries + n.places.spare;
    } };

    ghost invariant = { λ n. IsIndexed n.list.items n.places };
}

impl Nodes {
    /// Creates an empty list.
    pub(crate) fn new(alloc: Global) -> Nodes
        ensures { result.items ≡ [] }
    {
        Nodes {
            list: Vec::new(alloc),
            places: Places::new(),
        }
    }

    /// Creates a list with one node, and space for those revisions of `revs` that have no node.
    pub(crate) fn of_one(alloc: Global, node: Node, revs: &[Rev]) -> Result<Nodes, AllocError>
        requires { IsLinked (node ∷ []) }
        ensures { IfOk result (λ n. n.items ≡ node ∷ []) }
    {
        let more = count_new(from_ref(&node), revs).min(revs.len());
        let mut list = Vec::with_capacity(alloc, 1 + more)?;
        list.push_reserved(node);
        Ok(Nodes {
            list,
            places: Places::new(),
        })
    }

    /// Returns the nodes.
    pub(crate) fn all(&self) -> &[Node]
        ensures items { result.now ≡ self.now.items }
        ensures linked { IsLinked self.now.items }
    {
        &self.list
    }

    /// Returns the node at an index.
    pub(crate) fn node_at(&self, place: usize) -> &Node
        requires { place < length self.now.items }
        ensures node { slice_get self.now.items place ≡ Some result.now }
        ensures linked { IsLinked self.now.items }
    {
        &self.list[place]
    }

    /// Returns the position of the node of a revision.
    pub(crate) fn place_in(&self, rev: &Rev) -> Option<usize>
        ensures place { result ≡ place_of self.now.items rev.now }
        ensures linked { IsLinked self.now.items }
    {
        if self.list.as_slice().len() > MOST_WALKED {
            if self.places.is_empty() {
                return fallen_to(&self.list, rev);
            }
            let place = self.places.get(mark_of(rev.generation(), rev.sig_bytes()))?;
            if self.list[place].is_of(rev) {
                return Some(place);
            }
            // The index entry belongs to another revision with an equal hash, so the call scans the nodes.
        }
        walked_to(&self.list, rev)
    }

    /// Reserves space for inserting an ancestry, and returns the heap blocks that the inserted revisions need. If the
    /// sum of nodes and given revisions is at most `MOST_WALKED`, the call reserves space only for the revisions that
    /// the tree lacks. The call fails if the tree could get more than `MOST_NODES` nodes.
    #[tactic(auto, using(crate::proofs::Rooms::count_within))]
    pub(crate) fn make_room(&mut self, revs: &[Rev]) -> Result<Vec<Box<Sig>>, AllocError>
        ensures items { self.new.items ≡ self.old.items }
        ensures room { OnOk result (HasRoom self.new (count_new (revs_in self.new.items) revs.now)) }
        ensures blocks { IfOk result (λ b. count_blocks revs.now ≤ length b.items) }
    {
        let all = self.list.as_slice().len() + revs.len();
        if all > MOST_NODES {
            return Err(AllocError);
        }
        let alloc = *self.list.allocator();
        let blocks = blocks_for(alloc, revs)?;
        reserve_nodes(&mut self.list, revs)?;
        reserve_index(alloc, &mut self.places, all)?;
        Ok(blocks)
    }

    /// Releases the unused space of a tree with few nodes, and the space of an empty index. After a merge of an
    /// ancestry with many known revisions, a tree with few nodes may have space for many nodes.
    pub(crate) fn give_back(&mut self)
        ensures { self.new.items ≡ self.old.items }
    {
        fit_nodes(&mut self.list);
        fit_index(&mut self.places);
    }

    /// Appends a node for a new revision, and returns the node's index. The caller has reserved
    /// the space for the node, and gives the heap block that the revision may need.
    #[inline(always)]
    pub(crate) fn push(&mut self, rev: &Rev, blocks: &mut Vec<Box<Sig>>) -> usize
        requires new { place_of self.old.items rev.now ≡ None }
        requires room { HasRoom self.old 1 }
        requires blocks { blocks_of rev.now ≤ length blocks.old.items }
        ensures gained { HasGained self.old self.new rev.now result }
        ensures revs { revs_in self.new.items ≡ revs_in self.old.items ++ rev.now ∷ [] }
        ensures blocks { length blocks.old.items ≤ length blocks.new.items + blocks_of rev.now }
    {
        let place = self.list.as_slice().len();
        push_node(&mut self.list, rev, blocks);
        index_rest(&self.list, &mut self.places, place);
        place
    }

    /// Sets the content of a node, unless the node has a content.
    pub(crate) fn give(&mut self, place: usize, content: Content)
        requires within { place < length self.old.items }
        ensures tree { (r : RevId)
            → slice_get (revs_in self.old.items) place ≡ Some r
            → tree_of self.new.items ≡ with_content (tree_of self.old.items) r content }
        ensures revs { revs_in self.new.items ≡ revs_in self.old.items }
        ensures room { (n : ℕ) → HasRoom self.old n → HasRoom self.new n }
    {
        if self.list[place].content().is_none() {
            self.list[place].give(content);
        }
    }

    /// Sets the parent of a node, unless the node has a parent.
    pub(crate) fn link(&mut self, child: usize, parent: usize)
        requires child_within { child < length self.old.items }
        requires parent_within { parent < length self.old.items }
        ensures tree { (c p : RevId)
            → slice_get (revs_in self.old.items) child ≡ Some c
            → slice_get (revs_in self.old.items) parent ≡ Some p
            → tree_of self.new.items ≡ with_edge (tree_of self.old.items) c p }
        ensures revs { revs_in self.new.items ≡ revs_in self.old.items }
        ensures room { (n : ℕ) → HasRoom self.old n → HasRoom self.new n }
    {
        if self.list[child].parent().is_none() {
            self.list[child].name_parent(parent);
            self.list[parent].mark();
        }
    }

    /// Finds the winner with the comparison tree of the leaves, and returns the index of the winner's node. Returns
    /// `None` if the tree has few nodes or no index, or if the comparison tree finds no winner. If the result is
    /// `None`, the caller must scan the nodes.
    pub(crate) fn tournament_winner(&mut self) -> Option<usize>
        ensures items { self.new.items ≡ self.old.items }
        ensures first { IfSome result (λ place. (r : RevId)
            → first_of (leaves (tree_of self.old.items)) ≡ Some r
            → slice_get (revs_in self.old.items) place ≡ Some r) }
    {
        if self.list.as_slice().len() <= MOST_WALKED {
            return None;
        }
        self.places.first_leaf(&self.list)
    }

    /// Copies the nodes.
    pub(crate) fn copy(&self, alloc: Global) -> Result<Nodes, AllocError>
        ensures { IfOk result (λ n. n.items ≡ self.now.items) }
    {
        let list = copy_nodes(alloc, &self.list)?;
        let places = index_of(alloc, &list)?;
        Ok(Nodes { list, places })
    }
}

/// Returns a 64-bit hash of a revision.
fn mark_of(generation: u32, sig: &[u8]) -> u64
    ensures { result ≡ mark_of (record { generation = generation; sig = sig.now }) }
{
    let mut hasher = FoldHasher::default();
    hasher.write(sig);
    hasher.finish().wrapping_add(u64::from(generation))
}

/// Returns the position of a revision's node in a list of nodes. Each node's generation must be one less than the
/// previous node's generation.
#[inline(never)]
fn fallen_to(nodes: &[Node], rev: &Rev) -> Option<usize>
    requires some { 0 < length nodes.now }
    requires once { Distinct (revs_in nodes.now) }
    requires falls { falls (revs_in nodes.now) ≡ true }
    ensures { result ≡ place_of nodes.now rev.now }
{
    let top = nodes[0].generation();
    let generation = rev.generation();
    if generation > top {
        return None;
    }
    let place = (top - generation) as usize;
    if place >= nodes.len() {
        return None;
    }
    if nodes[place].is_of(rev) {
        Some(place)
    } else {
        None
    }
}

/// Returns the position of a revision's node by scanning the nodes.
fn walked_to(nodes: &[Node], rev: &Rev) -> Option<usize>
    ensures { result ≡ place_of nodes.now rev.now }
{
    for i in 0..nodes.len() {
        if nodes[i].is_of(rev) {
            return Some(i);
        }
    }
    None
}

/// Extends the index `places`, which maps the hashes of the first `known` nodes to positions, to all nodes
/// (`index_for`). An index maps the hashes of revisions to positions in the list `nodes`, or is empty. The caller has
/// reserved the space that the index needs.
fn index_rest(nodes: &[Node], places: &mut Places, known: usize)
    requires known { known ≤ length nodes.now }
    requires begun { places.old.entries ≡ index_for (revs_in (take known nodes.now)) }
    requires room { HasIndexRoom (length nodes.now) (length places.old.entries + places.old.spare) }
    ensures index { places.new.entries ≡ index_for (revs_in nodes.now) }
    ensures room { length places.old.entries + places.old.spare ≤ length places.new.entries + places.new.spare }
    ensures winners { places.new.winners ≡ places.old.winners }
    ensures entered { places.new.entered ≡ places.old.entered }
{
    if nodes.len() <= MOST_WALKED {
        return;
    }
    if !places.is_empty() {
        index_from(nodes, places, known);
        return;
    }
    if all_fall(nodes, known) {
        return;
    }
    index_from(nodes, places, 0);
}

/// Whether each node's generation is one less than the previous node's generation. If `known` is more than
/// `MOST_WALKED`, the caller has already checked the first `known` nodes.
#[inline(never)]
fn all_fall(nodes: &[Node], known: usize) -> bool
    requires known { known ≤ length nodes.now }
    requires many { MOST_WALKED < length nodes.now }
    requires fall { MOST_WALKED < known → falls (take known (revs_in nodes.now)) ≡ true }
    ensures { result ≡ falls (revs_in nodes.now) }
{
    if known <= MOST_WALKED {
        falls_from(nodes, 0)
    } else {
        falls_from(nodes, known - 1)
    }
}

/// Whether the generation of each node after index `first` is one less than the previous node's generation.
fn falls_from(nodes: &[Node], first: usize) -> bool
    requires { first < length nodes.now }
    ensures { result ≡ falls (drop first (revs_in nodes.now)) }
{
    for i in first + 1..nodes.len() {
        let upper = &nodes[i - 1];
        let lower = &nodes[i];
        if !is_below(upper, lower) {
            return false;
        }
    }
    true
}

/// Whether the generation of `lower` is one less than the generation of `upper`.
fn is_below(upper: &Node, lower: &Node) -> bool
    ensures { result ≡ nat_eq upper.now.rev.generation (lower.now.rev.generation + 1) }
{
    upper.generation() - 1 == lower.generation()
}

/// Adds the nodes at position `first` and later positions to the index, which already has all earlier nodes. The caller
/// has reserved the space that the index needs.
fn index_from(nodes: &[Node], places: &mut Places, first: usize)
    requires first { first ≤ length nodes.now }
    requires begun { places.old.entries ≡ noted_from [] 0 (revs_in (take first nodes.now)) }
    requires room { length nodes.now ≤ length places.old.entries + places.old.spare }
    ensures index { places.new.entries ≡ noted_from [] 0 (revs_in nodes.now) }
    ensures room { length places.old.entries + places.old.spare ≤ length places.new.entries + places.new.spare }
    ensures winners { places.new.winners ≡ places.old.winners }
    ensures entered { places.new.entered ≡ places.old.entered }
{
    for i in first..nodes.len() {
        let node = &nodes[i];
        places.note(mark_of(node.generation(), node.rev().sig_bytes()), i);
    }
}

/// Appends a node for a revision to a list with space for the node.
#[inline(always)]
fn push_node(list: &mut Vec<Node>, rev: &Rev, blocks: &mut Vec<Box<Sig>>)
    requires space { vec_len list.old < vec_capacity list.old }
    requires blocks { blocks_of rev.now ≤ length blocks.old.items }
    ensures items { list.new.items ≡ list.old.items ++ new_node rev.now ∷ [] }
    ensures len { vec_len list.new ≡ vec_len list.old + 1 }
    ensures capacity { vec_capacity list.new ≡ vec_capacity list.old }
    ensures blocks { length blocks.old.items ≤ length blocks.new.items + blocks_of rev.now }
{
    if SmallRev::is_long(rev) {
        push_long(list, rev, blocks);
    } else {
        list.push_reserved(Node::new(SmallRev::inline(rev)));
    }
}

/// Appends a node for a revision. The node stores the revision's signature in a heap block.
#[inline(never)]
fn push_long(list: &mut Vec<Node>, rev: &Rev, blocks: &mut Vec<Box<Sig>>)
    requires space { vec_len list.old < vec_capacity list.old }
    requires blocks { 0 < length blocks.old.items }
    ensures items { list.new.items ≡ list.old.items ++ new_node rev.now ∷ [] }
    ensures len { vec_len list.new ≡ vec_len list.old + 1 }
    ensures capacity { vec_capacity list.new ≡ vec_capacity list.old }
    ensures blocks { length blocks.old.items ≡ length blocks.new.items + 1 }
{
    let small = SmallRev::long(rev, blocks);
    list.push_reserved(Node::new(small));
}

/// Allocates a heap block for each revision whose signature has more than 32 bytes.
fn blocks_for(alloc: Global, revs: &[Rev]) -> Result<Vec<Box<Sig>>, AllocError>
    ensures { IfOk result (λ b. count_blocks revs.now ≤ length b.items) }
{
    if !has_long(revs) {
        return Ok(Vec::new(alloc));
    }
    long_blocks(alloc, revs)
}

/// Whether a node stores one of the revisions in a heap block.
fn has_long(revs: &[Rev]) -> bool
    ensures { result ≡ nat_lt 0 (count_blocks revs.now) }
{
    for rev in revs {
        if SmallRev::is_long(rev) {
            return true;
        }
    }
    false
}

/// Allocates the heap blocks of revisions, some of which have a signature of more than 32 bytes.
#[inline(never)]
fn long_blocks(alloc: Global, revs: &[Rev]) -> Result<Vec<Box<Sig>>, AllocError>
    ensures { IfOk result (λ b. count_blocks revs.now ≤ length b.items) }
{
    let mut blocks = Vec::new(alloc);
    for rev in revs {
        if SmallRev::is_long(rev) {
            push_block(&mut blocks, rev)?;
        }
    }
    Ok(blocks)
}

/// Allocates a heap block for a revision, and appends the block to a list.
pub(crate) fn push_block(blocks: &mut Vec<Box<Sig>>, rev: &Rev) -> Result<(), AllocError>
    ensures { OnOk result (length blocks.new.items ≡ length blocks.old.items + 1) }
{
    let block = Box::new(*blocks.allocator(), rev.sig())?;
    blocks.push(block)?;
    Ok(())
}

/// Counts the given revisions that have no node, by scanning the nodes.
fn count_new(nodes: &[Node], revs: &[Rev]) -> usize
    ensures { result ≡ count_new (revs_in nodes.now) revs.now }
{
    if nodes.is_empty() {
        return revs.len();
    }
    let mut count = 0;
    for rev in revs {
        count += once_new(nodes, rev);
    }
    count
}

/// Returns 0 if the revision has a node, and otherwise 1, by scanning the nodes.
fn once_new(nodes: &[Node], rev: &Rev) -> usize
    ensures new { result ≡ unless_among (revs_in nodes.now) rev.now }
    ensures most { result ≤ 1 }
{
    match walked_to(nodes, rev) {
        Some(_) => 0,
        None => 1,
    }
}

/// Reserves space in the list for the revisions of an ancestry. If the sum of nodes and given revisions is at most
/// `MOST_WALKED`, the call reserves space only for the revisions that the list lacks.
#[tactic(auto, using(crate::proofs::Rooms::count_within))]
fn reserve_nodes(list: &mut Vec<Node>, revs: &[Rev]) -> Result<(), AllocError>
    ensures items { list.new.items ≡ list.old.items }
    ensures room { OnOk result (length list.new.items + count_new (revs_in list.new.items) revs.now ≤ vec_capacity list.new) }
{
    let all = list.as_slice().len() + revs.len();
    if all <= MOST_WALKED {
        let more = count_new(list, revs).min(revs.len());
        list.reserve_exact(more)
    } else {
        list.reserve(revs.len())
    }
}

/// Releases the unused space of the list if the list has few nodes but has reserved space for many nodes.
fn fit_nodes(list: &mut Vec<Node>)
    ensures { list.new.items ≡ list.old.items }
{
    if list.as_slice().len() <= MOST_WALKED && list.capacity() > MOST_WALKED {
        list.shrink_to_fit();
    }
}

/// Releases the space of an empty index.
fn fit_index(places: &mut Places)
    ensures entries { places.new.entries ≡ places.old.entries }
    ensures tournament { places.new ≡ places.old ⊎ (places.new.winners ≡ []) × (places.new.entered ≡ 0) }
{
    if places.is_empty() {
        *places = Places::new();
    }
}

/// Reserves space in the index for `nodes` entries, unless `nodes` is at most `MOST_WALKED`.
#[inline(always)]
fn reserve_index(alloc: Global, places: &mut Places, nodes: usize) -> Result<(), AllocError>
    requires { length places.old.entries ≤ nodes }
    ensures index { places.new.entries ≡ places.old.entries }
    ensures room { OnOk result (HasIndexRoom nodes (length places.new.entries + places.new.spare)) }
    ensures winners { places.new.winners ≡ places.old.winners }
    ensures entered { places.new.entered ≡ places.old.entered }
{
    if nodes <= MOST_WALKED {
        return Ok(());
    }
    places.reserve(alloc, nodes - places.len())
}

/// Builds the index of the nodes.
fn index_of(alloc: Global, nodes: &[Node]) -> Result<Places, AllocError>
    ensures entries { IfOk result (λ m. m.entries ≡ index_for (revs_in nodes.now)) }
    ensures winners { IfOk result (λ m. m.winners ≡ []) }
    ensures entered { IfOk result (λ m. m.entered ≡ 0) }
{
    let mut places = Places::new();
    if nodes.len() <= MOST_WALKED {
        return Ok(places);
    }
    if falls_from(nodes, 0) {
        return Ok(places);
    }
    reserve_index(alloc, &mut places, nodes.len())?;
    index_rest(nodes, &mut places, 0);
    Ok(places)
}

/// Copies the nodes.
fn copy_nodes(alloc: Global, nodes: &[Node]) -> Result<Vec<Node>, AllocError>
    ensures { IfOk result (λ v. v.items ≡ nodes.now) }
{
    let mut copies = Vec::with_capacity(alloc, nodes.len())?;
    for node in nodes {
        copies.reserve(1)?;
        copies.push_reserved(node.copy(alloc)?);
    }
    Ok(copies)
}
