//! The stored form of a tree: the nodes, which trees share until one of the trees changes, and the origins.
ghost use Rattle.std.specs.Prelude.{◌≡◌, ℕ, ◌+◌, ◌<◌, ◌≤◌, ◌^◌, ◌⊎◌, ◌∷◌, [], Some, None, IfOk, IfErr, OnErr, OnOk, true, is_some, filter, length, map, slice_get, vec_capacity};
ghost use Rattle.std.specs.Arc.{arc_value};
ghost use Rattle.std.specs.FinMap.{get};
ghost use Rattle.std.specs.List.{list_all};
ghost use Rattle.std.specs.Option.{option_copied};
ghost use Rattle.rev_core.specs.Rev.{RevId};
ghost use Rattle.rev_core.specs.Ancestry.{IsAncestry, edges_of, is_among};
ghost use Rattle.rev_tree.specs.InOrder.{first_of};
ghost use Rattle.rev_tree.specs.Tree.{IsTree, first_contradiction, has, has_edge, is_leaf, leaves, merged};
ghost use Rattle.rev_tree.specs.Nodes.{IsLed, IsLinked, no_origin, node_of, place_of, revs_in, tree_of};
ghost use Rattle.rev_tree.specs.Origins.{CanExtend, IsOfNodes, each, one, origin_at, small_origin};
ghost use Rattle.rev_tree.specs.Stored.{IsAllOf, best_in, held_in, is_listed, items_in, many, nothing, origins_in, owned_in, shared_in, only};
ghost use Rattle.rev_tree.specs.Walks.{ancestors_at, is_above_one};

use crate::content::Content;
use crate::fault::Contradiction;
use crate::node::Node;
use crate::nodes::Nodes;
use crate::origin::Origin;
use crate::origins::{SmallOrigin, feed, fill, listed_at};
use crate::single_node::Single;
use rev_core::Rev;
use std::alloc::{AllocError, Global};
use std::marker::Model;
use std::mem::replace;
use std::sync::Arc;

/// The nodes of a tree, and the index of the winner's node.
#[derive(Drop)]
pub(crate) struct Block {
    nodes: Nodes,
    best: usize,
}

impl Block {
    /// Creates a block without nodes.
    fn new(alloc: Global) -> Block
        ensures items { result.nodes.items ≡ [] }
        ensures best { result.best ≡ 0 }
    {
        Block {
            nodes: Nodes::new(alloc),
            best: 0,
        }
    }

    /// Copies the block.
    fn copy(&self, alloc: Global) -> Result<Block, AllocError>
        ensures items { IfOk result (λ b. b.nodes.items ≡ self.now.nodes.items) }
        ensures best { IfOk result (λ b. b.best ≡ self.now.best) }
    {
        let nodes = self.nodes.copy(alloc)?;
        Ok(Block {
            nodes,
            best: self.best,
        })
    }

    /// Inserts an ancestry with its content.
    fn insert(&mut self, revs: &[Rev], content: Content) -> Result<(), AllocError>
        requires led { IsLed self.old.nodes.items self.old.best }
        requires ancestry { IsAncestry revs.now }
        requires none { first_contradiction (tree_of self.old.nodes.items).parents (edges_of revs.now) ≡ None }
        ensures tree { OnOk result (tree_of self.new.nodes.items
            ≡ merged (tree_of self.old.nodes.items) revs.now content no_origin) }
        ensures best { OnOk result (slice_get (revs_in self.new.nodes.items) self.new.best
            ≡ first_of (leaves (tree_of self.new.nodes.items))) }
        ensures kept { (i : ℕ) (r : RevId)
            → slice_get (revs_in self.old.nodes.items) i ≡ Some r
            → slice_get (revs_in self.new.nodes.items) i ≡ Some r }
        ensures len { length self.new.nodes.items ≤ length self.old.nodes.items + length revs.now }
        ensures err { OnErr result (self.new.nodes.items ≡ self.old.nodes.items) }
        ensures err_best { OnErr result (self.new.best ≡ self.old.best) }
    {
        self.best = self.nodes.insert(self.best, revs, content)?;
        Ok(())
    }
}

/// The nodes of a tree with the origins of their revisions, and the index of the winner's node.
///
/// The nodes are in a heap block that copies of the tree share. A tree that changes copies the block first, if the
/// block has another owner. An empty tree has no block.
pub(crate) struct Stored {
    form: Form,
    alloc: Global,
}

/// The forms in which a tree is stored. A tree is empty, or has one revision (`LocalOne`, `FeedOne`), or has a list of
/// nodes. The revisions of a list all have one origin (`Local`, `Feed`), or the list has the origin of each node.
///
/// One enum holds the heap block and the origins, because an `Option` of an `Arc` beside an enum of the origins takes 8
/// bytes more.
#[derive(Drop)]
pub(crate) enum Form {
    Empty,
    LocalOne(Arc<Single>, u64),
    FeedOne(Arc<Single>, u64, u64, u64),
    Local(Arc<Block>, u64),
    Feed(Arc<Block>, u64, u64, u64),
    Each(Arc<Block>, Vec<SmallOrigin>),
}

/// The heap block of a tree, if the tree has one. The block of a tree with one revision has only the node, without a
/// list.
#[derive(Drop)]
enum Shared {
    Nothing,
    One(Arc<Single>),
    Many(Arc<Block>),
}

/// A reference to the heap block of a tree, if the tree has one.
enum Held<'a> {
    Nothing,
    One(&'a Arc<Single>),
    Many(&'a Arc<Block>),
}

// `Drop` is implemented by hand, because derived code would be proved again in each crate that owns a value of this
// type (docs/DECISIONS.md, "Letting values go").
impl Drop for Stored {
    fn drop(self) {
        let Stored { form: _, alloc: _ } = self;
    }
}

impl Model for Stored {
    ghost use Rattle.rev_tree.specs.Stored.{StoredValue, best_in, is_listed, items_in, origins_in, shared_in};

    ghost Value = { StoredValue };

    ghost view = { λ s. record {
      items = items_in (shared_in s.form);
      origins = origins_in s.form;
      best = best_in (shared_in s.form);
      listed = is_listed (shared_in s.form);
    } };
}

impl Form {
    /// Stores a heap block of nodes whose revisions all have one origin.
    fn all(shared: Shared, origin: Origin) -> Form
        ensures shared { shared_in result ≡ owned_in shared }
        ensures origins { (owned_in shared ≡ nothing) ⊎ (origins_in result ≡ one origin) }
    {
        match shared {
            Shared::Nothing => Form::Empty,
            Shared::One(single) => Form::one(single, origin),
            Shared::Many(block) => Form::many(block, origin),
        }
    }

    /// Stores the only node of a tree.
    fn one(single: Arc<Single>, origin: Origin) -> Form
        ensures shared { shared_in result ≡ only (arc_value single) }
        ensures origins { origins_in result ≡ one origin }
    {
        match SmallOrigin::of(origin) {
            SmallOrigin::Local(number) => Form::LocalOne(single, number),
            SmallOrigin::Feed(high, low, seq) => Form::FeedOne(single, high, low, seq),
        }
    }

    /// Stores a block of nodes whose revisions all have one origin.
    fn many(block: Arc<Block>, origin: Origin) -> Form
        ensures shared { shared_in result ≡ many (arc_value block) }
        ensures origins { origins_in result ≡ one origin }
    {
        match SmallOrigin::of(origin) {
            SmallOrigin::Local(number) => Form::Local(block, number),
            SmallOrigin::Feed(high, low, seq) => Form::Feed(block, high, low, seq),
        }
    }

    /// Returns the heap block, if there is one.
    fn into_shared(self) -> Shared
        ensures { owned_in result ≡ shared_in self }
    {
        match self {
            Form::Empty => Shared::Nothing,
            Form::LocalOne(single, _) => Shared::One(single),
            Form::FeedOne(single, _, _, _) => Shared::One(single),
            Form::Local(block, _) => Shared::Many(block),
            Form::Feed(block, _, _, _) => Shared::Many(block),
            Form::Each(block, _) => Shared::Many(block),
        }
    }
}

impl Stored {
    /// Stores an empty tree. The call does not allocate.
    pub(crate) fn new(alloc: Global) -> Stored
        ensures items { result.items ≡ [] }
        ensures origins { result.origins ≡ one no_origin }
        ensures best { result.best ≡ 0 }
    {
        Stored {
            form: Form::Empty,
            alloc,
        }
    }

    /// Returns the heap block, if there is one.
    fn held(&self) -> Held<'_>
        ensures items { items_in (held_in result) ≡ self.now.items }
        ensures best { best_in (held_in result) ≡ self.now.best }
        ensures listed { is_listed (held_in result) ≡ self.now.listed }
    {
        match &self.form {
            Form::Empty => Held::Nothing,
            Form::LocalOne(single, _) => Held::One(single),
            Form::FeedOne(single, _, _, _) => Held::One(single),
            Form::Local(block, _) => Held::Many(block),
            Form::Feed(block, _, _, _) => Held::Many(block),
            Form::Each(block, _) => Held::Many(block),
        }
    }

    /// Returns the nodes.
    pub(crate) fn all(&self) -> &[Node]
        ensures items { result.now ≡ self.now.items }
        ensures linked { IsLinked self.now.items }
    {
        match self.held() {
            Held::Nothing => &[],
            Held::One(single) => single.nodes(),
            Held::Many(block) => block.nodes.all(),
        }
    }

    /// Returns the index of the winner's node.
    fn best(&self) -> usize
        ensures { result ≡ self.now.best }
    {
        match self.held() {
            Held::Nothing => 0,
            Held::One(_) => 0,
            Held::Many(block) => block.best,
        }
    }

    /// Returns the node at an index.
    pub(crate) fn node_at(&self, place: usize) -> &Node
        requires { place < length self.now.items }
        ensures node { slice_get self.now.items place ≡ Some result.now }
        ensures linked { IsLinked self.now.items }
    {
        &self.all()[place]
    }

    /// Returns the revision of the winner's node, unless the tree is empty.
    pub(crate) fn winner(&self) -> Option<Rev>
        ensures { result ≡ slice_get (revs_in self.now.items) self.now.best }
    {
        let node = self.all().get(self.best())?;
        Some(node.to_rev())
    }

    /// Returns the origin of the node at an index.
    pub(crate) fn origin_at(&self, place: usize) -> Origin
        ensures { result ≡ origin_at self.now.origins place }
    {
        match &self.form {
            Form::Empty => Origin::Local(0),
            Form::LocalOne(_, number) => Origin::Local(*number),
            Form::FeedOne(_, high, low, seq) => feed(*high, *low, *seq),
            Form::Local(_, number) => Origin::Local(*number),
            Form::Feed(_, high, low, seq) => feed(*high, *low, *seq),
            Form::Each(_, origins) => listed_at(origins, place),
        }
    }

    /// Returns the node of a revision.
    pub(crate) fn node_in(&self, rev: &Rev) -> Option<&Node>
        ensures node { option_copied result ≡ node_of self.now.items rev.now }
        ensures linked { IsLinked self.now.items }
    {
        let place = self.place_in(rev)?;
        Some(self.node_at(place))
    }

    /// Returns the position of the node of a revision.
    #[inline(never)]
    pub(crate) fn place_in(&self, rev: &Rev) -> Option<usize>
        ensures place { result ≡ place_of self.now.items rev.now }
        ensures linked { IsLinked self.now.items }
    {
        match self.held() {
            Held::Nothing => None,
            Held::One(single) => single.place_in(rev),
            Held::Many(block) => block.nodes.place_in(rev),
        }
    }

    /// Returns the revision of the node at index `start`, and the known ancestors of that revision.
    pub(crate) fn walk(&self, alloc: Global, start: usize) -> Result<Vec<Rev>, AllocError>
        requires within { start < length self.now.items }
        requires tree { IsTree (tree_of self.now.items) }
        ensures { IfOk result (λ v. v.items ≡ ancestors_at self.now.items start) }
    {
        match self.held() {
            Held::Nothing => unreachable!(),
            Held::One(single) => single.walk(alloc),
            Held::Many(block) => block.nodes.walk(alloc, start),
        }
    }

    /// Returns the known ancestor that is `steps` generations before the revision of the node at index `start`.
    pub(crate) fn ancestor_at(&self, start: usize, steps: usize) -> Option<Rev>
        requires within { start < length self.now.items }
        requires tree { IsTree (tree_of self.now.items) }
        ensures { result ≡ slice_get (ancestors_at self.now.items start) steps }
    {
        match self.held() {
            Held::Nothing => unreachable!(),
            Held::One(single) => single.ancestor_at(steps),
            Held::Many(block) => block.nodes.ancestor_at(start, steps),
        }
    }

    /// Returns the given leaves that are equal to, or descend from, one of the revisions `revs`. The result keeps the
    /// order of the given leaves.
    pub(crate) fn those_above(
        &self,
        alloc: Global,
        leaves: &[Rev],
        revs: &[Rev],
    ) -> Result<Vec<Rev>, AllocError>
        requires tree { IsTree (tree_of self.now.items) }
        requires known { (r : RevId)
            → is_among r leaves.now ≡ true
            → has (tree_of self.now.items) r ≡ true }
        ensures { IfOk result (λ v. v.items ≡ filter (is_above_one (tree_of self.now.items) revs.now) leaves.now) }
    {
        match self.held() {
            Held::Nothing => Nodes::new(alloc).those_above(alloc, leaves, revs),
            Held::One(single) => {
                let nodes = single.to_nodes(alloc, &[])?;
                nodes.those_above(alloc, leaves, revs)
            }
            Held::Many(block) => block.nodes.those_above(alloc, leaves, revs),
        }
    }

    /// Whether the tree has all edges (from child to parent) of an ancestry. Returns an error if a child's parent in
    /// the tree differs from the child's parent in the ancestry. The error names the first revision in the ancestry
    /// whose parents in ancestry and tree differ.
    pub(crate) fn knows_edges(&self, revs: &[Rev]) -> Result<bool, Contradiction>
        requires some { 0 < length revs.now }
        ensures edges { IfOk result (λ b. b ≡ list_all (has_edge (tree_of self.now.items)) (edges_of revs.now)) }
        ensures none { OnOk result
            (first_contradiction (tree_of self.now.items).parents (edges_of revs.now) ≡ None) }
        ensures contradiction { IfErr result
            (λ c. first_contradiction (tree_of self.now.items).parents (edges_of revs.now) ≡ Some c) }
    {
        match self.held() {
            Held::Nothing => Nodes::new(self.alloc).knows_edges(revs),
            Held::One(single) => Ok(single.knows_edges(revs)),
            Held::Many(block) => block.nodes.knows_edges(revs),
        }
    }

    /// Whether no node that has a child has a content.
    pub(crate) fn only_leaves_have_contents(&self) -> bool
        ensures only { result ≡ true → (r : RevId)
            → is_some (get (tree_of self.now.items).contents r) ≡ true
            → is_leaf (tree_of self.now.items) r ≡ true }
    {
        for node in self.all() {
            if node.has_child() && node.content().is_some() {
                return false;
            }
        }
        true
    }

    /// Returns a copy, which shares the heap block.
    pub(crate) fn copy(&self, alloc: Global) -> Result<Stored, AllocError>
        ensures items { IfOk result (λ s. s.items ≡ self.now.items) }
        ensures best { IfOk result (λ s. s.best ≡ self.now.best) }
        ensures at { IfOk result (λ s. (i : ℕ) → origin_at s.origins i ≡ origin_at self.now.origins i) }
        ensures nodes { IfOk result (λ s. (n : ℕ) → IsOfNodes self.now.origins n → IsOfNodes s.origins n) }
    {
        let form = match &self.form {
            Form::Empty => Form::Empty,
            Form::LocalOne(single, number) => Form::LocalOne(Arc::try_clone(single)?, *number),
            Form::FeedOne(single, high, low, seq) => {
                Form::FeedOne(Arc::try_clone(single)?, *high, *low, *seq)
            }
            Form::Local(block, number) => Form::Local(Arc::try_clone(block)?, *number),
            Form::Feed(block, high, low, seq) => {
                Form::Feed(Arc::try_clone(block)?, *high, *low, *seq)
            }
            Form::Each(block, origins) => {
                let mut copies = Vec::with_capacity(alloc, origins.len())?;
                copies.extend_from_slice(origins)?;
                Form::Each(Arc::try_clone(block)?, copies)
            }
        };
        Ok(Stored {
            form,
            alloc: self.alloc,
        })
    }

    /// Returns the same nodes in the same heap block. Each revision has the given origin.
    pub(crate) fn share_as(&self, origin: Origin) -> Result<Stored, AllocError>
        ensures items { IfOk result (λ s. s.items ≡ self.now.items) }
        ensures best { IfOk result (λ s. s.best ≡ self.now.best) }
        ensures all { IfOk result (λ s. IsAllOf s origin) }
    {
        let form = match self.held() {
            Held::Nothing => Form::Empty,
            Held::One(single) => Form::one(Arc::try_clone(single)?, origin),
            Held::Many(block) => Form::many(Arc::try_clone(block)?, origin),
        };
        Ok(Stored {
            form,
            alloc: self.alloc,
        })
    }

    /// Replaces the origin of each revision.
    pub(crate) fn set_origin(&mut self, origin: Origin)
        ensures items { self.new.items ≡ self.old.items }
        ensures best { self.new.best ≡ self.old.best }
        ensures all { IsAllOf self.new origin }
    {
        let form = replace(&mut self.form, Form::Empty);
        self.form = Form::all(form.into_shared(), origin);
    }

    /// Inserts an ancestry with its content. New revisions get the given origin. If the block has another owner, the
    /// call copies the nodes first.
    pub(crate) fn insert(
        &mut self,
        revs: &[Rev],
        content: Content,
        origin: Origin,
    ) -> Result<(), AllocError>
        requires led { IsLed self.old.items self.old.best }
        requires nodes { IsOfNodes self.old.origins (length self.old.items) }
        requires ancestry { IsAncestry revs.now }
        requires none { first_contradiction (tree_of self.old.items).parents (edges_of revs.now) ≡ None }
        ensures tree { OnOk result (tree_of self.new.items ≡ merged (tree_of self.old.items) revs.now content no_origin) }
        ensures best { OnOk result (slice_get (revs_in self.new.items) self.new.best
            ≡ first_of (leaves (tree_of self.new.items))) }
        ensures kept { (i : ℕ) (r : RevId)
            → slice_get (revs_in self.old.items) i ≡ Some r
            → slice_get (revs_in self.new.items) i ≡ Some r }
        ensures old { (i : ℕ) → i < length self.old.items → origin_at self.new.origins i ≡ origin_at self.old.origins i }
        ensures new { OnOk result ((i : ℕ) → length self.old.items ≤ i → i < length self.new.items
            → origin_at self.new.origins i ≡ origin) }
        ensures nodes { IsOfNodes self.new.origins (length self.new.items) }
        ensures err { OnErr result (self.new.items ≡ self.old.items) }
        ensures err_best { OnErr result (self.new.best ≡ self.old.best) }
    {
        let known = self.all().len();
        if known == 0 {
            return self.insert_first(revs, content, origin);
        }
        self.list_node(revs)?;
        self.reserve_origins(known, revs.len(), origin)?;
        self.insert_nodes(revs, content)?;
        let count = self.all().len() - known;
        self.extend_origins(known, count, origin);
        Ok(())
    }

    /// Moves the node of a tree with one revision to a list with space for those revisions of `revs` that have no node.
    fn list_node(&mut self, revs: &[Rev]) -> Result<(), AllocError>
        ensures items { self.new.items ≡ self.old.items }
        ensures best { self.new.best ≡ self.old.best }
        ensures origins { self.new.origins ≡ self.old.origins }
        ensures listed { OnOk result (0 < length self.old.items → self.new.listed ≡ true) }
    {
        let form = match &self.form {
            Form::LocalOne(single, number) => Form::Local(
                listed(self.alloc, single, revs)?,
                *number,
            ),
            Form::FeedOne(single, high, low, seq) => {
                Form::Feed(listed(self.alloc, single, revs)?, *high, *low, *seq)
            }
            _ => return Ok(()),
        };
        self.form = form;
        Ok(())
    }

    /// Inserts an ancestry with its content into an empty tree. The revisions get the given origin.
    fn insert_first(
        &mut self,
        revs: &[Rev],
        content: Content,
        origin: Origin,
    ) -> Result<(), AllocError>
        requires empty { self.old.items ≡ [] }
        requires ancestry { IsAncestry revs.now }
        requires none { first_contradiction (tree_of self.old.items).parents (edges_of revs.now) ≡ None }
        ensures tree { OnOk result (tree_of self.new.items ≡ merged (tree_of self.old.items) revs.now content no_origin) }
        ensures best { OnOk result (slice_get (revs_in self.new.items) self.new.best
            ≡ first_of (leaves (tree_of self.new.items))) }
        ensures origins { OnOk result (self.new.origins ≡ one origin) }
        ensures err { OnErr result (self.new ≡ self.old) }
    {
        if revs.len() == 1 {
            return self.insert_only(revs, content, origin);
        }
        let mut block = Block::new(self.alloc);
        block.insert(revs, content)?;
        self.form = Form::many(Arc::new(self.alloc, block)?, origin);
        Ok(())
    }

    /// Inserts a revision without ancestors, with its content, into an empty tree. The revision gets the given origin.
    fn insert_only(
        &mut self,
        revs: &[Rev],
        content: Content,
        origin: Origin,
    ) -> Result<(), AllocError>
        requires empty { self.old.items ≡ [] }
        requires only { length revs.now ≡ 1 }
        requires ancestry { IsAncestry revs.now }
        requires none { first_contradiction (tree_of self.old.items).parents (edges_of revs.now) ≡ None }
        ensures tree { OnOk result (tree_of self.new.items ≡ merged (tree_of self.old.items) revs.now content no_origin) }
        ensures best { OnOk result (slice_get (revs_in self.new.items) self.new.best
            ≡ first_of (leaves (tree_of self.new.items))) }
        ensures origins { OnOk result (self.new.origins ≡ one origin) }
        ensures err { OnErr result (self.new ≡ self.old) }
    {
        let single = Single::new(self.alloc, &revs[0], content)?;
        self.form = Form::one(Arc::new(self.alloc, single)?, origin);
        Ok(())
    }

    /// Inserts an ancestry with its content into a tree with revisions. If the block has another owner, the call copies
    /// the nodes first.
    fn insert_nodes(&mut self, revs: &[Rev], content: Content) -> Result<(), AllocError>
        requires listed { self.old.listed ≡ true }
        requires led { IsLed self.old.items self.old.best }
        requires ancestry { IsAncestry revs.now }
        requires none { first_contradiction (tree_of self.old.items).parents (edges_of revs.now) ≡ None }
        ensures tree { OnOk result (tree_of self.new.items ≡ merged (tree_of self.old.items) revs.now content no_origin) }
        ensures best { OnOk result (slice_get (revs_in self.new.items) self.new.best
            ≡ first_of (leaves (tree_of self.new.items))) }
        ensures kept { (i : ℕ) (r : RevId)
            → slice_get (revs_in self.old.items) i ≡ Some r
            → slice_get (revs_in self.new.items) i ≡ Some r }
        ensures len { length self.new.items ≤ length self.old.items + length revs.now }
        ensures origins { self.new.origins ≡ self.old.origins }
        ensures err { OnErr result (self.new.items ≡ self.old.items) }
        ensures err_best { OnErr result (self.new.best ≡ self.old.best) }
    {
        let alloc = self.alloc;
        match &mut self.form {
            Form::Local(block, _) => insert_shared(alloc, block, revs, content),
            Form::Feed(block, _, _, _) => insert_shared(alloc, block, revs, content),
            Form::Each(block, _) => insert_shared(alloc, block, revs, content),
            _ => unreachable!(),
        }
    }

    /// Reserves space for `more` further nodes of the given origin, after `known` nodes. If the nodes then have
    /// different origins, the call lists the origin of each node.
    fn reserve_origins(
        &mut self,
        known: usize,
        more: usize,
        origin: Origin,
    ) -> Result<(), AllocError>
        requires listed { self.old.listed ≡ true }
        requires few { known + more < 2 ^ 64 }
        requires nodes { IsOfNodes self.old.origins known }
        ensures items { self.new.items ≡ self.old.items }
        ensures best { self.new.best ≡ self.old.best }
        ensures listed { self.new.listed ≡ true }
        ensures ok { OnOk result (CanExtend self.new.origins known more origin) }
        ensures at { (i : ℕ) → i < known → origin_at self.new.origins i ≡ origin_at self.old.origins i }
        ensures nodes { IsOfNodes self.new.origins known }
    {
        if let Form::Each(_, origins) = &mut self.form {
            return origins.reserve(more);
        }
        let old = self.origin_at(0);
        if old == origin {
            return Ok(());
        }
        let mut origins = Vec::with_capacity(self.alloc, known + more)?;
        fill(&mut origins, known, old);
        self.list_origins(origins);
        Ok(())
    }

    /// Stores the given origins of a list of nodes.
    fn list_origins(&mut self, origins: Vec<SmallOrigin>)
        requires listed { self.old.listed ≡ true }
        ensures items { self.new.items ≡ self.old.items }
        ensures best { self.new.best ≡ self.old.best }
        ensures listed { self.new.listed ≡ true }
        ensures origins { self.new.origins ≡ each (map small_origin origins.items) (vec_capacity origins) }
    {
        let form = replace(&mut self.form, Form::Empty);
        match form.into_shared() {
            Shared::Many(block) => self.form = Form::Each(block, origins),
            _ => unreachable!(),
        }
    }

    /// Adds the origin of `count` further nodes, after `known` nodes. The caller has reserved the space.
    fn extend_origins(&mut self, known: usize, count: usize, origin: Origin)
        requires room { CanExtend self.old.origins known count origin }
        ensures items { self.new.items ≡ self.old.items }
        ensures best { self.new.best ≡ self.old.best }
        ensures old { (i : ℕ) → i < known → origin_at self.new.origins i ≡ origin_at self.old.origins i }
        ensures new { (i : ℕ) → known ≤ i → i < known + count → origin_at self.new.origins i ≡ origin }
        ensures nodes { IsOfNodes self.new.origins (known + count) }
    {
        if let Form::Each(_, origins) = &mut self.form {
            fill(origins, count, origin);
        }
    }
}

/// Inserts an ancestry with its content into a block of nodes. If the block has another owner, the call replaces the
/// block with a copy.
fn insert_shared(
    alloc: Global,
    shared: &mut Arc<Block>,
    revs: &[Rev],
    content: Content,
) -> Result<(), AllocError>
    requires led { IsLed (arc_value shared.old).nodes.items (arc_value shared.old).best }
    requires ancestry { IsAncestry revs.now }
    requires none { first_contradiction (tree_of (arc_value shared.old).nodes.items).parents (edges_of revs.now) ≡ None }
    ensures tree { OnOk result (tree_of (arc_value shared.new).nodes.items
        ≡ merged (tree_of (arc_value shared.old).nodes.items) revs.now content no_origin) }
    ensures best { OnOk result (slice_get (revs_in (arc_value shared.new).nodes.items) (arc_value shared.new).best
        ≡ first_of (leaves (tree_of (arc_value shared.new).nodes.items))) }
    ensures kept { (i : ℕ) (r : RevId)
        → slice_get (revs_in (arc_value shared.old).nodes.items) i ≡ Some r
        → slice_get (revs_in (arc_value shared.new).nodes.items) i ≡ Some r }
    ensures len { length (arc_value shared.new).nodes.items ≤ length (arc_value shared.old).nodes.items + length revs.now }
    ensures err { OnErr result ((arc_value shared.new).nodes.items ≡ (arc_value shared.old).nodes.items) }
    ensures err_best { OnErr result ((arc_value shared.new).best ≡ (arc_value shared.old).best) }
{
    match Arc::get_mut(shared) {
        Some(block) => block.insert(revs, content),
        None => {
            let mut block = shared.copy(alloc)?;
            block.insert(revs, content)?;
            *shared = Arc::new(alloc, block)?;
            Ok(())
        }
    }
}

/// Copies the node of a tree with one revision to a block with a list of nodes. The list has space for those revisions
/// of `revs` that have no node.
fn listed(alloc: Global, single: &Single, revs: &[Rev]) -> Result<Arc<Block>, AllocError>
    ensures items { IfOk result (λ b. (arc_value b).nodes.items ≡ single.now ∷ []) }
    ensures best { IfOk result (λ b. (arc_value b).best ≡ 0) }
{
    let nodes = single.to_nodes(alloc, revs)?;
    Ok(Arc::new(alloc, Block { nodes, best: 0 })?)
}
