//! Messages that come from the source. The invariants of the message types say that a message comes from the source.
//! Proofs about each thread can therefore use this fact.
ghost use Rattle.std.specs.Prelude.{◌≡◌, ◌<◌, [], true, length, IfOk};
ghost use Rattle.std.specs.List.{sum_by};
ghost use Rattle.couch_base.specs.Database.{DatabaseValue};
ghost use Rattle.couch_base.specs.Messages.{open_revs, revs_diff};
ghost use Rattle.repl_target.specs.replication.Replication.{is_batch, next_window};
ghost use Rattle.pool_workers.specs.Grown.{IsAnswerOf};
ghost use Rattle.pool_workers.specs.Paging.{IsNext};

use crate::brands::SourceBrand;
use couch_base::{Asked, Parcel, Row, Window};
use repl_target::{Peer, Plan, ReadyWindow, WriteFilter};
use std::alloc::{AllocError, Global};
use std::marker::{Model, PhantomData};

/// The size in bytes of the block with which `grow_heap` grows the calling thread's heap (the C library's memory arena
/// for the thread). `HEAP_STEP` bytes are enough for a parcel of 500 small documents.
const HEAP_STEP: usize = 512 * 1024;

/// The size in bytes of the block that `keep_heaps` frees. After a block of `HEAP_KEPT` bytes is freed, each heap may
/// keep up to `2 * HEAP_KEPT` free bytes at its end.
const HEAP_KEPT: usize = 1024 * 1024;

/// A page of the source's feed that was read for the run's plan, with only the rows of selected documents.
#[derive(Drop)]
pub struct Paged<S: SourceBrand> {
    ready: ReadyWindow,
    of: PhantomData<S>,
}

impl<S: SourceBrand> Model for Paged<S> {
    ghost use Rattle.couch_base.specs.Feed.{WindowValue};

    ghost Value = { WindowValue };

    ghost use Rattle.pool_workers.specs.Paging.{IsNext};

    ghost view = { λ p. p.ready };

    ghost invariant = { λ p. IsNext S.source S.plan p.ready };
}

impl<S: SourceBrand> Paged<S> {
    /// Reads the page of the source's feed above the sequence `since`. The plan gives the window size and the
    /// selection.
    pub fn read<F: WriteFilter>(
        alloc: Global,
        source: &Peer<F>,
        since: u64,
        plan: &Plan,
    ) -> Result<Paged<S>, AllocError>
        requires source { S.source ≡ source.now.1.db }
        requires plan { S.plan ≡ plan.now }
        requires batch { is_batch plan.now.batch ≡ true }
        requires due { since < source.now.1.db.update_seq }
        ensures { IfOk result (λ p. p ≡ next_window source.now.1.db plan.now since) }
    {
        let goal = source.db().update_seq();
        let window = source.page_due(alloc, since, goal, plan.batch, plan.chosen.as_ref())?;
        Ok(Paged {
            ready: ReadyWindow::new(window),
            of: PhantomData,
        })
    }

    /// Returns the window.
    pub fn window(&self) -> &Window
        ensures value { result.now ≡ self.now }
        ensures page { IsNext S.source S.plan self.now }
    {
        self.ready.window()
    }

    /// Builds a shortened copy of the window (`ReadyWindow::prepare`). The target keeps the copy after the window is
    /// done.
    pub fn prepare(&mut self, alloc: Global)
        ensures { self.new ≡ self.old }
    {
        self.ready.prepare(alloc);
    }

    /// Returns the window, with the window's shortened copy if `prepare` has built it.
    pub fn into_ready(self) -> ReadyWindow
        ensures value { result ≡ self }
        ensures page { IsNext S.source S.plan self }
    {
        self.ready
    }

    /// Copies the page. The new page has no prebuilt `DoneWindow` (a window without leaves), even if `prepare` has
    /// built one for the original page.
    pub fn copy(&self, alloc: Global) -> Result<Paged<S>, AllocError>
        ensures { IfOk result (λ p. p ≡ self.now) }
    {
        let window = self.window().copy(alloc)?;
        Ok(Paged {
            ready: ReadyWindow::new(window),
            of: PhantomData,
        })
    }
}

/// A request, and the number of documents that the source would return for the request. A fetcher has counted the
/// requested documents, but no thread has read them yet.
#[derive(Drop)]
pub struct Found<S: SourceBrand> {
    page: Paged<S>,
    asked: Asked,
    documents: u128,
}

impl<S: SourceBrand> Model for Found<S> {
    ghost use Rattle.pool_workers.specs.Found.{FoundValue};

    ghost Value = { FoundValue };

    ghost use Rattle.std.specs.Prelude.{◌≡◌, length};
    ghost use Rattle.couch_base.specs.Messages.{open_revs};

    ghost view = { λ f. record { page = f.page; parcel = open_revs S.source f.asked } };

    ghost invariant = { λ f. f.documents ≡ length (open_revs S.source f.asked).docs };
}

impl<S: SourceBrand> Found<S> {
    /// Counts the documents that the source would return for the request `asked`.
    pub fn count<F: WriteFilter>(
        alloc: Global,
        source: &Peer<F>,
        asked: Asked,
        page: Paged<S>,
    ) -> Result<Found<S>, AllocError>
        requires { S.source ≡ source.now.1.db }
        ensures { IfOk result (λ f. f ≡ record { page = page; parcel = open_revs source.now.1.db asked }) }
    {
        let documents = source.count_asked(alloc, &asked)?;
        Ok(Found {
            page,
            asked,
            documents,
        })
    }

    /// Counts the documents that the source would return if all leaves of the page `page` were requested. The source
    /// returns one document per leaf. The function `whole` therefore counts leaves, and does not search the source.
    pub fn whole<F: WriteFilter>(source: &Peer<F>, asked: Asked, page: Paged<S>) -> Found<S>
        requires source { S.source ≡ source.now.1.db }
        requires whole { (db : DatabaseValue) × (db.docs ≡ []) × (asked ≡ revs_diff db page) }
        ensures { result ≡ record { page = page; parcel = open_revs source.now.1.db asked } }
    {
        source.law();
        let documents = leaf_count(page.window().rows());
        Found {
            page,
            asked,
            documents,
        }
    }

    /// Returns the number of documents that the source returns for the requested leaves.
    pub fn documents(&self) -> u128
        ensures { result ≡ length self.now.parcel.docs }
    {
        self.documents
    }

    /// Copies the page whose leaves are requested.
    pub fn page(&self, alloc: Global) -> Result<Paged<S>, AllocError>
        ensures { IfOk result (λ p. p ≡ self.now.page) }
    {
        self.page.copy(alloc)
    }

    /// Reads the documents at the source. If `prepares` is true, `fetch` also builds in advance the trees for settling
    /// the documents.
    pub fn fetch<F: WriteFilter>(
        self,
        alloc: Global,
        source: &Peer<F>,
        prepares: bool,
    ) -> Result<Fetched<S>, AllocError>
        requires { S.source ≡ source.now.1.db }
        ensures { IfOk result (λ p. p ≡ self.parcel) }
    {
        let Found {
            page: _,
            asked,
            documents: _,
        } = self;
        Fetched::<S>::fetch(alloc, source, asked, prepares)
    }
}

/// The source's documents for a request, after they are read.
#[derive(Drop)]
pub struct Fetched<S: SourceBrand> {
    ready: Parcel,
    of: PhantomData<S>,
}

impl<S: SourceBrand> Model for Fetched<S> {
    ghost use Rattle.couch_base.specs.Messages.{ParcelValue};

    ghost Value = { ParcelValue };

    ghost use Rattle.pool_workers.specs.Grown.{IsAnswerOf};

    ghost view = { λ p. p.ready };

    ghost invariant = { λ p. IsAnswerOf S.source p.ready };
}

impl<S: SourceBrand> Fetched<S> {
    /// Reads the documents that the source returns for a request. If `prepares` is true, `fetch` also builds in advance
    /// the trees for settling the documents.
    pub fn fetch<F: WriteFilter>(
        alloc: Global,
        source: &Peer<F>,
        asked: Asked,
        prepares: bool,
    ) -> Result<Fetched<S>, AllocError>
        requires { S.source ≡ source.now.1.db }
        ensures { IfOk result (λ p. p ≡ open_revs source.now.1.db asked) }
    {
        if prepares {
            grow_heap(alloc);
        }
        let mut ready = source.open_asked(alloc, asked)?;
        if prepares {
            ready.prepare(alloc)?;
        }
        Ok(Fetched {
            ready,
            of: PhantomData,
        })
    }

    /// Returns the number of documents that the source returns for the requested leaves.
    pub fn documents(&self) -> u64
        ensures { result ≡ length self.now.docs }
    {
        self.ready.docs().len() as u64
    }

    /// Returns the parcel, with the trees that were built in advance for its documents.
    pub fn into_ready(self) -> Parcel
        ensures value { result ≡ self }
        ensures answer { IsAnswerOf S.source self }
    {
        self.ready
    }
}

/// Returns the number of leaves in the given feed rows.
fn leaf_count(rows: &[Row]) -> u128
    ensures { result ≡ sum_by (λ row. length row.leaves) rows.now }
{
    let mut count: u128 = 0;
    for row in rows {
        count += row.leaves().len() as u128;
    }
    count
}

/// Grows the heap of this thread by more than a page.
///
/// The C library grows the heap of each thread except the first by one page per system call, and all threads may have
/// to wait for the system call. `grow_heap` allocates and frees one large block. The heap then grows in one step, if
/// `keep_heaps` makes it keep the freed memory.
fn grow_heap(alloc: Global) {
    if let Ok(room) = Vec::<u8>::with_capacity(alloc, HEAP_STEP) {
        drop(room);
    }
}

/// Lets the C library keep up to `2 * HEAP_KEPT` free bytes at the end of each thread's heap. Free bytes at the end of
/// a thread's heap let the thread reuse the memory of a freed parcel.
///
/// By default, the C library releases the free memory at the end of a heap if this memory exceeds 128 KiB. The C
/// library allocates large blocks directly from the system. When a large block is freed, the C library raises the limit
/// from 128 KiB to twice the size of this block, for each heap.
pub fn keep_heaps(alloc: Global) {
    if let Ok(room) = Vec::<u8>::with_capacity(alloc, HEAP_KEPT) {
        drop(room);
    }
}
