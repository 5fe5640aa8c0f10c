//! Performs one replication with a pool of threads.
ghost use Rattle.std.specs.Prelude.{◌≡◌, ◌⊎◌, ◌<◌, ◌≤◌, [], true, Some, None, Ok, Err, IfOk, IfErr, OnOk, OnErr, is_none, sum, vec_len, option_copied};
ghost use Rattle.std.specs.List.{All};
ghost use Rattle.couch_base.specs.Database.{DatabaseValue, LawfulDatabase};
ghost use Rattle.repl_peer.specs.peer.Peer.{SessionValue, session_in};
ghost use Rattle.repl_peer.specs.peer.Law.{Lawful};
ghost use Rattle.repl_peer.specs.session.ReadCounts.{read_in};
ghost use Rattle.repl_peer.specs.declared.fault.TargetFault.TheVariants as faults;
ghost use Rattle.repl_target.specs.replication.Replication.{is_batch, start_between, begins_answer, after_begins};
ghost use Rattle.doc_json.specs.Chosen.{Choice};
ghost use Rattle.pool_workers.specs.Grown.{GrownPeer, HasRun};
ghost use Rattle.pool_workers.specs.Paging.{HasNoWindows};
ghost use Rattle.pool_workers.specs.Boards.{WorksAt, AreRisen, HaveRisenBy, MayFill, AreSeats, AreBack, HaveShown};
ghost use Rattle.repl_pool.specs.Crews.{crew_of};
ghost use Rattle.repl_pool.specs.Runs.{ClosesRun, EndsRun, RunsOn, Runs};

use crate::begin::check_run;
use crate::end::end;
use pool_workers::{
    Channels, Context, Gate, GivenTarget, Owned, PoolFault, RunTarget, SourceBrand, Summed,
    TargetBrand, collect,
};
use progress_board::{Board, BoardSeat};
use repl_target::{Peer, Plan, Report, TargetFault, WriteFilter, begin_plan};
use std::alloc::Global;
use std::marker::Brand;
use std::sync::ledger::{Blank, Ledger};
use std::sync::{Mutex, Wait};
use std::thread::Threads;

/// The result of a run: both peers, each fetcher's number of documents, the writers' seats, and the report or the
/// error.
#[derive(Drop)]
pub struct Ran<F: WriteFilter> {
    /// The source. At the source, a run changes at most the outgoing logs.
    pub source: Peer<F>,
    /// The target.
    pub target: Peer<F>,
    /// The number of documents that each fetcher counted. The list is empty if the run started no fetcher.
    pub fetched: Vec<u64>,
    /// The board seats (access tokens for the progress board) that the caller gave to the writers, in the given order.
    /// The list of seats is empty after a call of `run`, because a caller of `run` passes no progress board and no
    /// seats.
    pub seats: Vec<BoardSeat>,
    /// The report of the plan's session, or the error.
    pub outcome: Result<Report, PoolFault>,
}

/// A progress board on which a run shows its progress, with a seat (an access token for the board) for each worker of
/// the plan. A worker updates the board through its seat.
#[derive(Drop)]
pub struct Progress<'a> {
    /// The board.
    pub board: &'a Board,
    /// The seats (the workers' shares of the board) through which the workers update the board.
    pub seats: Vec<BoardSeat>,
}

/// A run whose session has begun at the target. The record has both peers, the session's start, and the number of
/// fetchers. The number of writers equals the number of fetchers.
#[derive(Drop)]
struct Begun<F: WriteFilter> {
    source: Peer<F>,
    target: Peer<F>,
    start: u64,
    crew: u64,
}

/// Returns the number of fetchers of a run, which is also the number of writers. The number of fetchers is the smaller
/// of the plan's number of workers and the maximum number of windows that the run can read. If the run has no window to
/// read, it starts no worker, and the call returns 1.
fn crew_of(plan: &Plan, start: u64, goal: u64) -> u64
    requires workers { 0 < plan.now.workers }
    requires batch { is_batch plan.now.batch ≡ true }
    ensures { result ≡ crew_of plan.now start goal }
{
    if goal <= start {
        return 1;
    }
    let further = (goal - start - 1) / plan.batch;
    if further < plan.workers {
        further + 1
    } else {
        plan.workers
    }
}

/// The board of a run, or `None`, and the seats (the writers' shares of the board) through which the writers update the
/// board.
#[derive(Drop)]
struct Shows<'a> {
    board: Option<&'a Board>,
    seats: Vec<BoardSeat>,
}

/// Ends a run whose workers were not started, because an allocation failed or because the run has no window to read.
fn without_workers<F: WriteFilter>(
    alloc: Global,
    begun: Begun<F>,
    plan: &Plan,
    seats: Vec<BoardSeat>,
    fault: Option<PoolFault>,
) -> Ran<F>
    requires held { (s : SessionValue) × (session_in begun.target.1.sessions plan.now.session ≡ Some s) }
    ensures fetched { result.fetched.items ≡ [] }
    ensures seats { result.seats ≡ seats }
    ensures filter { result.source.0 ≡ begun.source.0 }
    ensures source { result.source.1 ≡ record begun.source.1 { outgoing = result.source.1.outgoing } }
    ensures grown { (db : DatabaseValue) (c : Choice)
        → GrownPeer F.refuses db c plan.now.session begun.target result.target }
    ensures ends { ClosesRun plan.now fault (is_none fault) begun.source.1 begun.target.1 result.source.1
        result.target.1 result.outcome }
{
    let Begun {
        source,
        target,
        start: _,
        crew: _,
    } = begun;
    let complete = fault.is_none();
    let summed = Summed {
        target,
        fetched: Vec::new(alloc),
        seats,
        fault,
        complete,
    };
    end(source, summed, plan)
}

/// Performs a replication with a pool of threads, after its session has begun at the target.
fn run_begun<
    F: WriteFilter + Send + Sync,
    S: SourceBrand + Send + Sync,
    T: TargetBrand<F> + Send + Sync,
    L: Ledger + Send + Sync,
    G: Gate + Sync,
    R: Threads + Wait + Sync,
>(
    rt: &R,
    alloc: Global,
    blank: Blank,
    begun: Begun<F>,
    plan: &Plan,
    gate: &G,
    shows: Shows<'_>,
) -> Ran<F>
    requires name { blank.name ≡ L.name }
    requires parts { blank.parts ≡ L.parts }
    requires workers { (blank.parts ≡ begun.crew) × (0 < begun.crew) × (begun.crew ≤ 64) }
    requires batch { is_batch plan.now.batch ≡ true }
    requires seats { AreSeats (option_copied shows.board) 0 begun.crew shows.seats.items }
    requires source { S.source ≡ begun.source.1.db }
    requires plan { S.plan ≡ plan.now }
    requires given { T.given ≡ Some (begun.target, plan.now.session) }
    requires none { read_in begun.target.1.sessions plan.now.session ≡ 0 }
    requires fresh { HasNoWindows plan.now.session begun.target.1.sessions }
    requires run { HasRun begun.source.1.db plan.now.session begun.target.1.sessions }
    requires held { (s : SessionValue) × (session_in begun.target.1.sessions plan.now.session ≡ Some s) }
    ensures filter { result.source.0 ≡ begun.source.0 }
    ensures source { result.source.1 ≡ record begun.source.1 { outgoing = result.source.1.outgoing } }
    ensures grown { GrownPeer F.refuses begun.source.1.db plan.now.chosen plan.now.session begun.target result.target }
    ensures ends { EndsRun F.refuses (MayFill (option_copied shows.entry.board)) (G.may_stop gate.now) plan.now
        begun.source.1 begun.target result.fetched.items result.source.1 result.target.1 result.outcome }
    ensures back { AreBack (option_copied shows.entry.board) shows.entry.seats.items result.seats.items }
    ensures shown { IfOk result.outcome
        (λ _. HaveShown (option_copied shows.entry.board) (sum result.fetched.items) None shows.entry.seats.items
        result.seats.items) }
{
    let Shows { board, seats } = shows;
    begun.source.law();
    begun.target.law();
    if begun.start == begun.source.db().update_seq() {
        return without_workers(alloc, begun, plan, seats, None);
    }
    let workers = begun.crew as usize;
    let counts = match Vec::with_capacity(alloc, workers) {
        Ok(counts) => counts,
        Err(refused) => {
            let fault = Some(PoolFault::from(refused));
            return without_workers(alloc, begun, plan, seats, fault);
        }
    };
    let (channels, windows, parcels) = match Channels::<S>::open(alloc, 2 * workers) {
        Ok(opened) => opened,
        Err(refused) => {
            let fault = Some(PoolFault::from(refused));
            return without_workers(alloc, begun, plan, seats, fault);
        }
    };
    let Begun {
        source,
        target,
        start,
        crew: _,
    } = begun;
    let given = GivenTarget::<F, T>::of(alloc, &target, plan.session);
    let (ledger, all) = blank.open::<L>();
    let locked = Mutex::new(RunTarget::<F, S, T, L>::open(
        target,
        plan.session,
        plan.stop_after,
        ledger,
    ));
    let context = Context {
        rt,
        alloc,
        channels: &channels,
        source: &source,
        target: &locked,
        given: &given,
        gate,
        plan,
        board,
        workers,
    };
    let owned = Owned {
        counts,
        windows,
        parcels,
        all,
        seats,
    };
    let (ended, seats) = context.with_workers(workers, start, owned);
    let locked = locked.into_inner();
    let summed = collect(alloc, &channels, gate, board, locked, ended, seats);
    end(source, summed, plan)
}

/// Begins the session of a plan (`begin_plan`). If the plan has several workers and selects all documents, the call also
/// reserves the capacity for the source's documents at the target (`Peer::reserve_like`). Without the reserved capacity,
/// a writer would move the stored documents to larger blocks while the other writers wait for the target's lock.
fn begin_reserved<F: WriteFilter>(
    source: &Peer<F>,
    target: &mut Peer<F>,
    plan: &Plan,
) -> Result<u64, TargetFault>
    ensures filter { target.new.0 ≡ target.old.0 }
    ensures start { IfOk result (λ start. start ≡ start_between source.now.1 target.old.1 plan.now.chosen) }
    ensures ok { OnOk result
        ((begins_answer source.now.1 target.old.1 plan.now ≡ Ok tt)
        × (target.new.1 ≡ after_begins source.now.1 target.old.1 plan.now)) }
    ensures err { OnErr result (target.new.1 ≡ target.old.1) }
    ensures refused { IfErr result
        (λ why. (why ≡ faults.Memory) ⊎ (begins_answer source.now.1 target.old.1 plan.now ≡ Err why)) }
    ensures target_law { Lawful (F.refuses target.new.0) target.new.1 }
    ensures source_law { LawfulDatabase source.now.1.db }
{
    let begun = begin_plan(source, target, plan);
    if begun.is_ok() && plan.workers > 1 && plan.chosen.is_none() {
        target.reserve_like(source);
    }
    begun
}

/// Performs a run with a board (`run_on`) or without a board (`run`).
fn run_with<F: WriteFilter + Send + Sync, G: Gate + Sync, R: Threads + Wait + Sync>(
    rt: &R,
    alloc: Global,
    source: Peer<F>,
    target: Peer<F>,
    plan: &Plan,
    gate: &G,
    shows: Shows<'_>,
) -> Ran<F>
    requires seats { AreSeats (option_copied shows.board) 0 plan.now.workers shows.seats.items }
    ensures runs { RunsOn F.refuses (MayFill (option_copied shows.entry.board)) (G.may_stop gate.now) plan.now source
        target result.source result.target result.fetched.items result.outcome }
    ensures back { AreBack (option_copied shows.entry.board) shows.entry.seats.items result.seats.items }
    ensures shown { IfOk result.outcome
        (λ report. HaveShown (option_copied shows.entry.board) report.counts.read None shows.entry.seats.items
        result.seats.items) }
{
    source.law();
    target.law();
    if let Err(why) = check_run(&source, &target, plan) {
        return Ran {
            source,
            target,
            fetched: Vec::new(alloc),
            seats: shows.seats,
            outcome: Err(why),
        };
    }
    let mut target = target;
    match begin_reserved(&source, &mut target, plan) {
        Ok(start) => {
            let crew = crew_of(plan, start, source.db().update_seq());
            let blank = Blank::new(crew);
            let begun = Begun {
                source,
                target,
                start,
                crew,
            };
            run_begun::<F, Brand, Brand, Brand, G, R>(rt, alloc, blank, begun, plan, gate, shows)
        }
        Err(fault) => Ran {
            source,
            target,
            fetched: Vec::new(alloc),
            seats: shows.seats,
            outcome: Err(PoolFault::Refused(fault)),
        },
    }
}

/// Replicates the source's documents into the target with a pool of threads. The caller's thread begins the session at
/// the common checkpoint of the two logs, and reads the source's feed in windows. The caller's thread stores each
/// window at the target, and sends the window to a fetcher. The number of fetchers is `plan.workers`, or the maximum
/// number of the run's windows if this number is smaller. A run has one writer for each fetcher. A fetcher asks the
/// target which leaves are missing, counts the requested documents at the source, and sends the request to a writer. A
/// writer reads the requested parcel, settles the parcel, and records the session. A lock protects the target, and the
/// workers share the source read-only. Workers call the `Gate`, a callback, at each stage of a window, and hold no lock
/// during the call. If the `Gate` never blocks a worker (`may_block` returns `false`), each fetcher shares a thread
/// with a writer.
///
/// After all workers have ended, the caller's thread concludes the session. If the session cannot be concluded, the
/// caller's thread records the session's low water. Last, the caller's thread stores the session's entry in the
/// source's log, unless the log has a newer entry of the session. The call does not scan the feed again, because each
/// leaf was checked when its window was marked as done. The proof shows that the target covers every leaf above the
/// session's start if the session is concluded. The call therefore never returns the error `Hole`, which would name an
/// uncovered leaf.
///
/// If the run succeeds, the target covers each leaf of the source's selected feed above the session's start. A
/// successful call returns the report of the session, which began at the common checkpoint and has recorded the
/// source's update sequence. The sum of the fetchers' counts of documents is the report's number of documents read.
/// Suppose that a run starts with an empty target, succeeds, and refuses no document. The target then has all
/// revisions, parents and leaf contents of the source's selected documents. After a successful run between consistent
/// peers (docs/PROFILE.md, "Tied peers"), the target covers each leaf of the source's selected feed, even below the
/// session's start.
///
/// At the source, the run changes only the outgoing logs, even if the run fails. Only the start of the session and
/// calls for this session change the target. All windows and parcels that the run passes to the target come from the
/// source. The target keeps all its documents, sessions and logs. If the peers were consistent, they stay consistent.
/// Third peers stay consistent with the source and the target, under two conditions (`KeepsOthersTied`). Another source
/// of the target must not have the UUID of the run's source. Another target of the source must not have the UUID of the
/// run's target. If the peers were consistent (docs/PROFILE.md, "Tied peers"), an audit after the run finds no
/// uncovered leaf. An uncovered leaf is neither in the document's tree at the target nor in the ledger of a session.
///
/// The call blocks until the run ends. The contract does not guarantee that a run ends.
///
/// # Errors
///
/// - `NoWorkers`, `TooManyWorkers`, `BadBatch`, `SamePeer`: the errors of `check_run`, in this order.
/// - `Refused`: a step of the run failed, or `stop_after` ended the run below the source's update sequence.
/// - `Halted`: the `Gate` returned `Stop` at the stage of a window that the error names.
/// - `CountFull`: a fetcher's count of documents would exceed 9,007,199,254,740,991.
/// - `Memory`: an allocation failed, or a thread cannot be created.
///
/// After an error of `check_run`, both peers are unchanged. The run returns `Refused(Unfinished)` if no worker failed
/// or was stopped, but `stop_after` ended the run below the source's update sequence. If several workers failed or were
/// stopped, the run returns the error of one of these workers.
pub fn run<F: WriteFilter + Send + Sync, G: Gate + Sync, R: Threads + Wait + Sync>(
    rt: &R,
    alloc: Global,
    source: Peer<F>,
    target: Peer<F>,
    plan: &Plan,
    gate: &G,
) -> Ran<F>
    ensures runs { Runs F.refuses (G.may_stop gate.now) plan.now source target result.source result.target
        result.fetched.items result.outcome }
    ensures seats { result.seats.items ≡ [] }
{
    let unseen = Shows {
        board: None,
        seats: Vec::new(alloc),
    };
    run_with(rt, alloc, source, target, plan, gate, unseen)
}

/// Performs a `run` that shows its progress on a board. Viewers may read the progress on the board during the run
/// (`Board::read`). Each writer updates the board through a separate seat (an access token for the board). Before a
/// writer settles a parcel, the writer adds the number of documents in the parcel to the read counter of its seat.
/// After the writer has settled the parcel, it adds the number of settled documents to its settled counter on the
/// board. After updating its settled counter, a writer calls the `Gate` at the stage `Settled`. Updating and reading
/// the board takes no lock.
///
/// The caller must give one seat for each worker of the plan. The call always returns the seats in order. No counter of
/// a seat has decreased, even if the run failed. If the run succeeds, the sum of the seats' read counters has risen by
/// the report's number of documents read. The sum of the seats' settled counters has also risen by the number of
/// documents read.
///
/// In addition to the errors of `run`, the call returns `BoardFull` if a writer's read counter would exceed
/// 9,007,199,254,740,991. The writer does not settle a parcel if the parcel's documents would make the read counter
/// exceed 9,007,199,254,740,991.
pub fn run_on<F: WriteFilter + Send + Sync, G: Gate + Sync, R: Threads + Wait + Sync>(
    rt: &R,
    alloc: Global,
    source: Peer<F>,
    target: Peer<F>,
    plan: &Plan,
    gate: &G,
    progress: Progress<'_>,
) -> Ran<F>
    requires seats { (vec_len progress.seats ≡ plan.now.workers)
        × All (WorksAt progress.board.now) progress.seats.items }
    ensures runs { RunsOn F.refuses (Unit {0}) (G.may_stop gate.now) plan.now source target result.source result.target
        result.fetched.items result.outcome }
    ensures seats { AreRisen progress.entry.board.now progress.entry.seats.items result.seats.items }
    ensures shown { IfOk result.outcome
        (λ report. HaveRisenBy report.counts.read progress.entry.seats.items result.seats.items) }
{
    let shows = Shows {
        board: Some(progress.board),
        seats: progress.seats,
    };
    run_with(rt, alloc, source, target, plan, gate, shows)
}
