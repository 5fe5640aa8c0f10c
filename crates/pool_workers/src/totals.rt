//! Combines the results of a run's workers, after the workers have ended.
ghost use Rattle.std.specs.Prelude.{◌≡◌, ℕ, ◌≤◌, true, Option, Some, None, IfSome, length, sum, option_copied};
ghost use Rattle.rev_tree.specs.declared.origin.SessionId.{SessionId};
ghost use Rattle.crossbeam_channel.specs.Claims.{view, IsSeatAt};
ghost use Rattle.crossbeam_channel.specs.Ends.{sends_on};
ghost use Rattle.pool_workers.specs.Boards.{MayFill};
ghost use Rattle.pool_workers.specs.Faults.{IsHaltOn};
ghost use Rattle.pool_workers.specs.Gathered.{IsWhole, Tells, StopsWhere};
ghost use Rattle.pool_workers.specs.Grown.{TargetKeeps};
ghost use Rattle.pool_workers.specs.Sums.{times, weigh};
ghost use Rattle.pool_workers.specs.Workers.{names};
ghost use Rattle.pool_workers.specs.declared.threads.Ended.{Ended};

use crate::brands::{SourceBrand, TargetBrand};
use crate::channels::Channels;
use crate::fault::{PoolFault, merge};
use crate::gate::Gate;
use crate::gather::{FetchedAll, WrittenAll};
use crate::parcels::Whole;
use crate::run_target::RunTarget;
use crate::threads::Ended;
use crate::windows::AllTaken;
use progress_board::{Board, BoardSeat};
use repl_target::{Peer, WriteFilter};
use std::alloc::Global;
use std::sync::ledger::Ledger;

/// The result of a run: the target, each fetcher's number of documents, the seats (access tokens) of the progress
/// board, and the error of a failed step. The field `complete` says whether the writers received all parcels that the
/// fetchers sent.
#[derive(Drop)]
pub struct Summed<F: WriteFilter> {
    pub target: Peer<F>,
    pub fetched: Vec<u64>,
    pub seats: Vec<BoardSeat>,
    pub fault: Option<PoolFault>,
    pub complete: bool,
}

/// Combines the results of the workers, if the workers were started.
pub fn collect<F: WriteFilter, S: SourceBrand, T: TargetBrand<F>, L: Ledger, G: Gate>(
    alloc: Global,
    channels: &Channels<S>,
    gate: &G,
    board: Option<&Board>,
    target: RunTarget<F, S, T, L>,
    ended: Option<Ended<S, L>>,
    seats: Vec<BoardSeat>,
) -> Summed<F>
    requires window_seat { IfSome ended (λ e. IsSeatAt (sends_on channels.now.to_fetchers) e.windows) }
    requires parcel_seat { IfSome ended (λ e. IsSeatAt (sends_on channels.now.to_writers) e.parcels) }
    requires whole { IfSome ended (IsWhole L.parts) }
    requires tells { IfSome ended Tells }
    requires halted { IfSome ended (StopsWhere (MayFill (option_copied board)) (G.may_stop gate.now)) }
    ensures target { (session : SessionId) × (total : ℕ) × (more : Option ℕ)
        × TargetKeeps F.refuses S.source S.plan T.given session total more result.target }
    ensures sum { result.fault ≡ None → result.complete ≡ true
        → (session : SessionId) × (more : Option ℕ)
        × TargetKeeps F.refuses S.source S.plan T.given session (sum result.fetched.items) more result.target }
    ensures halted { IfSome result.fault (IsHaltOn (MayFill (option_copied board.entry)) (G.may_stop gate.now)) }
    ensures amount { result.fault ≡ None → result.complete ≡ true
        → (e : Ended S L) × (ended ≡ Some e) × (e.written.stopped ≡ None) × (e.all.amount ≡ sum result.fetched.items) }
    ensures seats { result.seats ≡ seats }
{
    match ended {
        Some(ended) => sum_up(channels, gate, board, target, ended, seats),
        None => Summed {
            target: target.give_back(),
            fetched: Vec::new(alloc),
            seats,
            fault: Some(PoolFault::Memory),
            complete: false,
        },
    }
}

/// Takes the target out of its lock, combines the results of the workers, and determines whether all sent parcels were
/// received.
fn sum_up<F: WriteFilter, S: SourceBrand, T: TargetBrand<F>, L: Ledger, G: Gate>(
    channels: &Channels<S>,
    gate: &G,
    board: Option<&Board>,
    target: RunTarget<F, S, T, L>,
    ended: Ended<S, L>,
    seats: Vec<BoardSeat>,
) -> Summed<F>
    requires window_seat { IsSeatAt (sends_on channels.now.to_fetchers) ended.windows }
    requires parcel_seat { IsSeatAt (sends_on channels.now.to_writers) ended.parcels }
    requires whole { IsWhole L.parts ended }
    requires tells { Tells ended }
    requires halted { StopsWhere (MayFill (option_copied board)) (G.may_stop gate.now) ended }
    ensures target { (session : SessionId) × (total : ℕ) × (more : Option ℕ)
        × TargetKeeps F.refuses S.source S.plan T.given session total more result.target }
    ensures sum { result.fault ≡ None → result.complete ≡ true
        → (session : SessionId) × (more : Option ℕ)
        × TargetKeeps F.refuses S.source S.plan T.given session (sum result.fetched.items) more result.target }
    ensures halted { IfSome result.fault (IsHaltOn (MayFill (option_copied board.entry)) (G.may_stop gate.now)) }
    ensures amount { result.fault ≡ None → result.complete ≡ true
        → (ended.written.stopped ≡ None) × (ended.all.amount ≡ sum result.fetched.items) }
    ensures seats { result.seats ≡ seats }
{
    let mut ended = ended;
    each_once(channels, &mut ended);
    let Ended {
        windows: _,
        parcels: _,
        mut all,
        read,
        fetched,
        written,
    } = ended;
    let target = target.close(&mut all);
    let FetchedAll {
        counts,
        sent,
        stopped,
    } = fetched;
    let WrittenAll {
        got,
        stopped: halted,
    } = written;
    let fault = merge(read, stopped, halted);
    Summed {
        target,
        fetched: counts,
        seats,
        fault,
        complete: sent == got,
    }
}

/// States three facts about the windows and parcels of a run, for use in proofs. For each channel, the call needs all
/// 1,024 parts of the pass (the ghost right to use the channel). At most one fetcher took each window. If no fetcher
/// halted, at most one writer received each parcel. If the numbers of sent and received parcels are equal, exactly the
/// sent parcels were received, each with the same number of documents.
fn each_once<S: SourceBrand, L: Ledger>(channels: &Channels<S>, ended: &mut Ended<S, L>)
    requires window_seat { IsSeatAt (sends_on channels.now.to_fetchers) ended.old.windows }
    requires parcel_seat { IsSeatAt (sends_on channels.now.to_writers) ended.old.parcels }
    requires whole { IsWhole L.parts ended.old }
    requires tells { Tells ended.old }
    ensures taken { (k : ℕ) → times k (view ended.new.windows).taken ≤ 1 }
    ensures got { ended.new.fetched.stopped ≡ None → (k : ℕ) → times k (names (view ended.new.parcels).got) ≤ 1 }
    ensures agree { length (view ended.new.parcels).sent ≡ length (view ended.new.parcels).got → (h : ℕ → ℕ → ℕ)
        → weigh h (view ended.new.parcels).sent ≡ weigh h (view ended.new.parcels).got }
    ensures tells { Tells ended.new }
    ensures same { (ended.new.all ≡ ended.old.all) × (ended.new.read ≡ ended.old.read)
        × (ended.new.fetched ≡ ended.old.fetched) × (ended.new.written ≡ ended.old.written) }
{
    channels
        .to_fetchers
        .learn_as::<AllTaken>(&mut ended.windows);
    channels.to_writers.learn_as::<Whole>(&mut ended.parcels);
}
