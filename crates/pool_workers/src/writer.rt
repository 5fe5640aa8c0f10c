//! The steps of a writer, a worker that settles parcels at the target and records the session's low water.
ghost use Rattle.std.specs.Prelude.{◌≡◌, ℕ, ◌+◌, ◌-◌, ◌^◌, ◌<◌, [], ◌∷◌, ◌++◌, length, IfSome, IfErr, OnOk, Option, None, option_copied, option_to_list, vec_capacity};
ghost use Rattle.crossbeam_channel.specs.Claims.{view, IsSeatAt};
ghost use Rattle.crossbeam_channel.specs.Ends.{sends_on, receives_on};
ghost use Rattle.pool_workers.specs.Parcels.{parcel_view};
ghost use Rattle.progress_board.specs.declared.seat.BoardSeat.{BoardSeat};
ghost use Rattle.repl_peer.specs.declared.fault.TargetFault.{TargetFault};
ghost use Rattle.pool_workers.specs.Boards.{MayFill, AreSeats, IsSeated, IsFullFor, HasRoom, HasSettled, HasWritten, halt_in};
ghost use Rattle.pool_workers.specs.Workers.{WriterKnows, WriterShows};
ghost use Rattle.pool_workers.specs.Faults.{AllowsOn, IsStepFault, SaysFull};

use crate::brands::{SourceBrand, TargetBrand};
use crate::context::Context;
use crate::fault::Halt;
use crate::fetcher::pass;
use crate::gate::{Gate, Place};
use crate::messages::{Fetched, Found};
use crate::parcels::{Gets, ParcelCut, ParcelMessage, ParcelPass};
use crate::run_target::taken_of;
use crate::show::{show_read, show_settled};
use progress_board::BoardSeat;
use repl_target::{DeferredDrops, WriteFilter};
use rev_tree::SessionId;
use std::sync::Wait;
use std::sync::ledger::{Ledger, Share};

/// The state of a writer, a worker that settles parcels at the target. For proofs, a writer has the right to use the
/// channel of parcels, and a ghost count of the documents that it settled. If the run has a progress board, a writer
/// also has a seat (an access token to the progress board). A writer also has the number of parcels that it settled,
/// and the reason why it stopped.
#[derive(Drop)]
pub struct Writer<S: SourceBrand, L: Ledger> {
    pub parcels: ParcelPass<S>,
    pub share: Share<L>,
    pub got: u64,
    pub seat: Option<BoardSeat>,
    pub stopped: Option<Halt>,
}

impl<S: SourceBrand, L: Ledger> Writer<S, L> {
    /// Creates a writer that has received no parcel.
    pub fn new(parcels: ParcelPass<S>, share: Share<L>, seat: Option<BoardSeat>) -> Writer<S, L>
        requires parcels { view parcels ≡ parcel_view 1 [] [] }
        requires share { (share.parts ≡ 1) × (share.amount ≡ 0) }
        ensures parcels { result.parcels ≡ parcels }
        ensures knows { WriterKnows [] result }
        ensures free { result.stopped ≡ None }
        ensures share { result.share.amount ≡ 0 }
        ensures seat { result.seat ≡ seat }
    {
        Writer {
            parcels,
            share,
            got: 0,
            seat,
            stopped: None,
        }
    }
}

impl<F: WriteFilter, S: SourceBrand, T: TargetBrand<F>, L: Ledger, G: Gate, R: Wait> Context<
    '_,
    F,
    S,
    T,
    L,
    G,
    R,
> {
    /// Settles a parcel, and adds the number of settled documents to the writer's settled counter on the progress
    /// board.
    fn settle_and_show(
        &self,
        share: &mut Share<L>,
        seat: &mut Option<BoardSeat>,
        fetched: Fetched<S>,
        spent: &mut DeferredDrops,
    ) -> Result<(), Halt>
        requires parts { 0 < share.old.parts }
        requires seat { IsSeated (option_copied self.now.board) seat.old }
        requires room { HasRoom (option_copied self.now.board) (length fetched.docs) seat.old }
        ensures parts { share.new.parts ≡ share.old.parts }
        ensures ok { OnOk result (share.new.amount ≡ share.old.amount + length fetched.docs) }
        ensures err { IfErr result (λ halt. (fault : TargetFault) × (halt ≡ Halt.Refused fault) × IsStepFault fault) }
        ensures shows { HasSettled (option_copied self.now.board) share.old.amount share.new.amount seat.old seat.new }
    {
        let documents = fetched.documents();
        let result = self
            .target
            .lock(self.rt)
            .settle_counted(share, fetched, spent);
        show_settled(self.board, seat, taken_of(&result, documents));
        match result {
            Ok(_) => Ok(()),
            Err(fault) => Err(Halt::Refused(fault)),
        }
    }

    /// Takes the target's lock, records the session's low water at the target, and releases the lock. Returns the
    /// recorded sequence.
    fn record(&self) -> Result<u64, Halt>
        ensures { IfErr result (λ halt. (fault : TargetFault) × (halt ≡ Halt.Refused fault) × IsStepFault fault) }
    {
        match self.target.lock(self.rt).record(self.plan.at) {
            Ok(recorded) => Ok(recorded),
            Err(fault) => Err(Halt::Refused(fault)),
        }
    }

    /// Settles a parcel and records the low water at the target. The writer stops if a call fails, or if the gate (the
    /// callback that observes and may stop workers) returns `Stop`. If the run has a progress board, the call adds the
    /// documents to the writer's read count on the board before it settles the documents. After settling, the call adds
    /// the documents to the writer's settled count on the board, and then calls the gate.
    fn settle_and_record(
        &self,
        share: &mut Share<L>,
        seat: &mut Option<BoardSeat>,
        number: u64,
        fetched: Fetched<S>,
    ) -> Result<(), Halt>
        requires parts { 0 < share.old.parts }
        requires seat { IsSeated (option_copied self.now.board) seat.old }
        ensures parts { share.new.parts ≡ share.old.parts }
        ensures ok { OnOk result (share.new.amount ≡ share.old.amount + length fetched.docs) }
        ensures err { IfErr result (AllowsOn (MayFill (option_copied self.now.board)) (G.may_stop self.now.gate.now)) }
        ensures full { IfErr result (SaysFull ⊥ (IsFullFor (length fetched.docs) seat.old)) }
        ensures shows { HasWritten (option_copied self.now.board) share.old.amount share.new.amount (halt_in result)
            seat.old seat.new }
    {
        let documents = fetched.documents();
        let mut spent = DeferredDrops::new(self.alloc);
        show_read(self.board, seat, documents)?;
        self.settle_and_show(share, seat, fetched, &mut spent)?;
        pass(self.rt, self.gate, Place::Settled(number))?;
        // After settling, the writer usually gets the lock again without waiting, because a waiting writer takes a
        // while to wake up.
        let recorded = self.record()?;
        drop(spent);
        pass(self.rt, self.gate, Place::Recorded(number, recorded))
    }

    /// Whether a parcel is prepared before the lock is taken. If the run has only one writer, no other writer waits for
    /// the lock. If the thread that builds data also stores the data, the data stays in the processor's cache.
    fn prepares(&self) -> bool {
        self.workers > 1
    }

    /// Reads a parcel at the source. If the run has several writers, the call prepares the parcel's documents for
    /// storing before it takes the target's lock. The call then settles the parcel (stores or rejects each document at
    /// the target), and records the low water (`settle_and_record`).
    fn read_and_settle(
        &self,
        share: &mut Share<L>,
        seat: &mut Option<BoardSeat>,
        number: u64,
        found: Found<S>,
    ) -> Result<(), Halt>
        requires source { S.source ≡ self.now.source.now.1.db }
        requires parts { 0 < share.old.parts }
        requires seat { IsSeated (option_copied self.now.board) seat.old }
        ensures parts { share.new.parts ≡ share.old.parts }
        ensures ok { OnOk result (share.new.amount ≡ share.old.amount + length found.parcel.docs) }
        ensures err { IfErr result (AllowsOn (MayFill (option_copied self.now.board)) (G.may_stop self.now.gate.now)) }
        ensures full { IfErr result (SaysFull ⊥ (IsFullFor (length found.parcel.docs) seat.old)) }
        ensures shows { HasWritten (option_copied self.now.board) share.old.amount share.new.amount (halt_in result)
            seat.old seat.new }
    {
        // The page must live until the lock is released, because dropping its rows earlier would lengthen the time
        // under the lock.
        let page = found.page(self.alloc)?;
        let fetched = found.fetch(self.alloc, self.source, self.prepares())?;
        let settled = self.settle_and_record(share, seat, number, fetched);
        drop(page);
        settled
    }

    /// Settles the parcel that the writer received last, and counts the parcel. If the writer must halt, the call
    /// stores the reason in `stopped`. The reason is `CountFull` only if the writer's count of parcels is at its
    /// maximum. The reason is `BoardFull` only if the writer's read counter on the progress board would exceed its
    /// maximum.
    fn write(&self, writer: &mut Writer<S, L>, number: u64, found: Found<S>)
        requires source { S.source ≡ self.now.source.now.1.db }
        requires knows { WriterKnows ((number, length found.parcel.docs) ∷ []) writer.old × (writer.old.stopped ≡ None) }
        requires seat { IsSeated (option_copied self.now.board) writer.old.seat }
        ensures same { writer.new.parcels ≡ writer.old.parcels }
        ensures knows { WriterKnows [] writer.new }
        ensures halted { IfSome writer.new.stopped
            (AllowsOn (MayFill (option_copied self.now.board)) (G.may_stop self.now.gate.now)) }
        ensures full { IfSome writer.new.stopped
            (SaysFull (writer.old.got ≡ 2 ^ 64 - 1) (IsFullFor (length found.parcel.docs) writer.old.seat)) }
        ensures seat { IsSeated (option_copied self.now.board) writer.new.seat }
        ensures shows { (given : Option BoardSeat) → WriterShows (option_copied self.now.board) given writer.old
            → WriterShows (option_copied self.now.board) given writer.new }
    {
        if writer.got == u64::MAX {
            writer.stopped = Some(Halt::CountFull);
            return;
        }
        match self.read_and_settle(&mut writer.share, &mut writer.seat, number, found) {
            Ok(()) => writer.got += 1,
            Err(halt) => writer.stopped = Some(halt),
        }
    }

    /// Creates a writer. The writer gets a part of `parcels`, and may therefore use the channel of parcels. The writer
    /// also gets a share of `all`, and counts its settled documents in this share. If the run has a progress board, the
    /// writer also gets the last seat in `seats`.
    pub fn writer_here(
        &self,
        parcels: &mut ParcelPass<S>,
        all: &mut Share<L>,
        seats: &mut Vec<BoardSeat>,
    ) -> Writer<S, L>
        requires parcels { IsSeatAt (sends_on self.now.channels.now.to_writers) parcels.old
            × (1 < (view parcels.old).parts) }
        requires all { (0 < all.old.parts) × (all.old.amount ≡ 0) }
        requires seats { (others : ℕ) × (workers : ℕ) × (others < workers)
            × AreSeats (option_copied self.now.board) others workers seats.old.items }
        ensures parcel_seats { IsSeatAt (sends_on self.now.channels.now.to_writers) parcels.new
            × IsSeatAt (sends_on self.now.channels.now.to_writers) result.parcels }
        ensures parcels { view parcels.new
            ≡ parcel_view ((view parcels.old).parts - 1) (view parcels.old).sent (view parcels.old).got }
        ensures all { (all.new.parts + 1 ≡ all.old.parts) × (all.new.amount ≡ 0) }
        ensures knows { WriterKnows [] result }
        ensures free { result.stopped ≡ None }
        ensures share { result.share.amount ≡ 0 }
        ensures seated { IsSeated (option_copied self.now.board) result.seat }
        ensures seats { seats.old.items ≡ seats.new.items ++ option_to_list result.seat }
        ensures left { (others : ℕ) (workers : ℕ) → others < workers
            → AreSeats (option_copied self.now.board) others workers seats.old.items
            → AreSeats (option_copied self.now.board) (others + 1) workers seats.new.items }
        ensures capacity { vec_capacity seats.new ≡ vec_capacity seats.old }
    {
        let its_parcels = self.channels.to_writers.another::<ParcelCut>(parcels);
        let share = all.split_off(1, 0);
        Writer::new(its_parcels, share, seats.pop())
    }

    /// Receives one message. Returns false if the writer received the end message of the channel of parcels.
    pub fn take_parcel(&self, writer: &mut Writer<S, L>) -> bool
        requires source { S.source ≡ self.now.source.now.1.db }
        requires seat { IsSeatAt (receives_on self.now.channels.now.from_fetchers) writer.old.parcels }
        requires knows { WriterKnows [] writer.old }
        requires halted { IfSome writer.old.stopped
            (AllowsOn (MayFill (option_copied self.now.board)) (G.may_stop self.now.gate.now)) }
        requires board_seat { IsSeated (option_copied self.now.board) writer.old.seat }
        ensures seat { IsSeatAt (receives_on self.now.channels.now.from_fetchers) writer.new.parcels }
        ensures knows { WriterKnows [] writer.new }
        ensures halted { IfSome writer.new.stopped
            (AllowsOn (MayFill (option_copied self.now.board)) (G.may_stop self.now.gate.now)) }
        ensures board_seat { IsSeated (option_copied self.now.board) writer.new.seat }
        ensures shows { (given : Option BoardSeat) → WriterShows (option_copied self.now.board) given writer.old
            → WriterShows (option_copied self.now.board) given writer.new }
    {
        match self
            .channels
            .from_fetchers
            .recv_as::<Gets, R>(self.rt, &mut writer.parcels)
        {
            Ok(ParcelMessage::Parcel { number, fetched }) => {
                if writer.stopped.is_none() {
                    self.write(writer, number, fetched);
                }
                true
            }
            Ok(ParcelMessage::End) => false,
            Err(_) => false,
        }
    }
}
