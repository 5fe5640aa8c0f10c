//! The steps of a fetcher.
ghost use Rattle.std.specs.Prelude.{◌≡◌, ◌⊎◌, ◌+◌, ◌-◌, ◌^◌, ◌<◌, [], ◌∷◌, ◌++◌, length, IfSome, None, IfErr, MatchBool};
ghost use Rattle.crossbeam_channel.specs.Claims.{view, IsSeatAt};
ghost use Rattle.crossbeam_channel.specs.Ends.{sends_on, receives_on};
ghost use Rattle.pool_workers.specs.Parcels.{parcel_view};
ghost use Rattle.pool_workers.specs.Windows.{window_view};
ghost use Rattle.pool_workers.specs.Workers.{FetcherKnows, HasCounted};
ghost use Rattle.pool_workers.specs.Faults.{Allows, SaysFull, SaysNoFull};
ghost use Rattle.couch_base.specs.Database.{most};

use crate::brands::{SourceBrand, TargetBrand};
use crate::context::Context;
use crate::fault::Halt;
use crate::gate::{Gate, Place, Turn};
use crate::messages::{Found, Paged};
use crate::parcels::{ParcelCut, ParcelMessage, ParcelPass, ParcelSender, Sends};
use crate::windows::{Takes, WindowCut, WindowMessage, WindowPass};
use couch_base::{Asked, MOST_SEQUENCE};
use repl_target::WriteFilter;
use std::alloc::AllocError;
use std::sync::Wait;
use std::sync::ledger::Ledger;

/// A fetcher of the pool. A fetcher has a pass (the ghost right to use a channel) for each of the two channels. A
/// fetcher also counts its sent parcels and its fetched documents. If a fetcher stopped, the field `stopped` is the
/// reason.
#[derive(Drop)]
pub struct Fetcher<S: SourceBrand> {
    pub windows: WindowPass<S>,
    pub parcels: ParcelPass<S>,
    pub sent: u64,
    pub fetched: u64,
    pub stopped: Option<Halt>,
}

/// Calls the gate. Returns an error if the gate returns `Stop`.
pub fn pass<G: Gate, R: Wait>(rt: &R, gate: &G, place: Place) -> Result<(), Halt>
    ensures place { IfErr result (λ halt. halt ≡ Halt.Stopped place) }
    ensures allowed { IfErr result (Allows (G.may_stop gate.now)) }
    ensures uncounted { IfErr result SaysNoFull }
{
    match gate.at(rt, place) {
        Turn::Go => Ok(()),
        Turn::Stop => Err(Halt::Stopped(place)),
    }
}

/// Sends a parcel. Returns whether sending succeeded.
fn put<S: SourceBrand, R: Wait>(
    rt: &R,
    parcels: &ParcelSender<S>,
    pass: &mut ParcelPass<S>,
    number: u64,
    fetched: Found<S>,
) -> bool
    requires seat { IsSeatAt (sends_on parcels.now) pass.old }
    requires part { 0 < (view pass.old).parts }
    ensures seat { IsSeatAt (sends_on parcels.now) pass.new }
    ensures rule { MatchBool result
        (view pass.new
        ≡ parcel_view (view pass.old).parts ((view pass.old).sent ++ (number, length fetched.parcel.docs) ∷ [])
        (view pass.old).got)
        (view pass.new ≡ view pass.old) }
{
    parcels
        .send_as::<Sends, R>(rt, pass, ParcelMessage::Parcel { number, fetched })
        .is_ok()
}

impl<S: SourceBrand> Fetcher<S> {
    /// Creates a fetcher that has taken no window.
    pub fn new(windows: WindowPass<S>, parcels: ParcelPass<S>) -> Fetcher<S>
        requires windows { view windows ≡ window_view 1 0 0 [] }
        requires parcels { view parcels ≡ parcel_view 1 [] [] }
        ensures windows { result.windows ≡ windows }
        ensures parcels { result.parcels ≡ parcels }
        ensures knows { FetcherKnows [] result }
        ensures free { result.stopped ≡ None }
    {
        Fetcher {
            windows,
            parcels,
            sent: 0,
            fetched: 0,
            stopped: None,
        }
    }

    /// Sends a parcel that is already counted.
    fn hand_over<R: Wait>(
        &mut self,
        rt: &R,
        parcels: &ParcelSender<S>,
        number: u64,
        fetched: Found<S>,
    )
        requires seat { IsSeatAt (sends_on parcels.now) self.old.parcels }
        requires room { self.old.sent < 2 ^ 64 - 1 }
        requires counted { HasCounted (number, length fetched.parcel.docs) self.old }
        ensures seat { IsSeatAt (sends_on parcels.now) self.new.parcels }
        ensures windows { self.new.windows ≡ self.old.windows }
        ensures knows { FetcherKnows [] self.new }
        ensures halted { IfSome self.new.stopped (λ h. h ≡ Halt.Lost) }
    {
        if put(rt, parcels, &mut self.parcels, number, fetched) {
            self.sent += 1;
        } else {
            self.stopped = Some(Halt::Lost);
        }
    }

    /// Counts a parcel and sends the parcel. The fetcher stops with `CountFull` only if one of its counts would exceed
    /// its maximum.
    fn send<G: Gate, R: Wait>(
        &mut self,
        rt: &R,
        parcels: &ParcelSender<S>,
        gate: &G,
        number: u64,
        fetched: Found<S>,
    )
        requires seat { IsSeatAt (sends_on parcels.now) self.old.parcels }
        requires knows { FetcherKnows (number ∷ []) self.old × (self.old.stopped ≡ None) }
        ensures seat { IsSeatAt (sends_on parcels.now) self.new.parcels }
        ensures windows { self.new.windows ≡ self.old.windows }
        ensures knows { FetcherKnows [] self.new }
        ensures halted { IfSome self.new.stopped (Allows (G.may_stop gate.now)) }
        ensures full { IfSome self.new.stopped (SaysFull ((most < self.old.fetched + length fetched.parcel.docs)
            ⊎ (self.old.sent ≡ 2 ^ 64 - 1)) ⊥) }
    {
        let documents = fetched.documents();
        if self.fetched > MOST_SEQUENCE
            || documents > (MOST_SEQUENCE - self.fetched) as u128
            || self.sent == u64::MAX
        {
            self.stopped = Some(Halt::CountFull);
            return;
        }
        self.fetched += documents as u64;
        if let Err(halt) = pass(rt, gate, Place::Fetched(number)) {
            self.stopped = Some(halt);
            return;
        }
        self.hand_over(rt, parcels, number, fetched);
    }

    /// Sends the end message of the channel of parcels to one writer.
    pub fn tell_end<R: Wait>(&mut self, rt: &R, parcels: &ParcelSender<S>)
        requires seat { IsSeatAt (sends_on parcels.now) self.old.parcels }
        requires knows { FetcherKnows [] self.old }
        ensures seat { IsSeatAt (sends_on parcels.now) self.new.parcels }
        ensures windows { self.new.windows ≡ self.old.windows }
        ensures knows { FetcherKnows [] self.new }
        ensures stopped { self.new.stopped ≡ self.old.stopped }
    {
        let _ = parcels.send_as::<Sends, R>(rt, &mut self.parcels, ParcelMessage::End);
    }
}

impl<F: WriteFilter, S: SourceBrand, T: TargetBrand<F>, L: Ledger, G: Gate, R: Wait> Context<
    '_,
    F,
    S,
    T,
    L,
    G,
    R,
> {
    /// Takes the target's lock, computes the request for the leaves of a page that the target lacks, and releases the
    /// lock.
    fn ask(&self, page: &Paged<S>) -> Result<Asked, AllocError> {
        self.target.lock(self.rt).diff(self.alloc, page)
    }

    /// Finds the leaves of a page that the target lacks, and counts the source's documents with these leaves. Returns
    /// an error if the gate, a callback that may stop workers, stops the fetcher, or if an allocation fails.
    fn bring(&self, number: u64, page: Paged<S>) -> Result<Found<S>, Halt>
        requires source { S.source ≡ self.now.source.now.1.db }
        ensures allowed { IfErr result (Allows (G.may_stop self.now.gate.now)) }
        ensures uncounted { IfErr result SaysNoFull }
    {
        pass(self.rt, self.gate, Place::Took(number))?;
        if let Some(asked) = self.given.diff(self.alloc, &page) {
            let asked = asked?;
            pass(self.rt, self.gate, Place::Asked(number))?;
            return Ok(Found::<S>::whole(self.source, asked, page));
        }
        let asked = self.ask(&page)?;
        pass(self.rt, self.gate, Place::Asked(number))?;
        let fetched = Found::<S>::count(self.alloc, self.source, asked, page)?;
        Ok(fetched)
    }

    /// Fetches one window, and sends the parcel of this window.
    fn fetch(&self, fetcher: &mut Fetcher<S>, number: u64, page: Paged<S>)
        requires source { S.source ≡ self.now.source.now.1.db }
        requires seat { IsSeatAt (sends_on self.now.channels.now.to_writers) fetcher.old.parcels }
        requires knows { FetcherKnows (number ∷ []) fetcher.old × (fetcher.old.stopped ≡ None) }
        ensures seat { IsSeatAt (sends_on self.now.channels.now.to_writers) fetcher.new.parcels }
        ensures windows { fetcher.new.windows ≡ fetcher.old.windows }
        ensures knows { FetcherKnows [] fetcher.new }
        ensures halted { IfSome fetcher.new.stopped (Allows (G.may_stop self.now.gate.now)) }
    {
        match self.bring(number, page) {
            Ok(fetched) => {
                fetcher.send(
                    self.rt,
                    &self.channels.to_writers,
                    self.gate,
                    number,
                    fetched,
                )
            }
            Err(halt) => fetcher.stopped = Some(halt),
        }
    }

    /// Creates a fetcher. The fetcher gets a part of `windows` and a part of `parcels`, and may therefore use both
    /// channels.
    pub fn fetcher_here(
        &self,
        windows: &mut WindowPass<S>,
        parcels: &mut ParcelPass<S>,
    ) -> Fetcher<S>
        requires windows { IsSeatAt (sends_on self.now.channels.now.to_fetchers) windows.old
            × (1 < (view windows.old).parts) }
        requires parcels { IsSeatAt (sends_on self.now.channels.now.to_writers) parcels.old
            × (1 < (view parcels.old).parts) }
        ensures window_seats { IsSeatAt (sends_on self.now.channels.now.to_fetchers) windows.new
            × IsSeatAt (sends_on self.now.channels.now.to_fetchers) result.windows }
        ensures windows { view windows.new
            ≡ window_view ((view windows.old).parts - 1) (view windows.old).reads (view windows.old).count
            (view windows.old).taken }
        ensures parcel_seats { IsSeatAt (sends_on self.now.channels.now.to_writers) parcels.new
            × IsSeatAt (sends_on self.now.channels.now.to_writers) result.parcels }
        ensures parcels { view parcels.new
            ≡ parcel_view ((view parcels.old).parts - 1) (view parcels.old).sent (view parcels.old).got }
        ensures knows { FetcherKnows [] result }
        ensures free { result.stopped ≡ None }
    {
        let its_windows = self.channels.to_fetchers.another::<WindowCut>(windows);
        let its_parcels = self.channels.to_writers.another::<ParcelCut>(parcels);
        Fetcher::new(its_windows, its_parcels)
    }

    /// Receives one message. Returns false if the fetcher received the end message of the channel of windows.
    pub fn take_window(&self, fetcher: &mut Fetcher<S>) -> bool
        requires source { S.source ≡ self.now.source.now.1.db }
        requires window_seat { IsSeatAt (receives_on self.now.channels.now.from_reader) fetcher.old.windows }
        requires parcel_seat { IsSeatAt (sends_on self.now.channels.now.to_writers) fetcher.old.parcels }
        requires knows { FetcherKnows [] fetcher.old }
        requires halted { IfSome fetcher.old.stopped (Allows (G.may_stop self.now.gate.now)) }
        ensures window_seat { IsSeatAt (receives_on self.now.channels.now.from_reader) fetcher.new.windows }
        ensures parcel_seat { IsSeatAt (sends_on self.now.channels.now.to_writers) fetcher.new.parcels }
        ensures knows { FetcherKnows [] fetcher.new }
        ensures halted { IfSome fetcher.new.stopped (Allows (G.may_stop self.now.gate.now)) }
    {
        match self
            .channels
            .from_reader
            .recv_as::<Takes, R>(self.rt, &mut fetcher.windows)
        {
            Ok(WindowMessage::Window { number, page }) => {
                if fetcher.stopped.is_none() {
                    self.fetch(fetcher, number, page);
                }
                true
            }
            Ok(WindowMessage::End) => false,
            Err(_) => false,
        }
    }
}
