//! Reading the windows.
ghost use Rattle.std.specs.Prelude.{◌≡◌, ◌⊎◌, ℕ, ◌+◌, ◌^◌, ◌<◌, ◌≤◌, [], true, length, None, IfOk, IfErr, IfSome, OnOk, OnErr, MatchBool};
ghost use Rattle.crossbeam_channel.specs.Claims.{view, IsSeatAt};
ghost use Rattle.crossbeam_channel.specs.Ends.{sends_on};
ghost use Rattle.repl_peer.specs.declared.fault.TargetFault.{TargetFault};
ghost use Rattle.repl_target.specs.replication.Replication.{is_batch, has_left};
ghost use Rattle.pool_workers.specs.Windows.{window_view};
ghost use Rattle.pool_workers.specs.Faults.{Allows, IsStepFault, SaysNoFull};

use crate::brands::{SourceBrand, TargetBrand};
use crate::channels::Channels;
use crate::context::Context;
use crate::fault::Halt;
use crate::messages::Paged;
use crate::windows::{Reads, WindowMessage, WindowPass};
use repl_target::{WriteFilter, has_left};
use std::alloc::AllocError;
use std::sync::Wait;
use std::sync::ledger::Ledger;

/// The maximum number of pages that the reader reads before it stores these pages at the target.
const MOST_AHEAD: u64 = 8;

/// Pages that the reader has read from the source's feed, in order, and copies of these pages. The page reader must
/// store the copied pages at the target, and send the original pages to the fetchers. The field `hi` is the sequence at
/// which the last page ends. If reading failed, the field `stopped` is the reason.
#[derive(Drop)]
struct Ahead<S: SourceBrand> {
    pages: Vec<Paged<S>>,
    copies: Vec<Paged<S>>,
    hi: u64,
    stopped: Option<Halt>,
}

/// Sends the window with the given number. Returns whether sending succeeded.
fn send_window<S: SourceBrand, R: Wait>(
    rt: &R,
    channels: &Channels<S>,
    windows: &mut WindowPass<S>,
    number: u64,
    page: Paged<S>,
) -> bool
    requires seat { IsSeatAt (sends_on channels.now.to_fetchers) windows.old }
    requires windows { (view windows.old ≡ window_view (view windows.old).parts 1 number [])
        × (0 < (view windows.old).parts) }
    ensures seat { IsSeatAt (sends_on channels.now.to_fetchers) windows.new }
    ensures windows { MatchBool result (view windows.new ≡ window_view (view windows.old).parts 1 (number + 1) [])
        (view windows.new ≡ view windows.old) }
{
    channels
        .to_fetchers
        .send_as::<Reads, R>(rt, windows, WindowMessage::Window { number, page })
        .is_ok()
}

/// Sends windows, numbered from `number` on. Returns the number after the last window's number.
fn send_all<S: SourceBrand, R: Wait>(
    rt: &R,
    channels: &Channels<S>,
    windows: &mut WindowPass<S>,
    number: u64,
    pages: Vec<Paged<S>>,
) -> Result<u64, Halt>
    requires room { number + length pages.items < 2 ^ 64 }
    requires seat { IsSeatAt (sends_on channels.now.to_fetchers) windows.old }
    requires windows { (view windows.old ≡ window_view (view windows.old).parts 1 number [])
        × (0 < (view windows.old).parts) }
    ensures seat { IsSeatAt (sends_on channels.now.to_fetchers) windows.new }
    ensures next { IfOk result (λ next. next ≡ number + length pages.items) }
    ensures ok { IfOk result (λ next. view windows.new ≡ window_view (view windows.old).parts 1 next []) }
    ensures err { OnErr result ((n : ℕ) × (view windows.new ≡ window_view (view windows.old).parts 1 n [])) }
    ensures lost { IfErr result (λ halt. halt ≡ Halt.Lost) }
{
    let mut next = number;
    for page in pages {
        if !send_window(rt, channels, windows, next, page) {
            return Err(Halt::Lost);
        }
        next += 1;
    }
    Ok(next)
}

impl<F: WriteFilter, S: SourceBrand, T: TargetBrand<F>, L: Ledger, G, R: Wait> Context<
    '_,
    F,
    S,
    T,
    L,
    G,
    R,
> {
    /// Takes the target's lock, stores pages at the target in order, and releases the lock. Returns the number of
    /// stored pages. If a page was not stored, the call also returns the reason. If the plan allows no further window,
    /// a page is not stored, and the reason is `Lost`.
    fn store_all(&self, pages: Vec<Paged<S>>) -> (usize, Option<Halt>)
        ensures refused { IfSome result.1 (λ halt. (halt ≡ Halt.Lost)
            ⊎ (fault : TargetFault) × (halt ≡ Halt.Refused fault) × IsStepFault fault) }
        ensures all { result.1 ≡ None → result.0 ≡ length pages.items }
    {
        let mut stored = 0;
        let mut target = self.target.lock(self.rt);
        for page in pages {
            match target.append(page) {
                Some(Ok(())) => stored += 1,
                Some(Err(fault)) => return (stored, Some(Halt::Refused(fault))),
                None => return (stored, Some(Halt::Lost)),
            }
        }
        (stored, None)
    }

    /// Reads the page above a sequence, and prepares a copy of the page for storing.
    fn read_page(&self, since: u64) -> Result<(Paged<S>, Paged<S>), AllocError>
        requires source { S.source ≡ self.now.source.now.1.db }
        requires plan { S.plan ≡ self.now.plan.now }
        requires batch { is_batch self.now.plan.now.batch ≡ true }
        requires due { since < self.now.source.now.1.db.update_seq }
        ensures moves { IfOk result (λ pages. since < pages.0.hi) }
    {
        let page = Paged::<S>::read(self.alloc, self.source, since, self.plan)?;
        let mut copy = page.copy(self.alloc)?;
        copy.prepare(self.alloc);
        Ok((page, copy))
    }

    /// Reads the page after the page that was read last.
    fn read_further(&self, ahead: &mut Ahead<S>) -> Result<(), AllocError>
        requires source { S.source ≡ self.now.source.now.1.db }
        requires plan { S.plan ≡ self.now.plan.now }
        requires batch { is_batch self.now.plan.now.batch ≡ true }
        requires due { ahead.old.hi < self.now.source.now.1.db.update_seq }
        ensures stopped { ahead.new.stopped ≡ ahead.old.stopped }
        ensures moves { OnOk result (ahead.old.hi < ahead.new.hi) }
        ensures pages { OnOk result (length ahead.new.pages.items ≡ length ahead.old.pages.items + 1) }
        ensures copies { OnOk result (length ahead.new.copies.items ≡ length ahead.old.copies.items + 1) }
        ensures hi { OnErr result (ahead.new.hi ≡ ahead.old.hi) }
        ensures kept { OnErr result (ahead.new.pages.items ≡ ahead.old.pages.items) }
        ensures copies_kept { OnErr result (ahead.new.copies.items ≡ ahead.old.copies.items) }
    {
        let (page, copy) = self.read_page(ahead.hi)?;
        ahead.pages.reserve(1)?;
        ahead.copies.reserve(1)?;
        ahead.hi = page.window().hi();
        ahead.pages.push_reserved(page);
        ahead.copies.push_reserved(copy);
        Ok(())
    }

    /// Reads pages above the sequence `since`, in order. The call reads at most `most` pages, and at most the number of
    /// pages that the plan allows.
    fn read_ahead(&self, since: u64, number: u64, most: u64) -> Ahead<S>
        requires source { S.source ≡ self.now.source.now.1.db }
        requires plan { S.plan ≡ self.now.plan.now }
        requires batch { is_batch self.now.plan.now.batch ≡ true }
        requires due { since < self.now.source.now.1.db.update_seq }
        requires left { has_left self.now.plan.now.stop_after number ≡ true }
        requires below { number ≤ since }
        requires some { 0 < most }
        ensures moves { result.stopped ≡ None → since < result.hi }
        ensures some { result.stopped ≡ None → 0 < length result.pages.items }
        ensures copies { length result.copies.items ≡ length result.pages.items }
        ensures within { since + length result.pages.items ≤ result.hi }
        ensures allowed { IfSome self.now.plan.now.stop_after
            (λ limit. number + length result.pages.items ≤ limit) }
        ensures stopped { IfSome result.stopped (λ halt. halt ≡ Halt.Memory) }
    {
        let goal = self.source.db().update_seq();
        let mut ahead = Ahead {
            pages: Vec::new(self.alloc),
            copies: Vec::new(self.alloc),
            hi: since,
            stopped: None,
        };
        for further in 0..most {
            if ahead.hi >= goal || !has_left(self.plan.stop_after, number + further) {
                break;
            }
            if let Err(refused) = self.read_further(&mut ahead) {
                ahead.stopped = Some(Halt::from(refused));
                break;
            }
        }
        ahead
    }

    /// Reads at most `most` pages above the sequence `since`, stores them at the target, and sends them to the
    /// fetchers. The call takes the target's lock once to store all pages. The call sends the stored pages even if
    /// storing a later page fails. Returns the sequence at which the last page ends, and the number of the next window.
    pub fn read_some(
        &self,
        windows: &mut WindowPass<S>,
        since: u64,
        number: u64,
        most: u64,
    ) -> Result<(u64, u64), Halt>
        requires source { S.source ≡ self.now.source.now.1.db }
        requires plan { S.plan ≡ self.now.plan.now }
        requires batch { is_batch self.now.plan.now.batch ≡ true }
        requires due { since < self.now.source.now.1.db.update_seq }
        requires left { has_left self.now.plan.now.stop_after number ≡ true }
        requires below { number ≤ since }
        requires some { 0 < most }
        requires seat { IsSeatAt (sends_on self.now.channels.now.to_fetchers) windows.old }
        requires windows { (view windows.old ≡ window_view (view windows.old).parts 1 number [])
            × (0 < (view windows.old).parts) }
        ensures seat { IsSeatAt (sends_on self.now.channels.now.to_fetchers) windows.new }
        ensures moves { IfOk result (λ at. (since < at.0) × (at.1 ≤ at.0)) }
        ensures sends { IfOk result (λ at. number < at.1) }
        ensures ok { IfOk result (λ at. view windows.new ≡ window_view (view windows.old).parts 1 at.1 []) }
        ensures err { OnErr result ((n : ℕ) × (view windows.new ≡ window_view (view windows.old).parts 1 n [])) }
        ensures free { IfErr result (Allows (λ _. ⊥)) }
        ensures uncounted { IfErr result SaysNoFull }
    {
        let Ahead {
            mut pages,
            copies,
            hi,
            stopped,
        } = self.read_ahead(since, number, most);
        let (stored, refused) = self.store_all(copies);
        pages.truncate(stored);
        let next = send_all(self.rt, self.channels, windows, number, pages)?;
        match (refused, stopped) {
            (Some(halt), _) => Err(halt),
            (None, Some(halt)) => Err(halt),
            (None, None) => Ok((hi, next)),
        }
    }

    /// Reads the source's windows above the sequence `start`, stores each window at the target, and sends it to the
    /// fetchers. The call stops at the run's goal (a sequence), or at the plan's maximum number of windows. The call
    /// reads one window first, then two, then four, and then eight windows at a time.
    pub fn read_windows(&self, start: u64, windows: &mut WindowPass<S>) -> Option<Halt>
        requires source { S.source ≡ self.now.source.now.1.db }
        requires plan { S.plan ≡ self.now.plan.now }
        requires batch { is_batch self.now.plan.now.batch ≡ true }
        requires seat { IsSeatAt (sends_on self.now.channels.now.to_fetchers) windows.old }
        requires windows { (view windows.old ≡ window_view (view windows.old).parts 1 0 [])
            × (0 < (view windows.old).parts) }
        ensures seat { IsSeatAt (sends_on self.now.channels.now.to_fetchers) windows.new }
        ensures windows { (n : ℕ) × (view windows.new ≡ window_view (view windows.old).parts 1 n []) }
        ensures free { IfSome result (Allows (λ _. ⊥)) }
        ensures uncounted { IfSome result SaysNoFull }
    {
        let goal = self.source.db().update_seq();
        let mut since = start;
        let mut number = 0;
        let mut most = 1;
        while since < goal && has_left(self.plan.stop_after, number) {
            match self.read_some(windows, since, number, most) {
                Ok((hi, next)) => {
                    since = hi;
                    number = next;
                }
                Err(halt) => return Some(halt),
            }
            if most < MOST_AHEAD {
                most *= 2;
            }
        }
        None
    }
}
