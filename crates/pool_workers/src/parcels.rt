//! Defines the messages and the rule of the channel of parcels, and what each thread knows about this channel.
use crate::brands::SourceBrand;
use crate::messages::Found;
use crossbeam_channel::protocol::{Join, Lesson, Outcome, Protocol, Split};
use crossbeam_channel::{Pass, RuledReceiver, RuledSender};
use std::collections::LinkedList;

/// A message from a fetcher to a writer.
#[derive(Drop)]
pub enum ParcelMessage<S: SourceBrand> {
    /// A window's documents at the source, with the number of the window. The fetcher has counted the documents of the
    /// parcel. The writer will read the documents from the source.
    Parcel { number: u64, fetched: Found<S> },
    /// The end message, which is the last message that a writer takes from the channel of parcels.
    End,
}

/// A ghost value with the facts that a thread knows about the channel from the fetchers to the writers. The channel's
/// pass (the ghost right to use the channel) has 1,024 parts, of which the thread has `parts`. The field `sent` lists
/// the parcels that the thread has sent, and `got` those that it has received. Both lists give a parcel as a pair: the
/// parcel's number, and its number of documents. No `ParcelView` exists at run time.
pub struct ParcelView {
    pub parts: u64,
    pub sent: LinkedList<(u64, u64)>,
    pub got: LinkedList<(u64, u64)>,
}

/// The rule that the channel of parcels always satisfies. The sent parcels are exactly the received and the queued
/// parcels. In the rule `Conserved`, two parcels are equal if they have the same parcel number and the same number of
/// documents.
pub struct Conserved;

impl<S: SourceBrand> Protocol<ParcelMessage<S>, ParcelView> for Conserved {
    ghost use Rattle.std.specs.Prelude.{[]};
    ghost use Rattle.pool_workers.specs.Parcels.{parcel_view, Balanced};

    ghost holds = { Balanced };

    ghost first = { parcel_view 1024 [] [] };
}

/// The rule for splitting the right to use the channel of parcels, and for joining the parts again. A split turns one
/// pass (the ghost right to use a channel) into two passes, one of them for a worker.
pub struct ParcelCut;

impl Split<ParcelView> for ParcelCut {
    ghost use Rattle.std.specs.Prelude.{◌-◌, []};
    ghost use Rattle.pool_workers.specs.Parcels.{parcel_view};

    ghost left = { λ v. parcel_view (v.parts - 1) v.sent v.got };

    ghost right = { λ _. parcel_view 1 [] [] };
}

impl Join<ParcelView> for ParcelCut {
    ghost use Rattle.std.specs.Prelude.{◌+◌, ◌++◌, []};
    ghost use Rattle.pool_workers.specs.Parcels.{parcel_view};

    ghost both = { λ v w. parcel_view (v.parts + w.parts) (v.sent ++ w.sent) (v.got ++ w.got) };

    ghost spent = { parcel_view 0 [] [] };
}

/// Sending, as a fetcher.
pub struct Sends;

impl<S: SourceBrand> Outcome<ParcelMessage<S>, ParcelView> for Sends {
    ghost use Rattle.std.specs.Prelude.{◌≡◌};
    ghost use Rattle.pool_workers.specs.Parcels.{has_sent};

    ghost then = { λ v x w. w ≡ has_sent v x };
}

impl<S: SourceBrand> Lesson<ParcelMessage<S>, ParcelView> for Sends {
    ghost fact = { λ _ _. Unit {0} };
}

/// Receiving, as a writer.
pub struct Gets;

impl<S: SourceBrand> Outcome<ParcelMessage<S>, ParcelView> for Gets {
    ghost use Rattle.std.specs.Prelude.{◌≡◌};
    ghost use Rattle.pool_workers.specs.Parcels.{has_got};

    ghost then = { λ v x w. w ≡ has_got v x };
}

impl<S: SourceBrand> Lesson<ParcelMessage<S>, ParcelView> for Gets {
    ghost fact = { λ _ _. Unit {0} };
}

/// What a thread knows about the channel of parcels if it has the complete pass (the ghost right to use the channel).
pub struct Whole;

impl<S: SourceBrand> Lesson<ParcelMessage<S>, ParcelView> for Whole {
    ghost use Rattle.pool_workers.specs.Parcels.{Accounts};

    ghost fact = { Accounts };
}

/// A ghost value that gives a thread the right to use the channel of parcels, and that states what the thread knows
/// about the channel.
pub type ParcelPass<S> = Pass<ParcelMessage<S>, ParcelView>;

/// The sending end.
pub type ParcelSender<S> = RuledSender<ParcelMessage<S>, ParcelView, Conserved>;

/// The receiving end.
pub type ParcelReceiver<S> = RuledReceiver<ParcelMessage<S>, ParcelView, Conserved>;
