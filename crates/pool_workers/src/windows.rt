//! Defines the messages and the rule of the channel of windows, and what each thread knows about this channel.
use crate::brands::SourceBrand;
use crate::messages::Paged;
use crossbeam_channel::protocol::{Join, Lesson, Outcome, Protocol, Split};
use crossbeam_channel::{Pass, RuledReceiver, RuledSender};
use std::collections::LinkedList;

/// A message from the page reader to a fetcher.
#[derive(Drop)]
pub enum WindowMessage<S: SourceBrand> {
    /// The next window, with its number.
    Window { number: u64, page: Paged<S> },
    /// The end message of the channel of windows.
    End,
}

/// A ghost value with the facts that a thread knows about the channel from the page reader to the fetchers. The
/// channel's pass (the ghost right to use the channel) has 1,024 parts, of which the thread has `parts`. The field
/// `reads` is 1 for the page reader and 0 for other threads. The field `count` is the number of windows that the thread
/// has sent, which is 0 unless the thread is the page reader. The field `taken` has the numbers of the windows that the
/// thread has taken. No `WindowView` exists at run time.
pub struct WindowView {
    pub parts: u64,
    pub reads: u64,
    pub count: u64,
    pub taken: LinkedList<u64>,
}

/// The rule that the channel of windows always satisfies. If the page reader has sent n windows, the queued and the
/// taken windows have the numbers 0 to n - 1, each once.
pub struct InTurn;

impl<S: SourceBrand> Protocol<WindowMessage<S>, WindowView> for InTurn {
    ghost use Rattle.std.specs.Prelude.{[]};
    ghost use Rattle.pool_workers.specs.Windows.{window_view, Numbered};

    ghost holds = { Numbered };

    ghost first = { window_view 1024 1 0 [] };
}

/// The rule by which passes are split and joined. A split turns one pass (the ghost right to use a channel) into two
/// passes, one of them for a fetcher.
pub struct WindowCut;

impl Split<WindowView> for WindowCut {
    ghost use Rattle.std.specs.Prelude.{◌-◌, []};
    ghost use Rattle.pool_workers.specs.Windows.{window_view};

    ghost left = { λ v. window_view (v.parts - 1) v.reads v.count v.taken };

    ghost right = { λ _. window_view 1 0 0 [] };
}

impl Join<WindowView> for WindowCut {
    ghost use Rattle.std.specs.Prelude.{◌+◌, ◌++◌, []};
    ghost use Rattle.pool_workers.specs.Windows.{window_view};

    ghost both = { λ v w. window_view (v.parts + w.parts) (v.reads + w.reads) (v.count + w.count)
        (v.taken ++ w.taken) };

    ghost spent = { window_view 0 0 0 [] };
}

/// Sending a message to the fetchers, as the page reader (the thread that reads the source's pages).
pub struct Reads;

impl<S: SourceBrand> Outcome<WindowMessage<S>, WindowView> for Reads {
    ghost use Rattle.std.specs.Prelude.{◌≡◌};
    ghost use Rattle.pool_workers.specs.Windows.{has_read};

    ghost then = { λ v x w. w ≡ has_read v x };
}

impl<S: SourceBrand> Lesson<WindowMessage<S>, WindowView> for Reads {
    ghost fact = { λ _ _. Unit {0} };
}

/// Receiving, as a fetcher.
pub struct Takes;

impl<S: SourceBrand> Outcome<WindowMessage<S>, WindowView> for Takes {
    ghost use Rattle.std.specs.Prelude.{◌≡◌};
    ghost use Rattle.pool_workers.specs.Windows.{has_taken};

    ghost then = { λ v x w. w ≡ has_taken v x };
}

impl<S: SourceBrand> Lesson<WindowMessage<S>, WindowView> for Takes {
    ghost fact = { λ _ _. Unit {0} };
}

/// What a thread knows about the channel of windows if no other thread has a right to use this channel.
pub struct AllTaken;

impl<S: SourceBrand> Lesson<WindowMessage<S>, WindowView> for AllTaken {
    ghost use Rattle.pool_workers.specs.Windows.{Covers};

    ghost fact = { Covers };
}

/// A ghost value that gives a thread the right to use the channel of windows, and that states what the thread knows
/// about the channel.
pub type WindowPass<S> = Pass<WindowMessage<S>, WindowView>;

/// The sending end.
pub type WindowSender<S> = RuledSender<WindowMessage<S>, WindowView, InTurn>;

/// The receiving end.
pub type WindowReceiver<S> = RuledReceiver<WindowMessage<S>, WindowView, InTurn>;
