//! The state that all threads of a run share.

use crate::brands::{SourceBrand, TargetBrand};
use crate::channels::Channels;
use crate::given_target::GivenTarget;
use crate::run_target::RunTarget;
use progress_board::Board;
use repl_target::{Peer, Plan, WriteFilter};
use std::alloc::Global;
use std::sync::Mutex;
use std::sync::ledger::Ledger;

/// The state that all threads of a run share. The shared state has the runtime, the allocator, the two channels, the
/// source, and the lock that protects the target. `Context` has the plan, the progress board, the number of workers in
/// each group, and the gate, a callback that workers call at each stage. The field `given` has facts about the target
/// at the start of the run. The steps of a worker are methods of `Context`.
#[derive(Drop)]
pub struct Context<'e, F: WriteFilter, S: SourceBrand, T: TargetBrand<F>, L: Ledger, G, R> {
    pub rt: &'e R,
    pub alloc: Global,
    pub channels: &'e Channels<S>,
    pub source: &'e Peer<F>,
    pub target: &'e Mutex<RunTarget<F, S, T, L>>,
    pub given: &'e GivenTarget<F, T>,
    pub gate: &'e G,
    pub plan: &'e Plan,
    pub board: Option<&'e Board>,
    pub workers: usize,
}
