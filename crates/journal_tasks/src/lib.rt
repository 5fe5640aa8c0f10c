//! The tasks that process lists of leaves and journals.
#![tactic(auto)]

mod ask;
mod compare;
mod confirm;
mod conflicts;
mod count;
mod diff;
mod journal;
mod lacking;
mod lacks;
mod name;
mod numbers;
mod parts;
mod ranks;
mod received;
mod select;
mod state_map;
mod states;
mod stored;

pub use ask::{Ask, ask_leaves};
pub use compare::{Compare, compare_lists};
pub use confirm::{Confirm, confirm_journal};
pub use conflicts::{Conflicts, list_conflicts};
pub use diff::{Diff, diff_leaves};
pub use lacking::{Lacking, lacking_leaves};
pub use name::{Name, name_leaves};
pub use parts::{Parts, split_lines};
pub use received::{Received, receive_leaves};
pub use select::{Filter, Select, select_lines};
pub use states::{States, last_states};
