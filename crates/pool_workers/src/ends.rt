//! Sends the end messages of the channel of windows and of the channel of parcels.
ghost use Rattle.std.specs.Prelude.{◌≡◌, ◌<◌};
ghost use Rattle.crossbeam_channel.specs.Claims.{view, IsSeatAt};
ghost use Rattle.crossbeam_channel.specs.Ends.{sends_on};

use crate::brands::SourceBrand;
use crate::channels::Channels;
use crate::parcels::{ParcelMessage, ParcelPass, Sends};
use crate::windows::{Reads, WindowMessage, WindowPass};
use std::sync::Wait;

/// Sends one end message of the channel of windows for each fetcher.
pub fn end_windows<S: SourceBrand, R: Wait>(
    rt: &R,
    channels: &Channels<S>,
    windows: &mut WindowPass<S>,
    fetchers: usize,
)
    requires seat { IsSeatAt (sends_on channels.now.to_fetchers) windows.old × (0 < (view windows.old).parts) }
    ensures seat { IsSeatAt (sends_on channels.now.to_fetchers) windows.new }
    ensures same { view windows.new ≡ view windows.old }
{
    for _i in 0..fetchers {
        let _ = channels
            .to_fetchers
            .send_as::<Reads, R>(rt, windows, WindowMessage::End);
    }
}

/// Sends `missing` end messages to the writers. Each message replaces the end message of a fetcher that was not
/// started.
pub fn end_parcels<S: SourceBrand, R: Wait>(
    rt: &R,
    channels: &Channels<S>,
    parcels: &mut ParcelPass<S>,
    missing: usize,
)
    requires seat { IsSeatAt (sends_on channels.now.to_writers) parcels.old × (0 < (view parcels.old).parts) }
    ensures seat { IsSeatAt (sends_on channels.now.to_writers) parcels.new }
    ensures same { view parcels.new ≡ view parcels.old }
{
    for _i in 0..missing {
        let _ = channels
            .to_writers
            .send_as::<Sends, R>(rt, parcels, ParcelMessage::End);
    }
}
