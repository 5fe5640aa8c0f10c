//! The two channels of a pool.
ghost use Rattle.std.specs.Prelude.{◌≡◌, ◌<◌, [], IfOk};
ghost use Rattle.crossbeam_channel.specs.Ends.{sends_on, receives_on};

use crate::brands::SourceBrand;
use crate::parcels::{
    Conserved, ParcelMessage, ParcelPass, ParcelReceiver, ParcelSender, ParcelView,
};
use crate::windows::{InTurn, WindowMessage, WindowPass, WindowReceiver, WindowSender, WindowView};
use crossbeam_channel::bounded_with;
use std::alloc::{AllocError, Global};

/// The sending and receiving ends of the channel of windows and of the channel of parcels.
#[derive(Drop)]
pub struct Channels<S: SourceBrand> {
    pub to_fetchers: WindowSender<S>,
    pub from_reader: WindowReceiver<S>,
    pub to_writers: ParcelSender<S>,
    pub from_fetchers: ParcelReceiver<S>,
    pub ghost windows: { receives_on from_reader ≡ sends_on to_fetchers },
    pub ghost parcels: { receives_on from_fetchers ≡ sends_on to_writers },
}

impl<S: SourceBrand> Channels<S> {
    ghost use Rattle.crossbeam_channel.specs.Claims.{view, IsSeatAt};
    ghost use Rattle.pool_workers.specs.Parcels.{parcel_view};
    ghost use Rattle.pool_workers.specs.Windows.{window_view};

    /// Creates both channels with the given capacity, and a pass (the ghost right to use a channel) for each channel.
    /// The call fails only if an allocation fails.
    pub fn open(
        alloc: Global,
        capacity: usize,
    ) -> Result<(Channels<S>, WindowPass<S>, ParcelPass<S>), AllocError>
        requires { 0 < capacity }
        ensures windows { IfOk result
            (λ r. IsSeatAt (sends_on r.0.to_fetchers) r.1 × (view r.1 ≡ window_view 1024 1 0 [])) }
        ensures parcels { IfOk result
            (λ r. IsSeatAt (sends_on r.0.to_writers) r.2 × (view r.2 ≡ parcel_view 1024 [] [])) }
    {
        let (to_fetchers, from_reader, window_pass) = bounded_with::<
            WindowMessage<S>,
            WindowView,
            InTurn,
            Global,
        >(alloc, capacity)?;
        let (to_writers, from_fetchers, parcel_pass) = bounded_with::<
            ParcelMessage<S>,
            ParcelView,
            Conserved,
            Global,
        >(alloc, capacity)?;
        let channels = Channels {
            to_fetchers,
            from_reader,
            to_writers,
            from_fetchers,
        };
        Ok((channels, window_pass, parcel_pass))
    }
}
