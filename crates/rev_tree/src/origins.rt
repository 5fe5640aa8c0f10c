//! The stored form of an origin.
ghost use Rattle.std.specs.Prelude.{◌≡◌, ◌+◌, ◌≤◌, ◌++◌, get_or, length, map, replicate, vec_capacity};
ghost use Rattle.rev_tree.specs.Nodes.{no_origin};
ghost use Rattle.rev_tree.specs.Origins.{feed_origin, small_origin};

use crate::origin::{Origin, SessionId};

/// The number of values of a 64-bit integer, 2^64. A session's 128-bit number is stored as two 64-bit integers.
const HALF: u128 = 1 << 64;

/// An origin in 32 bytes. An `Origin` takes 48 bytes, because a `u128` is aligned to 16 bytes.
#[derive(Clone, Copy)]
pub(crate) enum SmallOrigin {
    Local(u64),
    Feed(u64, u64, u64),
}

impl SmallOrigin {
    /// Converts an origin.
    pub(crate) fn of(origin: Origin) -> SmallOrigin
        ensures { small_origin result ≡ origin }
    {
        match origin {
            Origin::Local(number) => SmallOrigin::Local(number),
            Origin::Feed(session, seq) => {
                SmallOrigin::Feed((session.0 / HALF) as u64, (session.0 % HALF) as u64, seq)
            }
        }
    }

    /// Returns the origin as an `Origin`.
    fn origin(self) -> Origin
        ensures { result ≡ small_origin self }
    {
        match self {
            SmallOrigin::Local(number) => Origin::Local(number),
            SmallOrigin::Feed(high, low, seq) => feed(high, low, seq),
        }
    }
}

/// Returns the origin of a revision from a session's feed. The session's number is given as two halves.
pub(crate) fn feed(high: u64, low: u64, seq: u64) -> Origin
    ensures { result ≡ feed_origin high low seq }
{
    Origin::Feed(SessionId(high as u128 * HALF + low as u128), seq)
}

/// Returns the origin of the node at an index, from the list of the nodes' origins.
pub(crate) fn listed_at(origins: &[SmallOrigin], place: usize) -> Origin
    ensures { result ≡ get_or (map small_origin origins.now) place no_origin }
{
    match origins.get(place) {
        Some(origin) => origin.origin(),
        None => Origin::Local(0),
    }
}

/// Appends `count` equal origins to a list with space for them.
pub(crate) fn fill(origins: &mut Vec<SmallOrigin>, count: usize, origin: Origin)
    requires { length origins.old.items + count ≤ vec_capacity origins.old }
    ensures items { map small_origin origins.new.items ≡ map small_origin origins.old.items ++ replicate count origin }
    ensures capacity { vec_capacity origins.new ≡ vec_capacity origins.old }
{
    let small = SmallOrigin::of(origin);
    for i in 0..count {
        origins.push_reserved(small);
    }
}
