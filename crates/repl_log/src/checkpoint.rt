//! The common checkpoint of two logs.
ghost use Rattle.std.specs.Prelude.{◌≡◌, IfSome, IfNone};
ghost use Rattle.repl_log.specs.Log.{common, IsCommon, IsUnshared};

use crate::log::Log;
use rev_tree::SessionId;

/// Returns the newest session of the target's log that the source's log also has (docs/PROFILE.md, "Common
/// checkpoint"). The returned sequence is the lesser of the session's recorded sequences in the two logs. Returns
/// `None` if the logs share no session.
pub fn common(source: &Log, target: &Log) -> Option<(SessionId, u64)>
    ensures value { result ≡ common source.now target.now }
    ensures shared { IfSome result (λ c. IsCommon source.now target.now c.0 c.1) }
    ensures unshared { IfNone result (IsUnshared source.now target.now) }
{
    for i in 0..target.len() {
        let Some(entry) = target.get(i) else {
            unreachable!()
        };
        if let Some(recorded) = source.recorded_of(entry.session) {
            return Some((entry.session, recorded.min(entry.recorded)));
        }
    }
    None
}
