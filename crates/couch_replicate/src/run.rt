//! Runs the program with a given reader as input and a given writer as output.
ghost use Rattle.std.specs.Prelude.{map, string_bytes};
ghost use Rattle.couch_replicate.specs.RunWords.{RunsWords};

use crate::error_reporter::ErrorReporter;
use crate::options::{NoSettings, read_words};
use commands::run_script;
use script_engine::{ScriptFault, ScriptRead, ScriptWrite};
use std::io::Eprint;
use std::rt::Clock;
use std::sync::Wait;
use std::thread::Threads;

/// How a run ended.
#[derive(Drop)]
pub enum Ended {
    /// No script was run, because no settings could be read from the arguments.
    NotRun(NoSettings),
    /// A script was run. The value in `Ok` is true if no line failed. The value in `Err` is the fault that stopped the
    /// script early.
    Ran(Result<bool, ScriptFault>),
}

/// Parses the arguments `words`, runs the script in the bytes that `reader` returns, and writes the output to `writer`.
/// The first argument is the program's name.
///
/// The databases are not freed, because the program ends after this call.
pub fn run_words<'a, H, R: ScriptRead, W: ScriptWrite>(
    rt: &H,
    words: &'a [String],
    is_watched: bool,
    reader: &mut R,
    writer: &mut W,
) -> Ended
where
    H: AllocGlobal + Eprint + Clock + Threads + Wait + Sync,
    ensures { RunsWords (map string_bytes words.entry.now) (R.left reader.old) (R.left reader.new)
        (R.taken reader.old) (R.taken reader.new) (R.ended reader.new) (W.held writer.old) (W.held writer.new)
        (W.sent writer.new) result }
{
    let options = match read_words(rt.alloc(), words) {
        Ok(options) => options,
        Err(why) => return Ended::NotRun(why),
    };
    let shows = options.progress && is_watched;
    let hearing = ErrorReporter::new(rt, rt.alloc(), options.explain, shows);
    hearing.warn(&options.settings);
    let ended = run_script(rt, reader, writer, hearing, &options.settings);
    Ended::Ran(ended)
}
