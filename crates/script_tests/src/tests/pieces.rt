//! Tests with a server that prints its output for each line of a script in two pieces.
ghost use Rattle.std.specs.Prelude.{◌≡◌, ◌++◌, Ok, OnOk, codes};

use script_engine::{OverRead, OverWrite, ScriptFault, Serve, run_lines};
use std::alloc::{AllocError, Global};
use std::test::Fail;

/// The second piece of a line's output, which is only the line end.
#[derive(Drop)]
pub(crate) struct LineEnd;

/// A server that prints each line of its input after a `>`, and then the line end as a second piece of output. Before
/// the server prints a line end, it makes an allocation that may fail.
#[derive(Drop)]
pub(crate) struct Echo {
    alloc: Global,
    /// The capacity that the server reserves for the line end.
    room: usize,
}

impl Serve for Echo {
    ghost answers = { λ _ line told _. told ≡ Ok ((codes ">" ++ line) ++ codes "\n") };

    type Rest = LineEnd;

    ghost left = { λ _ _. codes "\n" };

    fn serve(
        &mut self,
        line: &[u8],
        answer: &mut Vec<u8>,
    ) -> Result<Option<LineEnd>, &'static str> {
        match push_marked(answer, line) {
            Ok(()) => Ok(Some(LineEnd)),
            Err(_) => Err("Memory"),
        }
    }

    fn more(&self, _rest: &mut LineEnd, piece: &mut Vec<u8>) -> Result<bool, AllocError> {
        let _room: Vec<u8> = Vec::with_capacity(self.alloc, self.room)?;
        piece.extend_from_slice(b"\n")?;
        Ok(false)
    }

    fn observe(&mut self, _number: u64, _line: &[u8], _refused: Option<&'static str>) {}
}

/// Appends a `>` followed by a line.
fn push_marked(answer: &mut Vec<u8>, line: &[u8]) -> Result<(), AllocError>
    ensures { OnOk result (answer.new.items ≡ answer.old.items ++ (codes ">" ++ line.now)) }
{
    answer.extend_from_slice(b">")?;
    answer.extend_from_slice(line)
}

/// Each row of the test table has the capacity that the server reserves for a line end, whether the run succeeds, and
/// the run's output. If the server cannot reserve this capacity, the run stops before it writes the first line's line
/// end.
static ROOMS: &[(usize, bool, &str)] = &[
    (1, true, ">one\n>two three\n"),
    (usize::MAX, false, ">one"),
];

#[test]
fn gives_answers_in_pieces(rt: HostRuntime) -> Result<(), Fail> {
    for (room, is_whole, answers) in ROOMS {
        let mut server = Echo {
            alloc: rt.alloc(),
            room: *room,
        };
        let mut reader = OverRead::new("one\n \ntwo three".as_bytes());
        let mut writer = OverWrite::new(rt.alloc(), Vec::new(rt.alloc()))?;
        let ended = run_lines(rt.alloc(), &mut server, &mut reader, &mut writer);
        assert_eq!(rt; matches!(ended, Ok(true)), *is_whole);
        assert_eq!(rt; matches!(ended, Err(ScriptFault::Cut)), !*is_whole);
        assert_eq!(rt; writer.into_inner().as_slice(), answers.as_bytes());
    }
    Ok(())
}
