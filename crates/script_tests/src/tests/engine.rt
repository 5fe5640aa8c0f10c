//! Tests of the engine with a server that prints the lengths of lines.
ghost use Rattle.std.specs.Prelude.{◌≡◌, ◌++◌, [], OnOk, codes, decimal};
ghost use Rattle.script_tests.specs.Lengths.{TellsLength};

use itoa::Buffer;
use script_engine::{NoRest, OverRead, OverWrite, Serve, run_lines};
use std::alloc::AllocError;
use std::test::Fail;

/// A server that accepts lines of at most 40 bytes. For each accepted line, the server prints the length of the
/// accepted line before it.
#[derive(Drop)]
pub(crate) struct Lengths {
    pub(crate) before: usize,
}

impl Serve for Lengths {
    ghost answers = { λ old line told new. TellsLength old.before line told new.before };

    type Rest = NoRest;

    ghost left = { λ _ _. [] };

    fn serve(&mut self, line: &[u8], answer: &mut Vec<u8>) -> Result<Option<NoRest>, &'static str> {
        if line.len() > 40 {
            return Err("Long");
        }
        match print(answer, self.before) {
            Ok(()) => {}
            Err(_) => return Err("Memory"),
        }
        self.before = line.len();
        Ok(None)
    }

    fn more(&self, _rest: &mut NoRest, _piece: &mut Vec<u8>) -> Result<bool, AllocError> {
        Ok(false)
    }

    fn observe(&mut self, _number: u64, _line: &[u8], _refused: Option<&'static str>) {}
}

/// Appends a length and a line end to the output.
fn print(answer: &mut Vec<u8>, length: usize) -> Result<(), AllocError>
    ensures { OnOk result (answer.new.items ≡ answer.old.items ++ (decimal length ++ codes "\n")) }
{
    let mut digits = Buffer::new();
    answer.extend_from_slice(digits.format(length).as_bytes())?;
    answer.extend_from_slice(b"\n")
}

/// A script with blank lines, a line that fails, and a last line without a line end.
pub(crate) const LINES: &str =
    "one\n\n \t\r\nthree\nxxxxxxxxxxxxxxxxxxxxxxxxxxxxxxxxxxxxxxxxx\nfour";

/// The expected output of the script.
pub(crate) const ANSWERS: &str = "0\n3\nrefused 5 Long\n5\n";

#[test]
fn serves_other_words(rt: HostRuntime) -> Result<(), Fail> {
    let mut server = Lengths { before: 0 };
    let mut reader = OverRead::new(LINES.as_bytes());
    let mut writer = OverWrite::new(rt.alloc(), Vec::new(rt.alloc()))?;
    let clean = run_lines(rt.alloc(), &mut server, &mut reader, &mut writer)?;
    assert!(rt; !clean);
    assert_eq!(rt; writer.into_inner().as_slice(), ANSWERS.as_bytes());
    assert_eq!(rt; server.before, 4);
    Ok(())
}
