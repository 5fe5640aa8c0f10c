//! Readers and writers that transfer few bytes per call and fail at a chosen call.

use crate::tests::engine::{ANSWERS, LINES, Lengths};
use script_engine::{
    OverRead, OverWrite, Recorder, ScriptFault, ScriptRead, ScriptWrite, run_lines,
};
use std::io;
use std::io::{ErrorKind, Write};
use std::test::Fail;

/// A reader that returns a few bytes per call, and fails at a chosen call.
#[derive(Drop)]
pub(crate) struct NarrowReader<'a> {
    pub(crate) bytes: &'a [u8],
    pub(crate) calls_left: u64,
    pub(crate) failures: u64,
    pub(crate) reads: u64,
}

impl ScriptRead for NarrowReader<'_> {
    ghost failures = { λ s. s.failures };

    ghost reads = { λ s. s.reads };

    fn read(&mut self, buffer: &mut [u8]) -> io::Result<usize> {
        self.reads = self.reads.saturating_add(1);
        if self.calls_left == 0 || self.failures == u64::MAX {
            self.failures = self.failures.saturating_add(1);
            return Err(io::Error::from(ErrorKind::Other));
        }
        self.calls_left -= 1;
        let count = self.bytes.len().min(buffer.len()).min(16);
        for i in 0..count {
            buffer[i] = self.bytes[i];
        }
        self.bytes = &self.bytes[count..];
        Ok(count)
    }
}

/// A script in which each line, with its line end, has 16 bytes, the most that a call of `NarrowReader` returns.
const SIXTEEN: &str = "a line of these\na line of these\na line of these\n";

/// Each row of the test table has a script, the number of successful reads, and the output before the read that fails.
/// The engine handles every complete line before the next read.
static READS: &[(&str, u64, &str)] = &[
    (SIXTEEN, 0, ""),
    (SIXTEEN, 1, "0\n"),
    (SIXTEEN, 2, "0\n15\n"),
    (SIXTEEN, 3, "0\n15\n15\n"),
    (LINES, 0, ""),
    (LINES, 1, "0\n3\n"),
    (LINES, 2, "0\n3\n"),
    (LINES, 3, "0\n3\n"),
    (LINES, 4, "0\n3\nrefused 5 Long\n"),
];

#[test]
fn stops_at_a_failed_read(rt: HostRuntime) -> Result<(), Fail> {
    for (lines, calls_left, answers) in READS {
        let mut server = Lengths { before: 0 };
        let mut reader = NarrowReader {
            bytes: lines.as_bytes(),
            calls_left: *calls_left,
            failures: 0,
            reads: 0,
        };
        let mut writer = OverWrite::new(rt.alloc(), Vec::new(rt.alloc()))?;
        let ended = run_lines(rt.alloc(), &mut server, &mut reader, &mut writer);
        let faulted = matches!(ended, Err(ScriptFault::Read));
        assert!(rt; faulted && reader.failures == 1, "at {calls_left}");
        let written = writer.into_inner();
        assert_eq!(rt; written.as_slice(), answers.as_bytes(), "at {calls_left}");
    }
    Ok(())
}

/// A writer that accepts one byte per call, and fails at a chosen call.
#[derive(Drop)]
struct NarrowWriter {
    written: Vec<u8>,
    calls_left: u64,
    failures: u64,
}

impl ScriptWrite for NarrowWriter {
    ghost failures = { λ s. s.failures };

    fn write(&mut self, bytes: &[u8]) -> io::Result<usize> {
        let fails = self.calls_left == 0 || self.failures == u64::MAX;
        if !fails && !bytes.is_empty() && self.written.push(bytes[0]).is_ok() {
            self.calls_left -= 1;
            return Ok(1);
        }
        if self.failures < u64::MAX {
            self.failures += 1;
        }
        Err(io::Error::from(ErrorKind::Other))
    }

    fn flush(&mut self) -> io::Result<()> {
        if self.failures == u64::MAX {
            return Err(io::Error::from(ErrorKind::Other));
        }
        Ok(())
    }
}

/// For each write of the output, the test makes one run in which this write fails. In a last run, no write fails. Each
/// successful write writes one byte, and the written text is a prefix of the expected output.
#[test]
fn stops_at_a_failed_write(rt: HostRuntime) -> Result<(), Fail> {
    let writes = ANSWERS.len() as u64;
    for calls_left in 0..=writes {
        let mut server = Lengths { before: 0 };
        let mut reader = OverRead::new(LINES.as_bytes());
        let mut writer = NarrowWriter {
            written: Vec::new(rt.alloc()),
            calls_left,
            failures: 0,
        };
        let ended = run_lines(rt.alloc(), &mut server, &mut reader, &mut writer);
        let faulted = matches!(ended, Err(ScriptFault::Write));
        assert_eq!(rt; faulted, calls_left < writes, "at {calls_left}");
        assert_eq!(rt; writer.failures, if faulted { 1 } else { 0 });
        assert_eq!(rt; writer.written.len() as u64, calls_left);
        assert!(rt; ANSWERS.as_bytes().starts_with(writer.written.as_slice()));
    }
    Ok(())
}

/// A writer that buffers all bytes, and fails at a chosen flush.
#[derive(Drop)]
struct GatheringWriter {
    given: Vec<u8>,
    sent: Vec<u8>,
    flushes_left: u64,
    failures: u64,
}

impl ScriptWrite for GatheringWriter {
    ghost failures = { λ s. s.failures };

    fn write(&mut self, bytes: &[u8]) -> io::Result<usize> {
        let fails = self.failures == u64::MAX || bytes.is_empty();
        if !fails && self.given.extend_from_slice(bytes).is_ok() {
            return Ok(bytes.len());
        }
        self.failures = self.failures.saturating_add(1);
        Err(io::Error::from(ErrorKind::Other))
    }

    fn flush(&mut self) -> io::Result<()> {
        if self.flushes_left == 0 || self.failures == u64::MAX {
            self.failures = self.failures.saturating_add(1);
            return Err(io::Error::from(ErrorKind::Other));
        }
        self.flushes_left -= 1;
        if self.sent.extend_from_slice(self.given.as_slice()).is_err() {
            self.failures = self.failures.saturating_add(1);
            return Err(io::Error::from(ErrorKind::Other));
        }
        self.given.clear();
        Ok(())
    }
}

/// Each row of the test table has a number of successful flushes, and the text that these flushes send. The engine
/// flushes before the first read, before the read that finds the end of the input, and after the last line, which has
/// no line end.
static FLUSHES: &[(u64, &str)] = &[
    (0, ""),
    (1, ""),
    (2, "0\n3\nrefused 5 Long\n"),
    (3, ANSWERS),
];

#[test]
fn answers_go_out_before_each_read(rt: HostRuntime) -> Result<(), Fail> {
    for (flushes_left, sent) in FLUSHES {
        let mut server = Lengths { before: 0 };
        let mut reader = OverRead::new(LINES.as_bytes());
        let mut writer = GatheringWriter {
            given: Vec::new(rt.alloc()),
            sent: Vec::new(rt.alloc()),
            flushes_left: *flushes_left,
            failures: 0,
        };
        let ended = run_lines(rt.alloc(), &mut server, &mut reader, &mut writer);
        let faulted = matches!(ended, Err(ScriptFault::Write));
        assert_eq!(rt; faulted, *flushes_left < 3, "at {flushes_left}");
        assert_eq!(rt; writer.failures, if faulted { 1 } else { 0 });
        assert_eq!(rt;
            writer.sent.as_slice(),
            sent.as_bytes(),
            "at {flushes_left}"
        );
    }
    Ok(())
}

/// A `std` writer that accepts all bytes, and fails at a chosen flush.
#[derive(Drop)]
struct FlushCounter {
    flushes_left: u64,
}

impl Write for FlushCounter {
    fn write(&mut self, bytes: &[u8]) -> io::Result<usize> {
        Ok(bytes.len())
    }

    fn flush(&mut self) -> io::Result<()> {
        if self.flushes_left == 0 {
            return Err(io::Error::from(ErrorKind::Other));
        }
        self.flushes_left -= 1;
        Ok(())
    }
}

/// `Recorder` passes each of the three flushes to its writer.
#[test]
fn recorder_flushes_its_writer(rt: HostRuntime) -> Result<(), Fail> {
    for flushes_left in 0..=3 {
        let mut server = Lengths { before: 0 };
        let mut reader = OverRead::new(LINES.as_bytes());
        let recorder = Recorder::new(FlushCounter { flushes_left });
        let mut writer = OverWrite::new(rt.alloc(), recorder)?;
        let ended = run_lines(rt.alloc(), &mut server, &mut reader, &mut writer);
        let faulted = matches!(ended, Err(ScriptFault::Write));
        assert_eq!(rt; faulted, flushes_left < 3, "at {flushes_left}");
    }
    Ok(())
}

/// Runs a script of 1,500 lines and a line of 40,000 bytes, with a reader that returns 16 bytes per call.
#[test]
fn four_thousand_reads(rt: HostRuntime) -> Result<(), Fail> {
    let (mut input, mut wanted) = (Vec::new(rt.alloc()), Vec::from_slice(rt.alloc(), b"0\n")?);
    for _ in 0..1_500 {
        input.extend_from_slice(b"a line of these\n")?;
    }
    for _ in 0..40_000 {
        input.push(b'x')?;
    }
    for _ in 1..1_500 {
        wanted.extend_from_slice(b"15\n")?;
    }
    wanted.extend_from_slice(b"refused 1501 Long\n")?;
    let mut server = Lengths { before: 0 };
    let mut reader = NarrowReader {
        bytes: &input,
        calls_left: u64::MAX,
        failures: 0,
        reads: 0,
    };
    let mut writer = OverWrite::new(rt.alloc(), Vec::new(rt.alloc()))?;
    assert!(rt; !run_lines(rt.alloc(), &mut server, &mut reader, &mut writer)?);
    let reads = reader.reads;
    assert!(rt; reads >= 4_000, "{reads}");
    assert_eq!(rt; writer.into_inner().as_slice(), wanted.as_slice());
    Ok(())
}
