ghost use Rattle.std.specs.Prelude.{◌<◌, ◌≤◌, IfOk};

use cobra::{ByteSink, ByteSource, DeviceFault, ReaderSource, WriterSink, write_all};
use std::cell::Cell;
use std::io::{self, ErrorKind, Read, Write};
use std::process::Abort;

/// Answers each call with how many bytes it moves, or why it fails, and counts its calls.
#[derive(Drop)]
struct Counting<'a> {
    answers: &'a [Result<usize, ErrorKind>],
    calls: &'a Cell<usize>,
}

impl<'a> Counting<'a> {
    fn answer(&self, most: usize) -> io::Result<usize>
        ensures { IfOk result (λ n. n ≤ most) }
    {
        let call = self.calls.get();
        self.calls.set(call.wrapping_add(1));
        match self.answers.get(call) {
            Some(Ok(count)) => Ok(most.min(*count)),
            Some(Err(kind)) => Err(io::Error::from(*kind)),
            None => Ok(0),
        }
    }
}

impl<'a> Read for Counting<'a> {
    fn read(&mut self, buf: &mut [u8]) -> io::Result<usize> {
        self.answer(buf.len())
    }
}

impl<'a> Write for Counting<'a> {
    fn write(&mut self, buf: &[u8]) -> io::Result<usize> {
        self.answer(buf.len())
    }

    fn flush(&mut self) -> io::Result<()> {
        Ok(())
    }
}

/// A device answers what it is answered.
fn is_same(got: Result<usize, DeviceFault>, answer: &Result<usize, ErrorKind>) -> bool {
    match answer {
        Ok(count) => got == Ok(*count),
        Err(_) => got == Err(DeviceFault),
    }
}

fn reads_once_a_call(rt: &impl Abort, answers: &[Result<usize, ErrorKind>]) {
    let calls = Cell::new(0);
    let mut source = ReaderSource::new(Counting {
        answers,
        calls: &calls,
    });
    let mut buffer = [0; 4];
    for (call, answer) in answers.iter().enumerate() {
        assert!(rt; is_same(source.read(&mut buffer), answer), "at {call}");
        assert_eq!(rt; calls.get(), call.wrapping_add(1));
    }
}

fn writes_once_a_call(rt: &impl Abort, answers: &[Result<usize, ErrorKind>]) {
    let calls = Cell::new(0);
    let mut sink = WriterSink::new(Counting {
        answers,
        calls: &calls,
    });
    for (call, answer) in answers.iter().enumerate() {
        assert!(rt; is_same(sink.write(b"abcd"), answer), "at {call}");
        assert_eq!(rt; calls.get(), call.wrapping_add(1));
    }
}

#[test]
fn devices_call_once(rt: HostRuntime) {
    // A second byte that is ready; a failure after a byte; interruptions.
    for answers in [
        [Ok(1), Ok(1), Ok(2)],
        [Ok(1), Err(ErrorKind::Other), Ok(1)],
        [
            Err(ErrorKind::Interrupted),
            Ok(1),
            Err(ErrorKind::Interrupted),
        ],
    ] {
        reads_once_a_call(&rt, &answers);
        writes_once_a_call(&rt, &answers);
    }
}

#[test]
fn a_write_of_nothing_is_a_failure(rt: HostRuntime) {
    let calls = Cell::new(0);
    let mut sink = WriterSink::new(Counting {
        answers: &[Ok(1), Ok(0), Ok(1)],
        calls: &calls,
    });
    assert_eq!(rt; write_all(&mut sink, b"abcd"), Err(DeviceFault));
    assert_eq!(rt; calls.get(), 2);
    assert_eq!(rt; sink.write(b""), Ok(0));
}
