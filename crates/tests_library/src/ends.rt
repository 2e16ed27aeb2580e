// The adapters over std's reader and writer, which fail as these do.
use std::alloc::Global;
use std::io;
use std::io::{ErrorKind, Read, Write};
use tab_io::{Got, Put, Sink, Source, StdSink, StdSource, WriteFault, write_all};

// Fails at its first read, then gives its bytes.
#[derive(Drop)]
struct FailsOnce<'a> {
    bytes: &'a [u8],
    failed: bool,
}

impl<'a> Read for FailsOnce<'a> {
    fn read(&mut self, into: &mut [u8]) -> io::Result<usize> {
        if !self.failed {
            self.failed = true;
            return Err(io::Error::from(ErrorKind::BrokenPipe));
        }
        self.bytes.read(into)
    }
}

// What four reads give of a reader that fails once, with room for three of its five bytes, and the room then.
fn read_all_five() -> ([Got; 4], [u8; 3]) {
    let mut source = StdSource::of(FailsOnce {
        bytes: b"abcde",
        failed: false,
    });
    let mut room = [0; 3];
    let mut gave = [Got::End; 4];
    for got in &mut gave {
        *got = source.read(&mut room);
    }
    (gave, room)
}

const GAVE: [Got; 4] = [Got::Failed, Got::Bytes(3), Got::Bytes(2), Got::End];

#[test]
fn adapts_a_reader(rt: HostRuntime) {
    let (gave, room) = read_all_five();
    assert!(rt; gave == GAVE);
    assert!(rt; room == *b"dec");
}

// Takes at most so many bytes a write, and fails at its second call of `flush`.
#[derive(Drop)]
struct Narrow<'a> {
    bytes: &'a mut Vec<u8>,
    most: usize,
    flushes: u32,
}

impl<'a> Write for Narrow<'a> {
    fn write(&mut self, piece: &[u8]) -> io::Result<usize> {
        let count = piece.len().min(self.most);
        self.bytes.write(&piece[..count])
    }

    fn flush(&mut self) -> io::Result<()> {
        self.flushes = self.flushes.saturating_add(1);
        if self.flushes == 2 {
            return Err(io::Error::from(ErrorKind::BrokenPipe));
        }
        Ok(())
    }
}

// How much a write takes, the answer, and the bytes then.
const NARROW: [(usize, Result<(), WriteFault>, &[u8]); 4] = [
    (1, Ok(()), b"abcde"),
    (2, Ok(()), b"abcde"),
    (9, Ok(()), b"abcde"),
    (0, Err(WriteFault), b""),
];

// What a sink of so narrow writes answers to five bytes and to two finishes.
fn write_narrow(bytes: &mut Vec<u8>, most: usize) -> (Result<(), WriteFault>, [Put; 2]) {
    let mut sink = StdSink::of(Narrow {
        bytes,
        most,
        flushes: 0,
    });
    let answer = write_all(&mut sink, b"abcde");
    let first = sink.finish();
    (answer, [first, sink.finish()])
}

// Whether it answers this to the bytes, has these then, and is finished the first time alone.
fn is_written(alloc: Global, most: usize, answer: Result<(), WriteFault>, bytes: &[u8]) -> bool {
    let mut taken = Vec::new(alloc);
    let (answered, ends) = write_narrow(&mut taken, most);
    answered == answer && ends == [Put::Took(0), Put::Failed] && taken.as_slice() == bytes
}

#[test]
fn writes_all_in_short_writes(rt: HostRuntime) {
    for (most, answer, bytes) in &NARROW {
        assert!(rt; is_written(rt.alloc(), *most, *answer, bytes));
    }
}
