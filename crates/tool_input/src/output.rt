use crate::fault::Fault;
use std::io;
use std::io::{BufWriter, Printer};
use tab_io::{Put, Sink, StdSink};

/// Standard output as a sink, with a buffer.
pub fn output_of(rt: &HostRuntime) -> Result<StdSink<BufWriter<Printer<'_, HostRuntime>>>, Fault> {
    match BufWriter::new(rt.alloc(), io::writer(rt)) {
        Ok(writer) => Ok(StdSink::of(writer)),
        Err(_) => Err(Fault::NoMemory),
    }
}

/// Writes what is left in the sink's buffer.
pub fn finish<K: Sink>(sink: &mut K) -> Result<(), Fault> {
    match sink.finish() {
        Put::Took(_) => Ok(()),
        Put::Failed => Err(Fault::WriteFault),
    }
}
