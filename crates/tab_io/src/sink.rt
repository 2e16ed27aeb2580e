ghost use Rattle.std.specs.Prelude.{◌≡◌, ◌<◌, ◌≤◌, length};
ghost use Rattle.std.specs.Io.KnownBytes.{Keeps};
ghost use Rattle.tab_io.specs.Views.{SinkView};
ghost use Rattle.tab_io.specs.Sinks.{Wrote, CountsPut, Finished, Writes, StaysSettled, UsesRoom, KeepsRoom, FinishWorks};

use crate::fault_count::FaultCount;
use std::error::Error;
use std::fmt;
use std::io::Write;

/// What a write took.
#[derive(Clone, Copy, Debug, PartialEq, Eq)]
pub enum Put {
    /// So many bytes, from the start of the piece: of a write at least one, of `finish` none.
    Took(usize),
    /// The sink failed, and its count of faults rose.
    Failed,
}

/// Not all was written: the sink failed, and its count of faults rose in this call.
#[derive(Clone, Copy, Debug, PartialEq, Eq)]
pub struct WriteFault;

impl fmt::Display for WriteFault {
    fn fmt<W: fmt::Write>(&self, f: &mut fmt::Formatter<W>) -> fmt::Result {
        write!(f, "the output failed")
    }
}

impl Error for WriteFault {}

/// What takes bytes and counts its own faults.
pub trait Sink {
    /// The bytes so far, how many of them are settled and how many more it surely takes, where it
    /// tells these, and how often it has failed.
    ghost state: { Self → SinkView };

    /// Takes some bytes from the start of the piece, which must have one.
    ///
    /// A fault takes none, and the count of faults rises with it. Where the sink tells its room, it
    /// fails only where no room is left.
    fn write(&mut self, piece: &[u8]) -> Put
        requires { 0 < length piece.now }
        ensures wrote { Wrote (state self.old) (state self.new) piece.now result }
        ensures room { UsesRoom (state self.old) (state self.new) result }
        ensures settled { StaysSettled (state self.old).settled (state self.new).settled }
        ensures later { (state self.old).faults ≤ (state self.new).faults };

    /// Settles all the bytes that were taken, and takes none.
    ///
    /// It answers `Took(0)`, or a fault, with which the count of faults rises and what was settled
    /// stays. A sink that tells its room doesn't fail here.
    fn finish(&mut self) -> Put
        ensures finished { Finished (state self.old) (state self.new) result }
        ensures works { FinishWorks (state self.old) result }
        ensures taken { Keeps (state self.old).taken (state self.new).taken }
        ensures room { KeepsRoom (state self.old) (state self.new) }
        ensures later { (state self.old).faults ≤ (state self.new).faults };
}

/// Writes all the bytes, in as many writes as the sink needs.
///
/// A fault leaves a prefix of the bytes in the sink. `finish` settles them.
pub fn write_all<K: Sink>(sink: &mut K, bytes: &[u8]) -> Result<(), WriteFault>
    ensures { Writes (K.state sink.old) (K.state sink.new) bytes.now result }
{
    let mut at = 0;
    while at < bytes.len() {
        let (_, rest) = bytes.split_at(at);
        match sink.write(rest) {
            Put::Took(count) => at += count,
            Put::Failed => return Err(WriteFault),
        }
    }
    Ok(())
}

/// A writer of std as a sink. It tells its count of faults, which starts at 0, and no content.
///
/// Each `Err` of the writer is a fault, and so is a write that takes no byte.
#[derive(Drop)]
pub struct StdSink<W: Write + Drop> {
    inner: W,
    faults: FaultCount,
}

impl<W: Write + Drop> StdSink<W> {
    ghost use Rattle.tab_io.specs.Adapters.{writer_state, writer_told};

    /// The writer as a sink, with no fault so far.
    pub fn of(inner: W) -> StdSink<W>
        ensures no_fault { (writer_state result).faults ≡ 0 }
        ensures told { (writer_told W.contents result).taken ≡ W.contents inner }
    {
        StdSink {
            inner,
            faults: FaultCount::new(),
        }
    }
}

impl<W: Write + Drop> Sink for StdSink<W> {
    ghost use Rattle.tab_io.specs.Adapters.{writer_state, writer_told};

    ghost state = { writer_state };

    // Besides what each sink owes: where the writer itself tells its bytes, the write adds what it
    // took and nothing else, and each fault counts once.
    fn write(&mut self, piece: &[u8]) -> Put
        requires { 0 < length piece.now }
        ensures wrote { Wrote (writer_state self.old) (writer_state self.new) piece.now result }
        ensures room { UsesRoom (writer_state self.old) (writer_state self.new) result }
        ensures settled { StaysSettled (writer_state self.old).settled
            (writer_state self.new).settled }
        ensures later { (writer_state self.old).faults ≤ (writer_state self.new).faults }

        ensures told { Wrote (writer_told W.contents self.old)
            (writer_told W.contents self.new) piece.now result }
        ensures faults { CountsPut (writer_state self.old).faults
            (writer_state self.new).faults result }
    {
        match self.inner.write(piece) {
            Ok(count) if count > 0 => Put::Took(count),
            _ => {
                self.faults.rise();
                Put::Failed
            }
        }
    }

    // Besides what each sink owes: it adds nothing to what the writer itself tells, and each fault
    // counts once.
    fn finish(&mut self) -> Put
        ensures finished { Finished (writer_state self.old) (writer_state self.new) result }
        ensures works { FinishWorks (writer_state self.old) result }
        ensures taken { Keeps (writer_state self.old).taken (writer_state self.new).taken }
        ensures room { KeepsRoom (writer_state self.old) (writer_state self.new) }
        ensures later { (writer_state self.old).faults ≤ (writer_state self.new).faults }

        ensures told { Keeps (writer_told W.contents self.old).taken
            (writer_told W.contents self.new).taken }
        ensures faults { CountsPut (writer_state self.old).faults
            (writer_state self.new).faults result }
    {
        match self.inner.flush() {
            Ok(()) => Put::Took(0),
            Err(_) => {
                self.faults.rise();
                Put::Failed
            }
        }
    }
}
