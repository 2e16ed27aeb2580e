ghost use Rattle.std.specs.Prelude.{◌≡◌, ◌<◌, ◌≤◌, length};
ghost use Rattle.tab_io.specs.Views.{SourceView};
ghost use Rattle.tab_io.specs.Sources.{Gave, CountsGot, ReadsAll, StaysSound};
ghost use Rattle.tab_io.specs.declared.source.ReadAll.TheVariants.{NoMemory};

use crate::fault_count::FaultCount;
use std::alloc::{AllocError, Global};
use std::error::Error;
use std::fmt;
use std::io::Read;

/// What a read gave.
#[derive(Clone, Copy, Debug, PartialEq, Eq)]
pub enum Got {
    /// So many bytes, at least one, at the start of the room.
    Bytes(usize),
    /// No byte is left.
    End,
    /// The source failed, and its count of faults rose.
    Failed,
}

/// What gives bytes and counts its own faults.
pub trait Source {
    /// The bytes that it still gives, where it tells them, whether it never fails from here on, and
    /// how often it has failed.
    ghost state: { Self → SourceView };

    /// Reads the next bytes into the start of `into`, which must have room for one.
    ///
    /// The end comes only where no byte is left. A fault takes no byte, and the count of faults
    /// rises with it. After either the source can be read again.
    fn read(&mut self, into: &mut [u8]) -> Got
        requires { 0 < length into.old }
        ensures gave { Gave (state self.old) (state self.new) into.new result }
        ensures later { (state self.old).faults ≤ (state self.new).faults }
        ensures sound { StaysSound (state self.old) (state self.new) result };

    /// Takes back what was read of it, when its reader needs that no longer. So a source that is asked
    /// later for what it gave need not keep a copy; others let it go.
    fn take_back(&mut self, _read: Vec<u8>)
        ensures same { state self.new ≡ state self.old }
    {}
}

/// Why not all was read.
#[derive(Clone, Copy, Debug, PartialEq, Eq)]
pub enum ReadAll {
    /// The source failed, and its count of faults rose in this call.
    ReadFault,
    /// One byte more than the limit was read before an end or a fault.
    TooLong { limit: usize },
    NoMemory,
}

impl fmt::Display for ReadAll {
    fn fmt<W: fmt::Write>(&self, f: &mut fmt::Formatter<W>) -> fmt::Result {
        match self {
            ReadAll::ReadFault => write!(f, "the input failed"),
            ReadAll::TooLong { limit } => write!(f, "the input has more than {limit} bytes"),
            ReadAll::NoMemory => write!(f, "out of memory"),
        }
    }
}

impl Error for ReadAll {}

impl From<AllocError> for ReadAll {
    ghost from_gives = { λ _ fault. fault ≡ NoMemory };

    fn from(_: AllocError) -> Self {
        ReadAll::NoMemory
    }
}

// As many bytes as one read of `read_all` asks for at most.
const PIECE: usize = 65_536;

/// Reads all bytes up to the end, and at most one byte more than the limit.
///
/// An error loses the bytes that were read. Every turn takes a byte or ends, so the call returns.
pub fn read_all<S: Source>(alloc: Global, source: &mut S, limit: usize) -> Result<Vec<u8>, ReadAll>
    ensures { ReadsAll (S.state source.old) (S.state source.new) limit result }
{
    let mut bytes = Vec::new(alloc);
    let mut piece = vec![in alloc; 0u8; PIECE.min(limit.saturating_add(1))]?;
    let room = piece.as_mut_slice();
    while bytes.len() <= limit {
        let most = room.len().min((limit - bytes.len()).saturating_add(1));
        let into = &mut room[..most];
        match source.read(into) {
            Got::Bytes(count) => bytes.extend_from_slice(&into[..count])?,
            Got::End => return Ok(bytes),
            Got::Failed => return Err(ReadAll::ReadFault),
        }
    }
    Err(ReadAll::TooLong { limit })
}

/// A reader of std as a source. It tells its count of faults, which starts at 0, and no content.
///
/// Each `Err` of the reader is a fault, and a read of no byte is the end.
#[derive(Drop)]
pub struct StdSource<R: Read + Drop> {
    inner: R,
    faults: FaultCount,
}

impl<R: Read + Drop> StdSource<R> {
    ghost use Rattle.tab_io.specs.Adapters.{reader_state, reader_told};

    /// The reader as a source, with no fault so far.
    pub fn of(inner: R) -> StdSource<R>
        ensures no_fault { (reader_state result).faults ≡ 0 }
        ensures told { (reader_told R.remaining result).rest ≡ R.remaining inner }
    {
        StdSource {
            inner,
            faults: FaultCount::new(),
        }
    }
}

impl<R: Read + Drop> Source for StdSource<R> {
    ghost use Rattle.tab_io.specs.Adapters.{reader_state, reader_told};

    ghost state = { reader_state };

    // Besides what each source owes: where the reader itself tells its bytes, they are what the
    // read gives, and each fault counts once.
    fn read(&mut self, into: &mut [u8]) -> Got
        requires { 0 < length into.old }
        ensures gave { Gave (reader_state self.old) (reader_state self.new) into.new result }
        ensures later { (reader_state self.old).faults ≤ (reader_state self.new).faults }
        ensures sound { StaysSound (reader_state self.old) (reader_state self.new) result }

        ensures told { Gave (reader_told R.remaining self.old)
            (reader_told R.remaining self.new) into.new result }
        ensures faults { CountsGot (reader_state self.old).faults
            (reader_state self.new).faults result }
    {
        match self.inner.read(into) {
            Ok(0) => Got::End,
            Ok(count) => Got::Bytes(count),
            Err(_) => {
                self.faults.rise();
                Got::Failed
            }
        }
    }
}
