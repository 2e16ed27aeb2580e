ghost use Rattle.std.specs.Prelude.{◌≡◌, ◌++◌, codes};
ghost use Rattle.tab_io.specs.Sinks.{Writes};
ghost use Rattle.host_doc.specs.Refusal.{host_fault_line, key_behind, path_text};

use crate::fault::{HostFault, Key, Path};
use tab_io::{Sink, WriteFault, write_all};
use tab_words::{TextPiece, put_numbered, put_pieces};

/// Writes the line of the refusal of a document: `refused: `, the fault as it is displayed, and a
/// line feed. For out of memory, which is no fault of the document, it writes nothing.
///
/// A fault of the sink leaves a prefix of the line in it. Nothing is settled.
pub fn put_host_fault<K: Sink>(sink: &mut K, fault: &HostFault) -> Result<(), WriteFault>
    ensures { Writes (K.state sink.old) (K.state sink.new) (host_fault_line fault.now) result }
{
    match fault {
        HostFault::NotToml => write_all(sink, b"refused: host is not TOML\n"),
        HostFault::BadKey { path } => put_path_line(sink, b"refused: host key ", path),
        HostFault::OutOfRange { path } => put_path_line(sink, b"refused: host value ", path),
        HostFault::SameName { vcpu } => put_numbered(
            sink,
            b"refused: name of vcpu ",
            *vcpu,
            b" stands twice\n",
        ),
        HostFault::TooMany { count } => put_numbered(sink, b"refused: ", *count, b" vcpus\n"),
        HostFault::NoMemory => Ok(()),
    }
}

// Writes a line that ends with the path of a key.
fn put_path_line<K: Sink>(sink: &mut K, begin: &[u8], path: &Path) -> Result<(), WriteFault>
    ensures { Writes (K.state sink.old) (K.state sink.new)
        (begin.now ++ (path_text path.now ++ codes "\n")) result }
{
    match path.vcpu {
        None => put_pieces(
            sink,
            &[
                TextPiece::Text(begin),
                TextPiece::Text(path.key.word().as_bytes()),
                TextPiece::Text(b"\n"),
            ],
        ),
        Some(number) => {
            let (space, word) = behind_number(path.key);
            put_pieces(
                sink,
                &[
                    TextPiece::Text(begin),
                    TextPiece::Text(b"vcpu "),
                    TextPiece::Number(number),
                    TextPiece::Text(space),
                    TextPiece::Text(word),
                    TextPiece::Text(b"\n"),
                ],
            )
        }
    }
}

// What is after a vCPU's number, in two pieces.
fn behind_number(key: Key) -> (&'static [u8], &'static [u8])
    ensures { result.0.now ++ result.1.now ≡ key_behind key }
{
    match key {
        Key::Vcpu => (b"", b""),
        _ => (b" ", key.word().as_bytes()),
    }
}
