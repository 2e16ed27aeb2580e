ghost use Rattle.std.specs.Prelude.{◌≡◌, IfOk, IsErrOf};
ghost use Rattle.std.specs.List.{list_all};
ghost use Rattle.tab_core.specs.Name.{IsName, is_name, is_lone_dash, is_byte_of_name};
ghost use Rattle.tab_core.specs.declared.name.NameFault.TheVariants.{NoMemory};

use crate::{MAX_NAME, NoMemory};
use std::alloc::{AllocError, Global};
use std::error::Error;
use std::fmt;
use std::marker::Model;

/// A vCPU's name: 1 to 32 bytes out of `a-z A-Z 0-9 _ - .`, other than the single byte `-`, which
/// stands for an idle core in texts. Contracts see its bytes.
#[derive(Drop)]
pub struct Name {
    bytes: Vec<u8>,
}

impl Model for Name {
    ghost use Rattle.std.specs.Prelude.{ℕ, List};
    ghost use Rattle.tab_core.specs.Name.{IsName};

    ghost Value = { List ℕ };

    ghost view = { λ name. name.bytes.items };

    ghost invariant = { λ name. IsName name.bytes.items };
}

/// Why bytes aren't made a name.
#[derive(Clone, Copy, Debug, PartialEq, Eq)]
pub enum NameFault {
    /// The bytes aren't of the form of a name.
    BadName,
    NoMemory,
}

impl fmt::Display for NameFault {
    fn fmt<W: fmt::Write>(&self, f: &mut fmt::Formatter<W>) -> fmt::Result {
        match self {
            NameFault::BadName => write!(f, "not of the form of a name"),
            NameFault::NoMemory => write!(f, "want of memory"),
        }
    }
}

impl Error for NameFault {}

impl From<AllocError> for NameFault {
    ghost from_gives = { λ _ fault. fault ≡ NoMemory };

    fn from(_: AllocError) -> NameFault {
        NameFault::NoMemory
    }
}

impl Name {
    /// The name of these bytes. `BadName` comes exactly where they aren't of the form of a name; the
    /// only other fault is out of memory.
    pub fn of(alloc: Global, bytes: &[u8]) -> Result<Name, NameFault>
        ensures ok { IfOk result (λ name. (name ≡ bytes.now) × IsName bytes.now) }
        ensures bad_name { IsErrOf result NameFault.BadName → ¬ (IsName bytes.now) }
        ensures bad_name_due { ¬ (IsName bytes.now) → IsErrOf result NameFault.BadName }
    {
        if !Name::has_form(bytes) {
            return Err(NameFault::BadName);
        }
        Ok(Name {
            bytes: bytes.to_vec(alloc)?,
        })
    }

    /// Whether the bytes have the form of a name: 1 to 32 out of `a-z A-Z 0-9 _ - .`, other than the
    /// single byte `-`.
    pub fn has_form(bytes: &[u8]) -> bool
        ensures { result ≡ is_name bytes.now }
    {
        let short = 1 <= bytes.len() && bytes.len() <= MAX_NAME;
        short && !is_dash(bytes) && are_name_bytes(bytes)
    }

    // The name once more.
    pub(crate) fn copy(&self, alloc: Global) -> Result<Name, NoMemory>
        ensures { IfOk result (λ name. name ≡ self.now) }
    {
        Ok(Name {
            bytes: self.bytes.to_vec(alloc)?,
        })
    }

    /// The bytes of the name, 1 to 32.
    pub fn bytes(&self) -> &[u8]
        ensures same { result.now ≡ self.now }
        ensures good { IsName self.now }
    {
        &self.bytes
    }
}

fn is_dash(bytes: &[u8]) -> bool
    ensures { result ≡ is_lone_dash bytes.now }
{
    bytes.len() == 1 && bytes[0] == b'-'
}

fn are_name_bytes(bytes: &[u8]) -> bool
    ensures { result ≡ list_all is_byte_of_name bytes.now }
{
    bytes.iter().all(|byte| is_name_byte(*byte))
}

fn is_name_byte(byte: u8) -> bool
    ensures { result ≡ is_byte_of_name byte }
{
    matches!(byte, b'a'..=b'z' | b'A'..=b'Z' | b'0'..=b'9' | b'_' | b'-' | b'.')
}
