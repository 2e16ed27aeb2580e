ghost use Rattle.std.specs.Prelude.{◌≡◌, ◌++◌, OnOk, decimal};
ghost use Rattle.kernel_tables.specs.Lines.{number_word};

use itoa::Buffer;
use std::alloc::AllocError;

/// Appends the bytes.
pub(crate) fn put_bytes(text: &mut Vec<u8>, bytes: &[u8]) -> Result<(), AllocError>
    ensures { OnOk result (text.new.items ≡ text.old.items ++ bytes.now) }
{
    text.extend_from_slice(bytes)
}

/// Appends the number's decimal digits.
pub(crate) fn put_number(text: &mut Vec<u8>, n: u64) -> Result<(), AllocError>
    ensures { OnOk result (text.new.items ≡ text.old.items ++ decimal n) }
{
    let mut buffer = Buffer::new();
    put_bytes(text, buffer.format(n).as_bytes())
}

/// Appends the number's decimal digits, or `-` where there is none.
pub(crate) fn put_some(text: &mut Vec<u8>, number: Option<u32>) -> Result<(), AllocError>
    ensures { OnOk result (text.new.items ≡ text.old.items ++ number_word number) }
{
    match number {
        None => put_bytes(text, b"-"),
        Some(n) => put_number(text, u64::from(n)),
    }
}
