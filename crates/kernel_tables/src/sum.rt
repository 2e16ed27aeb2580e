ghost use Rattle.std.specs.Prelude.{◌≡◌};
ghost use Rattle.kernel_tables.specs.Sums.{checksum, sum_with};

/// The checksum of the bytes: FNV-1a with 64 bits.
///
/// Each step is one to one in what it begins with and in its byte. So bytes of which one is changed have another sum,
/// and others, as many or not, have the same in one of 2^64 cases.
pub fn checksum(bytes: &[u8]) -> u64
    ensures { result ≡ checksum bytes.now }
{
    let mut sum = 14_695_981_039_346_656_037;
    for byte in bytes {
        sum = sum_with(sum, *byte);
    }
    sum
}

// The checksum of some bytes, with one more.
fn sum_with(sum: u64, byte: u8) -> u64
    ensures { result ≡ sum_with sum byte }
{
    (sum ^ u64::from(byte)).wrapping_mul(1_099_511_628_211)
}
