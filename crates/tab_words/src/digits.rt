ghost use Rattle.std.specs.Prelude.{◌≡◌, ◌+◌, ◌<◌, ◌≤◌, ◌++◌, decimal, length};
ghost use Rattle.tab_words.specs.Inside.Digits.{two_digits};

use arrayvec::ArrayVec;

// Appends the two digits of a number below 100.
fn push_two<const N: usize>(bytes: &mut ArrayVec<u8, N>, n: u32)
    requires small { n < 100 }
    requires room { length bytes.old.items + 2 ≤ N }
    ensures items { bytes.new.items ≡ bytes.old.items ++ two_digits n }
    ensures len { length bytes.new.items ≡ length bytes.old.items + 2 }
{
    bytes.push(b'0' + (n / 10) as u8);
    bytes.push(b'0' + (n % 10) as u8);
}

// Appends a number below 100, without a leading zero.
fn push_first<const N: usize>(bytes: &mut ArrayVec<u8, N>, n: u32)
    requires small { n < 100 }
    requires room { length bytes.old.items + 2 ≤ N }
    ensures items { bytes.new.items ≡ bytes.old.items ++ decimal n }
    ensures len { length bytes.new.items ≤ length bytes.old.items + 2 }
{
    if n < 10 {
        bytes.push(b'0' + n as u8);
    } else {
        push_two(bytes, n);
    }
}

/// Appends a number of at most six digits, as ticks of a round have, to bytes that have room for six more.
pub fn push_number<const N: usize>(bytes: &mut ArrayVec<u8, N>, n: u32)
    requires short { n < 1000000 }
    requires room { length bytes.old.items + 6 ≤ N }
    ensures { bytes.new.items ≡ bytes.old.items ++ decimal n }
{
    if n < 100 {
        push_first(bytes, n);
    } else if n < 10_000 {
        push_first(bytes, n / 100);
        push_two(bytes, n % 100);
    } else {
        push_first(bytes, n / 10_000);
        push_two(bytes, n % 10_000 / 100);
        push_two(bytes, n % 10_000 % 100);
    }
}
