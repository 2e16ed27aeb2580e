ghost use Rattle.std.specs.Prelude.{◌≡◌, ◌<◌, ◌≤◌, ◌==◌, length, slice_index};
ghost use Rattle.std.specs.List.{list_all};
ghost use Rattle.view_schedulers.specs.Guests.{dot_of, guest_number, guest_of, has_guest, is_digit, is_guest, is_number};

// Where the last dot of a name is, or the name's end where there is none.
fn dot_of(name: &[u8]) -> usize
    ensures value { result ≡ dot_of name.now }
    ensures within { result ≤ length name.now }
{
    let mut dot = name.len();
    for k in 0..name.len() {
        if is_dot(name, k) {
            dot = k;
        }
    }
    dot
}

fn is_dot(name: &[u8], k: usize) -> bool
    requires { k < length name.now }
    ensures { result ≡ (slice_index name.now k == 46) }
{
    name[k] == b'.'
}

// The guest of a vCPU's name, which is before its last dot.
pub(crate) fn guest_of(name: &[u8]) -> &[u8]
    ensures { result.now ≡ guest_of name.now }
{
    &name[..dot_of(name)]
}

// The number there, which is after that dot.
pub(crate) fn number_of(name: &[u8]) -> &[u8]
    ensures { result.now ≡ guest_number name.now }
{
    let dot = dot_of(name);
    if dot < name.len() {
        &name[dot + 1..]
    } else {
        &name[name.len()..]
    }
}

// Whether a name has both.
pub(crate) fn has_guest(name: &[u8]) -> bool
    ensures { result ≡ has_guest name.now }
{
    is_guest(guest_of(name)) && is_number(number_of(name))
}

fn is_guest(word: &[u8]) -> bool
    ensures { result ≡ is_guest word.now }
{
    1 <= word.len() && word[0] != b'-'
}

fn is_number(word: &[u8]) -> bool
    ensures { result ≡ is_number word.now }
{
    1 <= word.len() && are_digits(word) && (word.len() == 1 || word[0] != b'0')
}

fn are_digits(word: &[u8]) -> bool
    ensures { result ≡ list_all is_digit word.now }
{
    word.iter().all(|byte| is_digit(*byte))
}

fn is_digit(byte: u8) -> bool
    ensures { result ≡ is_digit byte }
{
    matches!(byte, b'0'..=b'9')
}
