ghost use Rattle.std.specs.Prelude.{◌≡◌, ◌≢◌, ◌++◌, ◌<◌, ◌≤◌, [], ◌∷◌, IfSome, SomeIff, decimal, length, slice_index, take, true};
ghost use Rattle.std.specs.Char.{digit_value};
ghost use Rattle.std.specs.List.{All};
ghost use Rattle.std.specs.Str.Parse.{AllDigits, digits_value};
ghost use Rattle.tab_words.specs.Words.{words_of};
ghost use Rattle.tab_words.specs.Texts.{worded};

// A line of digits, one space and a word, which a line feed ends.
#[derive(Clone, Copy)]
pub(crate) struct PlainLine<'a> {
    // the number of the digits
    pub(crate) number: u32,
    pub(crate) word: &'a [u8],
    // the bytes after the line feed
    pub(crate) behind: &'a [u8],
}

// Such a line at the start of the bytes, read in one pass; none where none is seen there.
pub(crate) fn plain_line(bytes: &[u8]) -> Option<PlainLine<'_>>
    ensures { IfSome result (λ plain. worded bytes.now
        ≡ (decimal plain.number ∷ plain.word.now ∷ []) ∷ worded plain.behind.now) }
{
    let (number, count) = front_number(bytes);
    if !is_spelled_so(bytes, count) {
        return None;
    }
    let (_, rest) = bytes.split_at(count);
    let Some((word, behind)) = word_behind(rest) else {
        return None;
    };
    Some(PlainLine {
        number,
        word,
        behind,
    })
}

// So many digits make a number below 2^32, whichever they are.
const SURE_DIGITS: usize = 9;

// The number of the digits that the bytes begin with, of nine at most, and how many they are.
fn front_number(bytes: &[u8]) -> (u32, usize)
    ensures within { result.1 ≤ length bytes.now }
    ensures digits { AllDigits 10 (take result.1 bytes.now) }
    ensures value { result.0 ≡ digits_value 10 (take result.1 bytes.now) }
{
    let most = bytes.len().min(SURE_DIGITS);
    let mut number = 0;
    let mut count = 0;
    while count < most {
        let Some(digit) = digit_of(bytes[count]) else {
            return (number, count);
        };
        number = number * 10 + digit;
        count += 1;
    }
    (number, count)
}

fn digit_of(byte: u8) -> Option<u32>
    ensures { SomeIff result (digit_value byte < 10) (digit_value byte) }
{
    if byte.is_ascii_digit() {
        Some(u32::from(byte - b'0'))
    } else {
        None
    }
}

// Whether so many digits spell a number: there are some, and no zero leads them.
fn is_spelled_so(bytes: &[u8], count: usize) -> bool
    requires { count ≤ length bytes.now }
    ensures some { result ≡ true → 0 < count }
    ensures plain { result ≡ true → slice_index bytes.now 0 ≡ 48 → count ≡ 1 }
{
    count == 1 || (count > 1 && bytes[0] != b'0')
}

// The word after the space that the bytes begin with, and the bytes after the line feed that ends
// it. No byte of a word comes before the space in ASCII.
fn word_behind(bytes: &[u8]) -> Option<(&[u8], &[u8])>
    ensures { IfSome result (λ parts. (bytes.now ≡ 32 ∷ parts.0.now ++ 10 ∷ parts.1.now)
        × (words_of parts.0.now ≡ parts.0.now ∷ []) × All (λ byte. byte ≢ 10) parts.0.now) }
{
    let Some((first, rest)) = bytes.split_first() else {
        return None;
    };
    if *first != b' ' {
        return None;
    }
    let Some(end) = rest.iter().position(|byte| *byte <= b' ') else {
        return None;
    };
    if end == 0 || rest[end] != b'\n' {
        return None;
    }
    Some((&rest[..end], &rest[end + 1..]))
}
