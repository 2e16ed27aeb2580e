ghost use Rattle.std.specs.Prelude.{◌≤◌, length};

/// A number after a text of at most eight bytes.
#[derive(Clone, Copy)]
pub struct Numbered<'a> {
    pub text: &'a [u8],
    pub number: u32,
    pub ghost short: { length text.now ≤ 8 },
}
