ghost use Rattle.std.specs.Prelude.{◌≤◌};

/// A vCPU's name as it is in a line, made ready: a space, the name, and the byte that comes after it, a
/// space or a line feed. These are the first `len` bytes.
#[derive(Clone, Copy)]
pub struct Tail {
    pub(crate) bytes: [u8; 40],
    pub(crate) len: usize,
    pub ghost fits: { len ≤ 40 },
}
