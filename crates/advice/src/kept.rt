ghost use Rattle.std.specs.Prelude.{◌<◌, ◌^◌, length};

mod source;

// The most bytes that are kept, more than any input has.
const KEPT_LIMIT: usize = 4_294_967_295;

/// A source that keeps what is handed back to it once it is read, so that it can be looked at later.
#[derive(Drop)]
pub struct KeptSource<S: Drop> {
    inner: S,
    kept: Vec<u8>,
    ghost short: { length kept.items < 2 ^ 32 },
}
