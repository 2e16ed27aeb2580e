ghost use Rattle.std.specs.Prelude.{◌≡◌, ◌<◌, ◌≤◌, ◌^◌, [], length};
ghost use Rattle.tab_io.specs.Sources.{Gave, StaysSound};
ghost use Rattle.advice.specs.Kept.{inner_state, kept_of};

use crate::kept::{KEPT_LIMIT, KeptSource};
use std::alloc::Global;
use tab_io::{Got, Source};

impl<S: Source + Drop> KeptSource<S> {
    /// The source, to which nothing was handed back yet.
    pub fn of(alloc: Global, inner: S) -> KeptSource<S>
        ensures same { inner_state S.state result ≡ S.state inner }
        ensures none { kept_of result ≡ [] }
    {
        KeptSource {
            inner,
            kept: Vec::new(alloc),
        }
    }

    /// The bytes that were handed back last, none before.
    pub fn kept(&self) -> &[u8]
        ensures kept { result.now ≡ kept_of self.now }
        ensures short { length result.now < 2 ^ 32 }
    {
        self.kept.as_slice()
    }
}

impl<S: Source + Drop> Source for KeptSource<S> {
    ghost use Rattle.advice.specs.Kept.{inner_state};

    ghost state = { inner_state S.state };

    // Besides what each source owes: it is the inner source's read, and what is kept stays.
    fn read(&mut self, into: &mut [u8]) -> Got
        requires { 0 < length into.old }
        ensures gave { Gave (inner_state S.state self.old) (inner_state S.state self.new) into.new result }
        ensures later { (inner_state S.state self.old).faults ≤ (inner_state S.state self.new).faults }
        ensures sound { StaysSound (inner_state S.state self.old) (inner_state S.state self.new) result }

        ensures kept { kept_of self.new ≡ kept_of self.old }
    {
        self.inner.read(into)
    }

    // Besides what each source owes: what comes back is kept, but for bytes as no input has so many.
    fn take_back(&mut self, read: Vec<u8>)
        ensures same { inner_state S.state self.new ≡ inner_state S.state self.old }

        ensures kept { length read.items < 2 ^ 32 → kept_of self.new ≡ read.items }
        ensures longer { 2 ^ 32 ≤ length read.items → kept_of self.new ≡ kept_of self.old }
    {
        if read.len() <= KEPT_LIMIT {
            self.kept = read;
        }
    }
}
