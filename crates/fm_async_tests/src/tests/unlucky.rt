use std::io;
use std::random::RandomSource;
use std::sync::Wait;

/// A runtime that has no random numbers.
#[derive(Drop)]
pub(crate) struct Unlucky<'a, R> {
    pub(crate) rt: &'a R,
}

impl<'a, R: Wait> Wait for Unlucky<'a, R> {}

impl<'a, R: Alloc> Alloc for Unlucky<'a, R> {
    type A = R::A;

    fn alloc(&self) -> R::A {
        self.rt.alloc()
    }
}

impl<'a, R> RandomSource for Unlucky<'a, R> {
    fn fill_bytes(&self, _buf: &mut [u8]) -> io::Result<()> {
        Err(io::Error::from_raw_os_error(5))
    }
}
