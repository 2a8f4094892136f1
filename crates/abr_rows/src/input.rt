//! The input of a command that a row runs.
use std::io;

/// The input of a command: bytes, or an input that cannot be read.
#[derive(Drop)]
pub enum Input<'a> {
    Bytes(&'a [u8]),
    Unreadable,
}

impl io::Read for Input<'_> {
    fn read(&mut self, buf: &mut [u8]) -> io::Result<usize> {
        match self {
            Input::Bytes(left) => left.read(buf),
            Input::Unreadable => Err(io::Error::from(io::ErrorKind::NotFound)),
        }
    }
}
