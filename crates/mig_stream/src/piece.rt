//! The bytes that a reader reads. They are lent for the call alone, or for as long as the rounds.
//! `reader` creates them, and `round` copies or lends pages of them.

ghost use Rattle.std.specs.Prelude.{◌≡◌, ◌≤◌, length, take, drop};
ghost use Rattle.mig_stream.specs.Kept.{bytes_of};

/// Bytes to be read.
#[derive(Clone, Copy)]
pub(crate) enum Piece<'a, 'b> {
    /// Bytes of one call: a page that is kept is copied.
    Passing(&'b [u8]),
    /// Bytes that outlive the call: a page that is kept is lent from them.
    Staying(&'a [u8]),
}

impl<'a, 'b> Piece<'a, 'b> {
    pub(crate) fn bytes(&self) -> &[u8]
        ensures { result.now ≡ bytes_of self.now }
    {
        match self {
            Piece::Passing(bytes) => bytes,
            Piece::Staying(bytes) => bytes,
        }
    }

    /// Returns the first `mid` bytes, and those after them.
    pub(crate) fn split_at(self, mid: usize) -> (Piece<'a, 'b>, Piece<'a, 'b>)
        requires { mid ≤ length (bytes_of self) }
        ensures front { bytes_of result.0 ≡ take mid (bytes_of self.entry) }
        ensures back { bytes_of result.1 ≡ drop mid (bytes_of self.entry) }
    {
        match self {
            Piece::Passing(bytes) => {
                let (front, back) = bytes.split_at(mid);
                (Piece::Passing(front), Piece::Passing(back))
            }
            Piece::Staying(bytes) => {
                let (front, back) = bytes.split_at(mid);
                (Piece::Staying(front), Piece::Staying(back))
            }
        }
    }
}

impl<'a> Piece<'a, 'a> {
    /// Returns the bytes, for as long as they are lent.
    pub(crate) fn into_bytes(self) -> &'a [u8]
        ensures { result.now ≡ bytes_of self.entry }
    {
        match self {
            Piece::Passing(bytes) => bytes,
            Piece::Staying(bytes) => bytes,
        }
    }
}
