//! The digests of the files that `extract` writes: pieces are hashed by threads while the stream is
//! read.
//!
//! The digest of a file's pieces is the SHA-256 of the SHA-256s of its pieces of 64 KiB, one after
//! another. A piece whose pages come in their order is hashed by a thread meanwhile. One that came
//! in parts is read and hashed at the end, and one of zeros alone costs nothing.
//!
//! | module | what |
//! |---|---|
//! | `batch` | pieces that one thread hashes |
//! | `background` | the pieces of the files, and the threads that hash them |
//! | `digester` | the digests of complete files |
#![tactic(auto)]

mod background;
mod batch;
mod digester;

pub use background::Background;
pub use digester::Digester;
