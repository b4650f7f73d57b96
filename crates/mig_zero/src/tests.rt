//! Tests of the zero test: no bytes, 4,096 zeros, the last one set, and a one at each place of many
//! lengths.

use crate::is_zero;
use std::alloc::{AllocError, Global};
use std::test::Fail;

fn zeros(alloc: Global, len: usize) -> Result<Vec<u8>, AllocError> {
    vec![in alloc; 0u8; len]
}

// Returns the result of `is_zero` on `len` zeros but for a one at `at`.
fn is_zero_but_at(alloc: Global, len: usize, at: usize) -> Result<bool, AllocError> {
    let mut bytes = zeros(alloc, len)?;
    if at < bytes.len() {
        bytes[at] = 1;
    }
    Ok(is_zero(&bytes))
}

#[test]
fn tells_zeros_from_other_bytes(rt: HostRuntime) -> Result<(), Fail> {
    let alloc = rt.alloc();
    assert!(rt; is_zero(&[]));
    assert!(rt; is_zero(&zeros(alloc, 4096)?));
    assert!(rt; !is_zero_but_at(alloc, 4096, 4095)?);
    assert!(rt; !is_zero_but_at(alloc, 67, 66)?);
    Ok(())
}

// Tests lengths near those of a vector, of a block and of several blocks.
#[test]
fn finds_a_one_at_each_place(rt: HostRuntime) -> Result<(), Fail> {
    for len in [1, 2, 63, 64, 65, 255, 256, 257, 320, 511, 512, 513, 600] {
        for at in 0..len {
            assert!(rt;
                !is_zero_but_at(rt.alloc(), len, at)?,
                "a one at {at} of {len}"
            );
        }
    }
    Ok(())
}

#[test]
fn takes_any_length(rt: HostRuntime) -> Result<(), Fail> {
    for len in 1..=600 {
        assert!(rt; is_zero(&zeros(rt.alloc(), len)?), "{len} zeros");
        assert!(rt;
            !is_zero_but_at(rt.alloc(), len, len - 1)?,
            "a one at the end of {len}"
        );
    }
    Ok(())
}
