//! The buffers for the suffix sets of a line.

ghost use Rattle.std.specs.Prelude.{◌<◌, vec_len};

use crate::suffixes::MAX_GAPS;
use bit_sets::{BitSet, Bits256, WordPair};
use grid_core::NoMemory;
use std::alloc::Global;

/// The buffers for the suffix sets of a line, one for each set width.
pub struct SuffixBuffers {
    /// Sets of 64 indices.
    pub narrow: Vec<[u64; MAX_GAPS]>,
    /// Sets of 128 indices.
    pub middle: Vec<[WordPair; MAX_GAPS]>,
    /// Sets of 256 indices.
    pub wide: Vec<[Bits256; MAX_GAPS]>,
    ghost narrow_ready: { 0 < vec_len narrow },
    ghost middle_ready: { 0 < vec_len middle },
    ghost wide_ready: { 0 < vec_len wide },
}

/// Written by hand so that callers' proofs see one call: a derived drop is expanded at each exit of
/// each caller.
impl Drop for SuffixBuffers {
    fn drop(self) {
        let SuffixBuffers {
            narrow: _,
            middle: _,
            wide: _,
        } = self;
    }
}

impl SuffixBuffers {
    /// Allocates all three buffers. Returns `NoMemory` if an allocation fails.
    pub fn new(alloc: Global) -> Result<SuffixBuffers, NoMemory> {
        Ok(SuffixBuffers {
            narrow: vec![in alloc; [0; MAX_GAPS]]?,
            middle: vec![in alloc; [u128::empty().to_stored(); MAX_GAPS]]?,
            wide: vec![in alloc; [Bits256::empty(); MAX_GAPS]]?,
        })
    }
}
