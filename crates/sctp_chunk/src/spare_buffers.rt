//! Buffers of payloads that went, for payloads that come.

ghost use Rattle.std.specs.Prelude.{◌≡◌, IfOk};

use std::alloc::{AllocError, Global};

// Of what capacity they are.
const LEAST_CAPACITY: usize = 512;

const LARGEST_CAPACITY: usize = 2048;

/// Buffers of 512 to 2,048 bytes, which payloads left that are no more needed: most fragments of long messages are as large as a
/// packet lets them be.
#[derive(Drop)]
pub struct SpareBuffers {
    buffers: Vec<Vec<u8>>,
    /// How many are kept at most.
    limit: usize,
}

impl SpareBuffers {
    /// None, and never more than so many. Takes no memory.
    pub fn new(alloc: Global, limit: usize) -> SpareBuffers {
        SpareBuffers {
            buffers: Vec::new(alloc),
            limit,
        }
    }

    /// Keeps a buffer, or lets it go: where so many are kept, where it is too small or too large, and without memory.
    #[inline(always)]
    pub fn keep(&mut self, buffer: Vec<u8>) {
        let capacity = buffer.capacity();
        if self.buffers.len() < self.limit
            && LEAST_CAPACITY <= capacity
            && capacity <= LARGEST_CAPACITY
        {
            let _is_kept = self.buffers.push(buffer).is_ok();
        }
    }

    /// A copy of the bytes, in the last of these buffers where it is neither too small nor more than a byte over twice as large. One that is too
    /// small is let go.
    #[inline(always)]
    pub fn copy(&mut self, alloc: Global, bytes: &[u8]) -> Result<Vec<u8>, AllocError>
        ensures { IfOk result (λ copy. copy.items ≡ bytes.now) }
    {
        let Some(mut copy) = self.buffers.pop() else {
            return Vec::from_slice(alloc, bytes);
        };
        let capacity = copy.capacity();
        if bytes.len() < capacity / 2 {
            self.keep(copy);
            return Vec::from_slice(alloc, bytes);
        }
        if capacity < bytes.len() {
            return Vec::from_slice(alloc, bytes);
        }
        copy.clear();
        copy.extend_from_slice(bytes)?;
        Ok(copy)
    }
}
