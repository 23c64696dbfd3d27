//! A buffer for reading, which many conversations may share.
ghost use Rattle.std.specs.Prelude.{◌≡◌, length};
ghost use Rattle.http_conversations.specs.declared.conversation.TheConstants.{MOST_READ};

use crate::conversation::MOST_READ;
use std::alloc::{AllocError, Global};

/// As many bytes as one read may give.
#[derive(Drop)]
pub struct ReadBuffer {
    /// What was read last, and what is left of earlier reads.
    pub bytes: Vec<u8>,
    ghost full: { length bytes.items ≡ MOST_READ },
}

impl ReadBuffer {
    /// Nothing was read. The only fault is out of memory.
    pub fn new(alloc: Global) -> Result<ReadBuffer, AllocError> {
        Ok(ReadBuffer {
            bytes: vec![in alloc; 0u8; MOST_READ]?,
        })
    }
}
