//! Bytes and texts that grow.

use std::alloc::{AllocError, Global};

/// Appends bytes.
pub fn append(lines: &mut Vec<u8>, bytes: &[u8]) -> Result<(), AllocError> {
    lines.extend_from_slice(bytes)
}

/// Appends a text.
pub fn append_str(text: &mut String, more: &str) -> Result<(), AllocError> {
    text.push_str(more)
}

/// A copy of bytes.
pub fn copied(alloc: Global, bytes: &[u8]) -> Result<Vec<u8>, AllocError> {
    Vec::from_slice(alloc, bytes)
}
