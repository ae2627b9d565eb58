//! Fronts and ends of lists, empty or whole where a place is behind the end.

use sg_ast::Spanned;

/// The first bytes, at most so many.
pub(crate) fn front_bytes(bytes: &[u8], len: usize) -> &[u8] {
    if len < bytes.len() {
        &bytes[..len]
    } else {
        bytes
    }
}

/// The bytes behind the first so many.
pub(crate) fn bytes_behind(bytes: &[u8], len: usize) -> &[u8] {
    if len < bytes.len() {
        &bytes[len..]
    } else {
        &[]
    }
}

/// The first tokens, at most so many.
pub(crate) fn front_tokens(tokens: &[Spanned], len: usize) -> &[Spanned] {
    if len < tokens.len() {
        &tokens[..len]
    } else {
        tokens
    }
}

/// The tokens behind the first so many.
pub(crate) fn tokens_behind(tokens: &[Spanned], len: usize) -> &[Spanned] {
    if len < tokens.len() {
        &tokens[len..]
    } else {
        &[]
    }
}
