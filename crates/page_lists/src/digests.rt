//! Digests of texts.

ghost use Rattle.std.specs.Prelude.{◌≡◌, IfOk};
ghost use Rattle.std.specs.String.{string_bytes};
ghost use Rattle.page_lists.specs.Digests as spec;

use sha2::{Digest, Sha256};
use std::alloc::{AllocError, Global};

/// Makes the SHA-256 of a text, in hexadecimal digits.
pub fn text_digest(alloc: Global, text: &str) -> Result<String, AllocError>
    ensures { IfOk result (λ digest. string_bytes digest ≡ spec.text_digest text.now) }
{
    let digest = Sha256::digest(text.as_bytes());
    hex::encode(alloc, digest.as_slice())
}
