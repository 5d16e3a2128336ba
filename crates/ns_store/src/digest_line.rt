//! The file of an image's digest, as it is written.
ghost use Rattle.std.specs.Prelude.{◌≡◌, ◌++◌, ◌∷◌, [], codes, IfOk, string_bytes};
ghost use Rattle.hex.specs.Hex.{encode_lower};
ghost use Rattle.md5.specs.Md5.{md5};
ghost use Rattle.ns_store.specs.Digests.{digest_line};

use crate::image_names::ImageNames;
use md5::{Digest, Md5};
use std::alloc::{AllocError, Global};

/// The digest of these bytes.
pub fn digest_of(bytes: &[u8]) -> [u8; 16]
    ensures { result ≡ md5 bytes.now }
{
    Md5::digest(bytes)
}

/// The line of a digest: its 32 digits, a space, a star, the image's name and a line feed.
#[tactic(auto, using(std::proofs::lemmas::Grind::common_steps), unfolding(crate::specs::Digests::digest_line))]
pub fn line_of(alloc: Global, names: &ImageNames, digest: &[u8; 16]) -> Result<String, AllocError>
    ensures { IfOk result (λ line. string_bytes line ≡ digest_line names.now digest.now) }
{
    let mut line = hex::encode(alloc, digest)?;
    line.push_str(" *")?;
    line.push_str(names.itself())?;
    line.push_str("\n")?;
    Ok(line)
}
