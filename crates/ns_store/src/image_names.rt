//! The names of the files of one image.
ghost use Rattle.std.specs.Prelude.{◌≡◌, ◌≤◌, ◌^◌, ◌++◌, length};
ghost use Rattle.base_words.specs.Padded.{padded};
ghost use Rattle.ns_store.specs.Names.{name_of, Itself, Checkpoint, Digest, FreshDigest};

use base_files::{FileName, push_padded};
use std::marker::Model;

/// The names of the files of the image of a txid of at most 2^62.
pub struct ImageNames {
    txid: u64,
    whole: FileName,
    checkpoint: FileName,
    digest: FileName,
    fresh: FileName,
}

impl Model for ImageNames {
    ghost use Rattle.std.specs.Prelude.{◌≡◌, ◌≤◌, ◌^◌, ℕ};
    ghost use Rattle.ns_store.specs.Names.{name_of, Itself, Checkpoint, Digest, FreshDigest};

    ghost Value = { ℕ };

    ghost view = { λ n. n.txid };

    ghost invariant = { λ n. (n.txid ≤ 2 ^ 62)
        × (n.whole.bytes ≡ name_of n.txid Itself) × (n.checkpoint.bytes ≡ name_of n.txid Checkpoint)
        × (n.digest.bytes ≡ name_of n.txid Digest) × (n.fresh.bytes ≡ name_of n.txid FreshDigest) };
}

/// They are let go by one call wherever they are, which keeps proofs short.
impl Drop for ImageNames {
    fn drop(self) {
        let ImageNames {
            txid: _,
            whole: _,
            checkpoint: _,
            digest: _,
            fresh: _,
        } = self;
    }
}

// A front, the txid and a rest.
fn name_with(front: &str, txid: u64, rest: &str) -> FileName
    requires txid { txid ≤ 2 ^ 62 }
    requires front { length front.now ≤ 20 }
    requires rest { length rest.now ≤ 20 }
    ensures { result.bytes ≡ front.now ++ (padded 19 txid ++ rest.now) }
{
    let mut name = FileName::new();
    name.push_str(front);
    push_padded(&mut name, txid);
    name.push_str(rest);
    name
}

impl ImageNames {
    /// The names of the files of the image of this txid.
    #[tactic(auto, unfolding(crate::specs::Names::name_of))]
    pub fn new(txid: u64) -> ImageNames
        requires { txid ≤ 2 ^ 62 }
        ensures { result ≡ txid }
    {
        ImageNames {
            txid,
            whole: name_with("fsimage_", txid, ""),
            checkpoint: name_with("fsimage.ckpt_", txid, ""),
            digest: name_with("fsimage_", txid, ".md5"),
            fresh: name_with("fsimage_", txid, ".md5.tmp"),
        }
    }

    /// The image's own.
    pub fn itself(&self) -> &str
        ensures { result.now ≡ name_of self.now Itself }
    {
        self.whole.as_str()
    }

    /// That of the image that is being saved.
    pub fn checkpoint(&self) -> &str
        ensures { result.now ≡ name_of self.now Checkpoint }
    {
        self.checkpoint.as_str()
    }

    /// That of the file of the digest.
    pub fn digest(&self) -> &str
        ensures { result.now ≡ name_of self.now Digest }
    {
        self.digest.as_str()
    }

    /// That of the temporary file of the digest.
    pub fn fresh(&self) -> &str
        ensures { result.now ≡ name_of self.now FreshDigest }
    {
        self.fresh.as_str()
    }
}
