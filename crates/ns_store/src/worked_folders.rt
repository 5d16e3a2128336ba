//! Worked examples of names, digests and folders, computed when the crate is checked.
ghost use Rattle.std.specs.Prelude.{◌≡◌, ◌+◌, ◌^◌, ◌++◌, ◌∷◌, [], Some, None, codes};
ghost use Rattle.md5.specs.Md5.{md5};
ghost use Rattle.ns_store.specs.Names.{name_of, Itself, Checkpoint, Digest, FreshDigest};
ghost use Rattle.ns_store.specs.Images.{image_in};
ghost use Rattle.ns_store.specs.Digests.{digest_line};
ghost use Rattle.ns_store.specs.Lists.{older_than, kept_from};
ghost use Rattle.ns_store.specs.Examples.{folder};

/// The names of the files of the image of txid 4.
pub fn names_of_an_image()
    ensures itself { name_of 4 Itself ≡ codes "fsimage_0000000000000000004" }
    ensures checkpoint { name_of 4 Checkpoint ≡ codes "fsimage.ckpt_0000000000000000004" }
    ensures digest { name_of 4 Digest ≡ codes "fsimage_0000000000000000004.md5" }
    ensures fresh { name_of 4 FreshDigest ≡ codes "fsimage_0000000000000000004.md5.tmp" }
{}

/// The file of the digest of the empty file.
pub fn digest_of_the_empty_file()
    ensures { digest_line 4 (md5 []) ≡ codes "d41d8cd98f00b204e9800998ecf8427e *fsimage_0000000000000000004" ++ 10 ∷ [] }
{}

/// An image counts where both of its files are there.
pub fn images_in_a_folder()
    ensures both { image_in folder 4 ≡ Some (record { bytes = codes "four"; digest = codes "digest" }) }
    ensures no_digest { image_in folder 7 ≡ None }
    ensures no_image { image_in folder 9 ≡ None }
{}

/// Of the images of txids 4, 7 and 12 two are retained, and the log is kept from the older of two.
pub fn what_is_kept_of_three_images()
    ensures older { older_than 2 (4 ∷ 7 ∷ 12 ∷ []) ≡ 4 ∷ [] }
    ensures all { older_than 3 (4 ∷ 7 ∷ 12 ∷ []) ≡ [] }
    ensures kept { kept_from 0 (4 ∷ 7 ∷ 12 ∷ []) ≡ 8 }
    ensures only { kept_from 0 (4 ∷ []) ≡ 5 }
    ensures more { kept_from 3 (4 ∷ 7 ∷ 12 ∷ []) ≡ 5 }
    ensures first { kept_from 100 (4 ∷ 7 ∷ 12 ∷ []) ≡ 1 }
{}
