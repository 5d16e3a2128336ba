//! Laws of images.
ghost use Rattle.std.specs.Prelude.{◌≡◌, ◌^◌, ◌≤◌, List, ℕ, Ok};
ghost use Rattle.base_words.specs.Fields.{IsBytes};
ghost use Rattle.ns_tree.specs.Space.{Space};
ghost use Rattle.ns_tree.specs.Places.{IsTree};
ghost use Rattle.ns_image.specs.Layouts.{image_bytes};
ghost use Rattle.ns_image.specs.Reading.{told};
ghost use Rattle.ns_image.specs.Reading.{Told};
ghost use Rattle.ns_image.specs.Laws.{IsImage};

/// What has an image in a layout is read back from it.
pub fn images_are_read_back()
    ensures { (image : Told) → IsImage image → told (image_bytes image.layout image.space image.txid) ≡ Ok image }
{}

/// An image has one spelling in each layout: bytes that are read are the image of what they tell.
pub fn images_have_one_spelling()
    ensures { (bytes : List ℕ) (image : Told) → IsBytes bytes → told bytes ≡ Ok image
        → (bytes ≡ image_bytes image.layout image.space image.txid) × IsImage image }
{}
