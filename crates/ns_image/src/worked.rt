//! Worked examples of images, computed when the crate is checked.
ghost use Rattle.std.specs.Prelude.{◌≡◌, [], ◌∷◌, ◌++◌, take, drop, length};
ghost use Rattle.ns_tree.specs.Space.{empty_space};
ghost use Rattle.ns_image.specs.declared.image_cause.ImageCause.TheVariants as causes;
ghost use Rattle.ns_image.specs.declared.answer.ReadImage.TheVariants as readings;
ghost use Rattle.ns_image.specs.Layouts.{image_bytes};
ghost use Rattle.ns_image.specs.Reading.{reading_of};
ghost use Rattle.ns_image.specs.Examples.{empty_image, no_calls};

/// The image of the empty namespace at txid 0, in both layouts.
pub fn empty_images_are_known()
    ensures one { image_bytes 1 empty_space 0 ≡ empty_image 1 }
    ensures two { image_bytes 2 empty_space 0 ≡ empty_image 2 ++ no_calls }
    ensures one_length { length (empty_image 1) ≡ 68 }
    ensures two_length { length (empty_image 2 ++ no_calls) ≡ 72 }
{}

/// Those bytes are read back.
#[tactic(auto, unfolding(crate::specs::Reading::byte_at, crate::specs::Reading::whole_at, crate::specs::Reading::number_at, crate::specs::Reading::text_at, crate::specs::Reading::path_at, crate::specs::Reading::owner_at, crate::specs::Reading::dir_at, crate::specs::Reading::root_at, crate::specs::Reading::repeated, crate::specs::Reading::tree_at, crate::specs::Reading::calls_at, crate::specs::Reading::head_at, crate::specs::Reading::told))]
pub fn known_images_are_read()
    ensures one { reading_of (empty_image 1) ≡ readings.Image empty_space 0 }
    ensures two { reading_of (empty_image 2 ++ no_calls) ≡ readings.Image empty_space 0 }
{}

/// One byte more stands after the end.
#[tactic(auto, unfolding(crate::specs::Reading::byte_at, crate::specs::Reading::whole_at, crate::specs::Reading::number_at, crate::specs::Reading::text_at, crate::specs::Reading::path_at, crate::specs::Reading::owner_at, crate::specs::Reading::dir_at, crate::specs::Reading::root_at, crate::specs::Reading::repeated, crate::specs::Reading::tree_at, crate::specs::Reading::calls_at, crate::specs::Reading::head_at, crate::specs::Reading::told))]
pub fn longer_images_are_refused()
    ensures one { reading_of (empty_image 1 ++ 0 ∷ []) ≡ readings.BadImage 68 causes.Trailing }
    ensures two { reading_of (empty_image 2 ++ no_calls ++ 0 ∷ []) ≡ readings.BadImage 72 causes.Trailing }
{}

/// No bytes, another first byte, another layout, and no count of calls.
#[tactic(auto, unfolding(crate::specs::Reading::byte_at, crate::specs::Reading::whole_at, crate::specs::Reading::number_at, crate::specs::Reading::text_at, crate::specs::Reading::path_at, crate::specs::Reading::owner_at, crate::specs::Reading::dir_at, crate::specs::Reading::root_at, crate::specs::Reading::repeated, crate::specs::Reading::tree_at, crate::specs::Reading::calls_at, crate::specs::Reading::head_at, crate::specs::Reading::told))]
pub fn other_images_are_refused()
    ensures nothing { reading_of [] ≡ readings.BadImage 0 causes.Short }
    ensures magic { reading_of (0 ∷ drop 1 (empty_image 1)) ≡ readings.BadImage 0 causes.Magic }
    ensures layout { reading_of (empty_image 3) ≡ readings.BadImage 4 causes.Layout }
    ensures cut { reading_of (take 21 (empty_image 1)) ≡ readings.BadImage 20 causes.Short }
    ensures no_count { reading_of (empty_image 2) ≡ readings.BadImage 68 causes.Short }
{}
