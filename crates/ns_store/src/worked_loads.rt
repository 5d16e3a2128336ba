//! Worked examples of what is loaded, computed when the crate is checked.
ghost use Rattle.std.specs.Prelude.{◌+◌, ◌^◌};
ghost use Rattle.ns_image.specs.declared.image_cause.ImageCause.TheVariants as causes;
ghost use Rattle.ns_store.specs.Examples.{folder};
ghost use Rattle.ns_store.specs.Loads.{IsAnswer};
ghost use Rattle.ns_store.specs.declared.loaded.Loaded.TheVariants as loaded;

/// What is loaded of images in a folder.
pub fn images_that_are_loaded()
    ensures bad_digest { IsAnswer folder 4 (loaded.BadImage 0 causes.Digest) }
    ensures no_digest { IsAnswer folder 7 loaded.NoImage }
    ensures too_high { IsAnswer folder (2 ^ 62 + 1) loaded.NoImage }
{}
