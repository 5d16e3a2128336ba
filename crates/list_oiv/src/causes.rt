//! What is wrong with an image.
ghost use Rattle.std.specs.Prelude.{◌≡◌, ◌≢◌, Some};
ghost use Rattle.ns_image.specs.declared.image_cause.ImageCause.TheVariants as image;
ghost use Rattle.list_oiv.specs.Listed.{cause_of};

use crate::image_listing::ImageByteCause;
use ns_image::ImageCause;

/// The cause of a fault of an image's bytes.
pub(crate) fn cause_of(cause: ImageCause) -> ImageByteCause
    requires { cause ≢ image.Digest }
    ensures { cause_of cause ≡ Some result }
{
    match cause {
        ImageCause::Short => ImageByteCause::Short,
        ImageCause::Magic => ImageByteCause::Magic,
        ImageCause::Layout => ImageByteCause::Layout,
        ImageCause::Field => ImageByteCause::Field,
        ImageCause::Order => ImageByteCause::Order,
        ImageCause::NoParent => ImageByteCause::NoParent,
        ImageCause::Trailing => ImageByteCause::Trailing,
        ImageCause::Digest => unreachable!(),
    }
}
