// Two accepted tables, which the comparison asks of.
// Assumes nothing.
ghost use Rattle.std.specs.Prelude.{◌≡◌};
ghost use Rattle.image.specs.Sound.{Sound};
ghost use Rattle.image.specs.Words.{shape_of};

use image::Shape;

// The numbers are those of the first one's header.
#[derive(Clone, Copy)]
pub(crate) struct Pair<'a> {
    pub first: &'a [u8],
    pub second: &'a [u8],
    pub shape: Shape,
    ghost sound: { Sound first.now × Sound second.now },
    ghost read: { shape ≡ shape_of first.now },
}
