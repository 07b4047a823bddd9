// An image that the check accepted, with the number of its layers. Document 01, Layout.
// Assumes nothing.
ghost use Rattle.std.specs.Prelude.{◌≡◌};
ghost use Rattle.image.specs.Words.{layers_of};
ghost use Rattle.image.specs.Sound.{Sound};

// What runs an action or a step goes by it.
#[derive(Drop)]
pub(crate) struct Accepted<'a> {
    pub image: &'a [u8],
    pub layers: usize,
    ghost sound: { Sound image.now },
    ghost counted: { layers ≡ layers_of image.now },
}
