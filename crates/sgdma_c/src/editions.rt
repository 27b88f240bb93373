// The C call between the editions of an image: that of crate image.
ghost use Rattle.image.specs.Editions.{ImageMoved};

use bus::number_of;
use image::moves;

// Moves the image `from` to the edition that the size of `to` tells.
#[unsafe(no_mangle)]
pub extern "C" fn sgdma_move_image(from: &[u8], to: &mut [u8]) -> u32
    ensures { ImageMoved from.now to.old result to.new }
{
    number_of(moves::move_image(from, to))
}
