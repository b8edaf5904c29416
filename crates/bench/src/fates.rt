// What a power cut is to make of the frames of an image, set before a device is made of it.
ghost use Rattle.std.specs.Prelude.{◌≡◌, ◌+◌, ◌*◌, slice_set};
ghost use Rattle.chip_frames.specs.Codes.{fate_number};

use chip_frames::Fate;

// Gives a frame its fate, which is the frame's second byte, on a chip and on a disk (where torn is old). Past the end of the image there is nothing to be set.
#[tactic(auto, using(std::proofs::lemmas::List::set_past))]
pub fn set_fate(image: &mut [u8], frame: usize, number: usize, fate: Fate)
    ensures { image.new ≡ slice_set image.old (frame * number + 1) (fate_number fate) }
{
    let at = frame.saturating_mul(number).saturating_add(1);
    if at < image.len() {
        image[at] = fate as u8;
    }
}
