// The refusal of an image, which gives it back.
ghost use Rattle.std.specs.Prelude.{◌≡◌, ◌<◌, length, OnOk, IfErr};
ghost use Rattle.device.specs.declared.faults.Refusal.TheVariants.{BadSize};
ghost use Rattle.image.specs.Exact.{Declined, Serves, fault_at};

use device::{Fault, Layer, Refusal};
use std::marker::Model;

// The most fuses that a device takes.
const FUSES: usize = 8;

// Why no device was made, and the image, untouched. It has a model, of the same two fields, since a caller could not match on two devices at once without.
#[derive(Drop)]
pub struct Unfit<'a> {
    pub fault: Fault,
    pub image: &'a mut [u8],
}

impl<'a> Model for Unfit<'a> {
    ghost Value = { Declined };

    ghost view = { λ u. record { fault = u.fault; image = u.image } };
}

// Refuses an image that is not 1 to `most` whole blocks, of so many bytes each, and a list of too many fuses.
pub fn serves(
    layer: Layer,
    image: &[u8],
    block: usize,
    most: usize,
    fuses: &[u32],
) -> Result<(), Fault>
    requires { 0 < block }
    ensures ok { OnOk result (Serves (length image.now) block most fuses.now) }
    ensures err { IfErr result (λ f. (f ≡ fault_at layer 0 BadSize) × (Serves (length image.now) block most fuses.now → ⊥)) }
{
    let len = image.len();
    let blocks = len / block;
    if len % block != 0 || blocks == 0 || blocks > most || fuses.len() > FUSES {
        return Err(Refusal::BadSize.at(layer, 0));
    }
    Ok(())
}
