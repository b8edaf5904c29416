// Lines about a refusal: its numbers, the same in words, and what it means for whoever looks at the chip.
use device::{Fault, Layer, Refusal};
use std::io;

// What a broken rule means, by the layer that met it.
fn say_breach(rt: &impl Print, layer: Layer, place: u32) -> io::Result<()> {
    match layer {
        Layer::Chip => println!(rt;
            "meaning: not a chip image: the state of frame {place} is none of 0 to 5"
        ),
        _ => println!(rt;
            "meaning: the layout or a rule of the mapping table is broken at chip page {place}"
        ),
    }
}

// What a refusal means.
fn say_meaning(rt: &impl Print, fault: Fault) -> io::Result<()> {
    match fault.refusal {
        Refusal::BadSize => println!(rt;
            "meaning: not a chip image: it has 1 to 64 erase blocks of 4160 bytes each, and nothing else"
        ),
        Refusal::NoCheckpoint => println!(rt;
            "meaning: the chip was never formed, or forming it did not finish"
        ),
        Refusal::Breach => say_breach(rt, fault.layer, fault.place),
        Refusal::BadGeometry => println!(rt;
            "meaning: a cache serves no chip of this size, only one of 12 to 64 erase blocks"
        ),
        _ => println!(rt; "meaning: the chip was not read to the end"),
    }
}

// A refusal.
pub(super) fn say_refused(rt: &impl Print, fault: Fault) -> io::Result<()> {
    let Fault {
        refusal,
        layer,
        place,
    } = fault;
    let number = refusal.number();
    let level = layer.number();
    println!(rt; "refused: number {number}, layer {level}, place {place} ({refusal}, {layer})")?;
    say_meaning(rt, fault)
}
