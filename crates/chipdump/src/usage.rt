// How the program is used.
use std::io;

// Says what the program reads and prints.
pub(super) fn say_usage(rt: &impl Print) -> io::Result<()> {
    println!(rt; "chipdump: says what a chip image holds")?;
    println!(rt; "use: chipdump < IMAGE")?;
    println!(rt;
        "An image has a frame of 520 bytes for each page of the chip: state, fate, note, data."
    )?;
    println!(rt;
        "Unsettled pages go by their fates, as in a power cut. The image is not changed."
    )?;
    println!(rt;
        "It prints the size, the active area, the log, and each marked data page with its disk address;"
    )?;
    println!(rt; "or the refusal: its number, layer and place, and what it means.")
}
