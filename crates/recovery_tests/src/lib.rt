// Tests of recovery, as tables: the frames of a chip's image, and what recovery answers over it.
#![tactic(auto)]

#[cfg(test)]
mod cases;
#[cfg(test)]
mod data_rows;
#[cfg(test)]
mod entry_rows;
#[cfg(test)]
mod frames;
#[cfg(test)]
mod log_rows;
#[cfg(test)]
mod size_rows;
#[cfg(test)]
mod tests;
#[cfg(test)]
mod trailer_rows;
#[cfg(test)]
mod written;
