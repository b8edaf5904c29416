// Tests of the devices, as tables: what each call answers, and every byte of the image afterwards.
#![tactic(auto)]

#[cfg(test)]
mod any_chip;
#[cfg(test)]
mod bytes;
#[cfg(test)]
mod calls;
#[cfg(test)]
mod cases;
#[cfg(test)]
mod chip_calls;
#[cfg(test)]
mod chip_cases;
#[cfg(test)]
mod chip_fuses;
#[cfg(test)]
mod chip_tests;
#[cfg(test)]
mod disk_calls;
#[cfg(test)]
mod disk_cases;
#[cfg(test)]
mod disk_tables;
#[cfg(test)]
mod disk_tests;
#[cfg(test)]
mod images;
#[cfg(test)]
mod pair_cases;
#[cfg(test)]
mod pair_tables;
