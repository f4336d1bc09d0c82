//! Tests of images: what is written of a store, what is where the host fails, and where bytes go wrong.
#![tactic(auto)]

#[cfg(test)]
mod brim;
#[cfg(test)]
mod cases;
#[cfg(test)]
mod cuts;
#[cfg(test)]
mod damages;
#[cfg(test)]
mod failing;
#[cfg(test)]
mod fields;
#[cfg(test)]
mod given;
#[cfg(test)]
mod heads;
#[cfg(test)]
mod limits;
#[cfg(test)]
mod orders;
#[cfg(test)]
mod ranges;
#[cfg(test)]
mod versions;
#[cfg(test)]
mod whole;
