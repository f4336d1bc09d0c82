//! The places of a command language: where a line may be under all commands together, and how it goes on.
#![tactic(auto)]

mod group;
mod known;
pub mod laws;
mod place;
mod places;
mod reached;
mod reading;

pub use place::{Exit, PLACE_LIMIT, Place, PlacesError, Position};
pub use places::places_of;
pub use reading::{part_of, step_of};
