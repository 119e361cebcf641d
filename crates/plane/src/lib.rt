// The plane: points, the rectangle, locations and crossings, with their total methods.
#![tactic(auto)]

pub mod crossing;
pub mod direction;
pub mod location;
pub mod point;
pub mod rect;
