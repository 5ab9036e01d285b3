// Planes that show another plane in another way: left for right, courses moved up and round, or on for off.
#![tactic(auto)]

pub use layer::Layer;
pub use mirror::Mirror;
pub use negative::Negative;
pub use roll::Roll;
pub use view::View;

pub mod layer;
pub mod mirror;
pub mod negative;
pub mod roll;
pub mod view;
