//! The image of a picture of a run: what happens at each group, which packets are under way between
//! them, and what the target waits for, as SVG.
#![tactic(auto)]

pub use drawing::write_drawing;

mod drawing;
mod ground;
mod layers;
mod legend;
mod packets;
mod scene;
mod shown;
mod signs;
mod style;
mod windows;
