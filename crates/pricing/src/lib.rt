//! Exact pricing of one aircraft: the least weight of its legal routes that fit the marks, and a route of that weight.
#![tactic(auto)]

mod airport;
mod airports;
mod asked;
mod departing;
mod end;
mod exact_price;
mod fill;
pub mod laws;
mod line_fill;
mod line_pass;
mod lines;
mod priced;
mod pricer;
mod stand;
mod step;
mod waiting;
mod window;

pub use end::{RouteEnd, spelled, weight_of};
pub use exact_price::price;
pub use priced::Priced;
pub use pricer::Pricer;
pub use step::stepped;
