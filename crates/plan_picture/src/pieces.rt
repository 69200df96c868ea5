//! The pieces that pictures are made of, for a picture of another kind: its head and its colours, the dates, the curfews, rows, bars
//! and strips.

pub use crate::bars::{add_bar, port_name};
pub use crate::curfews::add_bands;
pub use crate::fixed::{
    close, fixed_line, grid_patterns, html_close, html_open, style, whole_close,
};
pub use crate::layout::{DAY_WIDTH, LEFT, days_shown, first_moment, minutes_to, y_of};
pub use crate::picture::{add_days, add_whole_front, open_line, width_of};
pub use crate::rows::head_line;
pub use crate::strips::{part, strip_top};
