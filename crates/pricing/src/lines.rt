//! What the lines of an airport are over: the aircraft's stand there, the windows, and the flights that end there.

use crate::stand::Stand;
use crate::window::Window;

/// An airport's windows, one for each line, and its flights in order of their ends, as an aircraft finds them.
#[derive(Clone, Copy)]
pub struct Lines<'a> {
    pub stand: Stand,
    pub windows: &'a [Window],
    pub flights: &'a [u32],
}
