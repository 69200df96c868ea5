//! Where and when an aircraft waits: what decides, with the marks, whether a flight that ended there may wait, and
//! whether it has waited long enough.

/// An airport as an aircraft finds it: its number, the number behind its last Must, its turn there between two flights, and
/// how late it is.
#[derive(Clone, Copy, Debug)]
pub struct Stand {
    pub port: u32,
    pub floor: u32,
    /// In minutes.
    pub turn: i64,
    /// In minutes since 1970-01-01T00:00 UTC.
    pub moment: i64,
}
