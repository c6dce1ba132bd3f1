//! Faults of modules.

use rl_base::{Name, Place};

/// Why modules are refused.
#[derive(Debug, Drop)]
pub struct Fault {
    /// The path of a file.
    pub path: Name,
    /// Where it stands, in that file.
    pub place: Place,
    /// The number of its code, as 12 for `M12`.
    pub code: u8,
}
