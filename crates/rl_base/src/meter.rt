//! Budgets.

ghost use Rattle.std.specs.Prelude.{◌≡◌, ◌<◌, ◌+◌, ◌↔◌, IsTrue};
ghost use Rattle.std.specs.Bool.{OnTrue, OnFalse};

use std::marker::Model;

/// A budget, which contracts see as the number of units that are left.
#[derive(Debug, Drop)]
pub struct Meter {
    units: u64,
}

impl Model for Meter {
    ghost use Rattle.std.specs.Prelude.{ℕ};

    ghost Value = { ℕ };

    ghost view = { λ meter. meter.units };
}

impl Meter {
    /// A budget of so many units.
    pub fn new(units: u64) -> Meter
        ensures { result ≡ units }
    {
        Meter { units }
    }

    /// Takes one unit, if there is one; false comes only where none is left.
    pub fn take(&mut self) -> bool
        ensures given { IsTrue result ↔ (0 < self.old) }
        ensures taken { OnTrue result (self.old ≡ self.new + 1) }
        ensures empty { OnFalse result (self.new ≡ self.old) }
    {
        if self.units == 0 {
            return false;
        }
        self.units -= 1;
        true
    }

    /// The units that are left.
    pub fn left(&self) -> u64
        ensures { result ≡ self.now }
    {
        self.units
    }
}

#[cfg(test)]
mod tests {
    use super::*;

    #[test]
    fn gives_each_unit_once(rt: HostRuntime) {
        let mut meter = Meter::new(2);
        for (given, left) in [(true, 1), (true, 0), (false, 0)] {
            assert_eq!(rt; meter.take(), given);
            assert_eq!(rt; meter.left(), left);
        }
    }
}
