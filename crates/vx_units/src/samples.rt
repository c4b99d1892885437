//! Units of a few things, written out.
ghost use Rattle.vx_units.specs.Samples.{UnitsAreSpelled};

/// What the units of an object, a test, a table and a code are, byte for byte.
pub fn units_are_spelled()
    ensures { UnitsAreSpelled }
{}
