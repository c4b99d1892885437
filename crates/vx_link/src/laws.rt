//! What holds of linking.
ghost use Rattle.vx_link.specs.Spells.{SpelledIsLinked};

/// Units that spell the parts of an image, with the places of a roster for their names, are linked into that image in version 2.
pub fn spelled_units_are_linked()
    ensures { SpelledIsLinked }
{}
