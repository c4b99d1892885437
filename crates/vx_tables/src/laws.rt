//! Masks and the order of methods.
ghost use Rattle.vx_tables.specs.Laws.{MasksPick};

/// Where the masks have the methods that count, and each row beats itself and the methods that it is more specific than, the row
/// that is picked is that of the best of the methods that count.
pub fn masks_pick_what_lookup_finds()
    ensures { MasksPick }
{}
