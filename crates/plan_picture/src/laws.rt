//! Laws over the definitions alone: the contract of each function is the law. A call computes nothing.

ghost use Rattle.plan_picture.specs.inside.Laws.{PiecesShadeCurfews, StretchesKeepClocks};

/// Each moment of a stretch of the picture is by the clocks of that stretch.
pub fn stretches_keep_clocks()
    ensures { StretchesKeepClocks }
{}

/// A moment of a stretch is shaded by a curfew's band exactly where its local minute lies in the curfew's window.
pub fn pieces_shade_curfews()
    ensures { PiecesShadeCurfews }
{}
