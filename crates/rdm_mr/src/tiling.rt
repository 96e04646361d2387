// What holds of all the parts of a block together.
ghost use Rattle.rdm_mr.specs.Tiling.{TilingLaw};

/// Parts that tile their block still do so after each call.
pub fn tiling_law()
    ensures { TilingLaw }
{}
