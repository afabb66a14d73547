//! Tests of single values.
ghost use Rattle.std.specs.Prelude.{◌↔◌, IsTrue};
ghost use Rattle.ltx_codec.specs.Format.{IsFlagged};

/// Whether bit 63 is set.
pub fn is_flagged(sum: u64) -> bool
    ensures { IsTrue result ↔ IsFlagged sum }
{
    sum >= 1 << 63
}
