ghost use Rattle.ltx_codec.specs.Fields.{AreBytes};

/// The numbers in bytes are bytes.
pub fn are_bytes(bytes: &[u8])
    ensures { AreBytes bytes.now }
{}
