//! Laws of the format, each the contract of a function that does nothing.
ghost use Rattle.std.specs.Prelude.{◌≡◌, ◌≢◌, ◌<◌, List, ℕ, ◌++◌, length};
ghost use Rattle.ltx_codec.specs.Fields.{AreBytes};
ghost use Rattle.ltx_codec.specs.Format.{IsLtx};
ghost use Rattle.ltx_codec.specs.FileIn.{file_in};
ghost use Rattle.ltx_codec.specs.Places.{IsBroken, IsEarliest, StandsInside};
ghost use Rattle.ltx_codec.specs.declared.file.Ltx.{Ltx};
ghost use Rattle.ltx_codec.specs.declared.fault.LtxFault.{LtxFault};

/// An encoding has one reading, whatever follows it: so no encoding is the front of another, and a list of
/// files splits in one way.
pub fn one_reading()
    ensures { (encoding other rest more : List ℕ) (file second : Ltx) → IsLtx encoding file → IsLtx other second
        → encoding ++ rest ≡ other ++ more → (encoding ≡ other) × (file ≡ second) }
{}

/// The file of an encoding is what `file_in` reads in it.
pub fn file_is_read()
    ensures { (bytes : List ℕ) (file : Ltx) → AreBytes bytes → IsLtx bytes file → file_in bytes ≡ file }
{}

/// The encoding of a file breaks no rule: what is broken stands behind it, and is that bytes follow.
pub fn encoding_breaks_no_rule()
    ensures { (encoding rest : List ℕ) (file : Ltx) (fault : LtxFault) (place : ℕ) → AreBytes (encoding ++ rest)
        → IsLtx encoding file → IsBroken (encoding ++ rest) fault place → (fault ≡ LtxFault.Tail) × (length encoding < place) }
{}

/// The fault that stands earliest is one.
pub fn one_earliest_fault()
    ensures { (bytes : List ℕ) (fault other : LtxFault) → IsEarliest bytes fault → IsEarliest bytes other → fault ≡ other }
{}

/// A fault inside a file stays the earliest whatever bytes follow; only what is short may be
/// made whole.
pub fn fault_stays()
    ensures { (bytes more : List ℕ) (fault : LtxFault) → IsEarliest bytes fault → fault ≢ LtxFault.Short → StandsInside fault
        → IsEarliest (bytes ++ more) fault }
{}
