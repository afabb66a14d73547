//! Laws of files that come or go part by part, each the contract of a function that does nothing.
ghost use Rattle.std.specs.Prelude.{◌≡◌, ◌+◌, ◌≤◌, ℕ, List, [], ◌∷◌, ◌++◌, length, take};
ghost use Rattle.page_checksum.specs.Crc.{after_bytes, all_ones};
ghost use Rattle.lf_sqlite_pages.specs.Change.{PageChange, empty_change, with_page};
ghost use Rattle.lf_sqlite_pages.specs.declared.page_write.PageWrite.{PageWrite};
ghost use Rattle.ltx_codec.specs.Fields.{AreBytes, stated_page_size, stated_commit};
ghost use Rattle.ltx_codec.specs.Format.{IsLtx, header_encoding, no_meaning, page_encoding, file_encoding};
ghost use Rattle.ltx_codec.specs.Decoding.{NoneEndsBefore, ShowsHeader, ShowsPage, page_shown};
ghost use Rattle.ltx_codec.specs.Encoding.{HasWritten, trailer_encoding};
ghost use Rattle.ltx_codec.specs.WholePages.{HoldsWholePages};
ghost use Rattle.ltx_codec.specs.declared.decoder.Decoder.{Decoder};
ghost use Rattle.ltx_codec.specs.declared.header.Header.{Header};
ghost use Rattle.ltx_codec.specs.declared.file.Ltx.{Ltx};

/// The pages that a decoder shows, one after another, are those of the file that it ends: none
/// behind the header, one more with each page, and all of them where the file is whole.
pub fn pages_as_shown()
    ensures first { (decoder : Decoder) (limit : ℕ) (encoding : List ℕ) → ShowsHeader decoder limit encoding
        → HoldsWholePages encoding (empty_change (stated_page_size encoding) (stated_commit encoding)) }
    ensures more { (encoding piece : List ℕ) (change : PageChange) → HoldsWholePages encoding change → AreBytes (encoding ++ piece)
        → NoneEndsBefore encoding piece (length piece + 1) → HoldsWholePages (encoding ++ piece) change }
    ensures next { (decoder : Decoder) (limit used number : ℕ) (encoding piece : List ℕ) (change : PageChange) → HoldsWholePages encoding change
        → 1 ≤ used → used ≤ length piece → NoneEndsBefore encoding piece used → ShowsPage decoder limit number (encoding ++ take used piece)
        → HoldsWholePages (encoding ++ take used piece) (with_page change number (page_shown decoder)) }
    ensures whole { (used : ℕ) (encoding piece : List ℕ) (change : PageChange) (file : Ltx) → HoldsWholePages encoding change
        → used ≤ length piece → AreBytes piece → NoneEndsBefore encoding piece used → IsLtx (encoding ++ take used piece) file
        → change ≡ file.change }
{}

/// What an encoder appends, one part after another, is the encoding of the file.
pub fn parts_are_the_encoding()
    ensures start { (header : Header) → HasWritten (after_bytes all_ones (header_encoding header no_meaning)) header [] (header_encoding header no_meaning) }
    ensures page { (register number : ℕ) (header : Header) (pages : List PageWrite) (encoding page : List ℕ) → HasWritten register header pages encoding
        → HasWritten (after_bytes register (page_encoding number page)) header (pages ++ record { number = number; bytes = page } ∷ []) (encoding ++ page_encoding number page) }
    ensures finish { (register : ℕ) (file : Ltx) (encoding : List ℕ) → HasWritten register file.header file.change.pages encoding
        → encoding ++ trailer_encoding register file.post ≡ file_encoding file no_meaning }
{}
