//! The pages of a file whose encoding comes in pieces, kept as they end.
ghost use Rattle.std.specs.Prelude.{◌≡◌, List, ℕ, IfOk};
ghost use Rattle.lf_sqlite_pages.specs.Change.{empty_change};
ghost use Rattle.ltx_codec.specs.WholePages.{HasTaken, IsTaking};
ghost use Rattle.ltx_codec.specs.steps.ReadingParts.{ReadsPart, CountsSome};

use crate::decoder::Decoder;
use crate::fault::LtxFault;
use crate::seen::Seen;
use lf_sqlite_pages::Change;
use std::alloc::Global;

/// The change before a header is read.
#[tactic(auto, unfolding(lf_sqlite_pages::specs::PageSize::is_page_size))]
pub fn no_pages(alloc: Global) -> Change
    ensures { result ≡ empty_change 512 0 }
{
    Change::new(alloc, 512, 0)
}

/// Takes a piece up to the end of a part, and keeps the page that it is.
pub fn read_part(
    alloc: Global,
    decoder: &mut Decoder,
    change: &mut Change,
    piece: &[u8],
) -> Result<Seen, LtxFault>
    requires { IsTaking decoder.old change.old }
    ensures gives { (encoding : List ℕ) → HasTaken decoder.old change.old encoding → ReadsPart decoder.new change.new encoding piece.now result }
    ensures some { IfOk result (CountsSome piece.now) }
{
    match decoder.feed(piece)? {
        Seen::Header { used } => {
            let header = decoder.header();
            *change = Change::new(alloc, header.page_size, header.commit);
            Ok(Seen::Header { used })
        }
        Seen::Page { used, number } => {
            change.push(number, decoder.page())?;
            Ok(Seen::Page { used, number })
        }
        seen => Ok(seen),
    }
}
