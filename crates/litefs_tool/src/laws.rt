//! Laws of the definitions, each the contract of a function that does nothing else.
ghost use Rattle.std.specs.Prelude.{◌≡◌, List, ℕ, Result};
ghost use Rattle.lf_sqlite_pages.specs.Image.{DatabaseImage};
ghost use Rattle.ltx_codec.specs.Fields.{AreBytes};
ghost use Rattle.litefs_tool.specs.Compaction.{CompactsTo};
ghost use Rattle.litefs_tool.specs.Files.{Applies};
ghost use Rattle.litefs_tool.specs.Words.{Spells, Words};
ghost use Rattle.litefs_tool.specs.declared.command.Command.{Command};
ghost use Rattle.litefs_tool.specs.declared.compact_refusal.CompactRefusal.{CompactRefusal};
ghost use Rattle.litefs_tool.specs.declared.database.Database.{Database};
ghost use Rattle.litefs_tool.specs.declared.refusal.Refusal.{Refusal};

use ltx_codec::{encoding_breaks_no_rule, one_earliest_fault, one_reading};

/// Applying the files in some bytes to a database comes to one image, or to one refusal.
pub fn one_answer()
    ensures { (database : Database) (bytes : List ℕ) (answer other : Result DatabaseImage Refusal) → AreBytes bytes
        → Applies database bytes answer → Applies database bytes other → answer ≡ other }
{
    one_reading();
    encoding_breaks_no_rule();
    one_earliest_fault();
}

/// Compacting the files in some bytes comes to one file, or to one refusal.
pub fn one_compaction()
    ensures { (bytes : List ℕ) (answer other : Result (List ℕ) CompactRefusal) → AreBytes bytes
        → CompactsTo bytes answer → CompactsTo bytes other → answer ≡ other }
{
    one_reading();
    encoding_breaks_no_rule();
    one_earliest_fault();
}

/// Arguments are one command's.
pub fn one_command()
    ensures { (arguments : Words) (command other : Command) → Spells arguments command → Spells arguments other → command ≡ other }
{}
