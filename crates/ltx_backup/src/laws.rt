//! A law of backups: the contract of a function that does nothing.
ghost use Rattle.std.specs.Prelude.{◌≡◌, ℕ};
ghost use Rattle.ltx_codec.specs.Positions.{nowhere};
ghost use Rattle.ltx_backup.specs.Folding.{Folds};
ghost use Rattle.ltx_backup.specs.Levels.{Levels, LeadOn, chain};
ghost use Rattle.ltx_backup.specs.Ordered.{AllOrdered};
ghost use Rattle.ltx_backup.specs.Restoring.{EndsWith, restored};

/// A compaction changes no image at the last transaction of a file that stays, or comes.
pub fn a_compaction_changes_no_image()
    ensures { (old new : Levels) → LeadOn nowhere (chain old) → AllOrdered (chain old) → (txid sum : ℕ) → EndsWith (chain new) txid sum → Folds old new
        → restored (chain new) txid ≡ restored (chain old) txid }
{}
