ghost use Rattle.std.specs.Prelude.{◌≡◌, ℕ, List};

use lf_base::Text;

/// How news of leases are brought to a machine: as which asks.
pub trait Bringing {
    type Ask: Drop;

    /// The lease service is about to be asked, at this moment.
    ghost asking_at: { ℕ → Self.Ask };

    /// What it was asked for last is granted: a term, for so long.
    ghost granted_at: { ℕ → ℕ → ℕ → Self.Ask };

    /// The lease is lost.
    ghost lost_at: { ℕ → Self.Ask };

    /// The host of the primary.
    ghost primary_at: { ℕ → List ℕ → Self.Ask };

    fn asking(&self, now: u64) -> Self::Ask
        ensures { result ≡ asking_at now };

    fn granted(&self, now: u64, term: u64, ttl: u64) -> Self::Ask
        ensures { result ≡ granted_at now term ttl };

    fn lost(&self, now: u64) -> Self::Ask
        ensures { result ≡ lost_at now };

    fn primary(&self, now: u64, host: Text) -> Self::Ask
        ensures { result ≡ primary_at now host };
}
