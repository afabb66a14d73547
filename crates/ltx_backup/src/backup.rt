//! A backup between two calls, and its opening.
ghost use Rattle.std.specs.Prelude.{◌≡◌, ◌≢◌, false, IsTrue, IfOk, IfErr};
ghost use Rattle.std.proofs.Props.{props};
ghost use Rattle.lf_disk.specs.declared.name.FileName.TheVariants as name;
ghost use Rattle.lf_disk.specs.History.{now, IsSettledBut};
ghost use Rattle.ltx_backup.specs.Causes.{AreHonest, AllStay, AreSettled, IsCause};
ghost use Rattle.ltx_backup.specs.Levels.{Levels, Holds};
ghost use Rattle.ltx_backup.specs.Opening.{IsOpened, WhyClosed};
ghost use Rattle.ltx_backup.specs.Restoring.{Restores};
ghost use Rattle.ltx_backup.specs.Stops.{Stops};

use crate::entry::Index;
use crate::fault::BackupFault;
use crate::reopening::reopen;
use crate::target::Target;
use lf_base::Pos;
use lf_disk::Disk;
use lf_sqlite_pages::Image;
use std::alloc::Global;

/// A backup on three disks: one for each level.
#[derive(Drop)]
pub struct Backup<D: Disk> {
    pub low: D,
    pub middle: D,
    pub high: D,
    pub index: Index,
    /// A call that changes something answered Disk.
    pub broken: bool,
    ghost settled: { broken ≡ false → AreSettled (D.honest low) (D.honest middle) (D.honest high) (D.history low) (D.history middle) (D.history high) } by { Prim.hlevel props },
}

impl<D: Disk> Backup<D> {
    /// Opens what three disks hold. All is read and judged before anything is changed; then what a stop
    /// left undone is done. After a refusal the disks come back.
    pub fn open(
        alloc: Global,
        low: D,
        middle: D,
        high: D,
    ) -> Result<Backup<D>, (BackupFault, D, D, D)>
        requires low_settled { IsTrue (D.honest low) → IsSettledBut name.Staged (D.history low) }
        requires middle_settled { IsTrue (D.honest middle) → IsSettledBut name.Staged (D.history middle) }
        requires high_settled { IsTrue (D.honest high) → IsSettledBut name.Staged (D.history high) }

        // What the disks held is kept, and that is one thing alone.
        ensures opened { AreHonest (D.honest low) (D.honest middle) (D.honest high) → IfOk result (λ backup. IsOpened backup.index
            (D.history low) (D.history middle) (D.history high) (D.history backup.low) (D.history backup.middle) (D.history backup.high)) }
        ensures why { AreHonest (D.honest low) (D.honest middle) (D.honest high)
            → IfErr result (λ gone. WhyClosed (now (D.history low)) (now (D.history middle)) (now (D.history high)) gone.0) }

        // Whatever call stops, the disks hold what they held.
        ensures stops { AreHonest (D.honest low) (D.honest middle) (D.honest high) → (levels : Levels)
            → Holds levels (now (D.history low)) (now (D.history middle)) (now (D.history high))
            → IfOk result (λ backup. Stops (D.history low) (D.history middle) (D.history high) (D.history backup.low) (D.history backup.middle) (D.history backup.high) (Holds levels)) }
        ensures gone { AreHonest (D.honest low) (D.honest middle) (D.honest high) → (levels : Levels)
            → Holds levels (now (D.history low)) (now (D.history middle)) (now (D.history high))
            → IfErr result (λ gone. Stops (D.history low) (D.history middle) (D.history high) (D.history gone.1) (D.history gone.2) (D.history gone.3) (Holds levels)) }
        ensures whole { IfOk result (λ backup. backup.broken ≡ false) }
        ensures honest { (IfOk result (λ backup. (D.honest backup.low ≡ D.honest low) × (D.honest backup.middle ≡ D.honest middle) × (D.honest backup.high ≡ D.honest high)))
            × (IfErr result (λ gone. (D.honest gone.1 ≡ D.honest low) × (D.honest gone.2 ≡ D.honest middle) × (D.honest gone.3 ≡ D.honest high))) }
        ensures cause { (IfOk result (λ backup. AllStay (record { low = D.faults low; middle = D.faults middle; high = D.faults high })
            (record { low = D.faults backup.low; middle = D.faults backup.middle; high = D.faults backup.high })))
            × (IfErr result (λ gone. IsCause (record { low = D.faults low; middle = D.faults middle; high = D.faults high })
            (record { low = D.faults gone.1; middle = D.faults gone.2; high = D.faults gone.3 }) gone.0)) }
    {
        let mut low = low;
        let mut middle = middle;
        let mut high = high;
        // No file ends with transaction 0 or before it, so nothing is restored.
        match reopen(
            alloc,
            &mut low,
            &mut middle,
            &mut high,
            Target::new(alloc, 0),
        ) {
            Ok(opened) => Ok(Backup {
                low,
                middle,
                high,
                index: opened.index,
                broken: false,
            }),
            Err(why) => Err((why, low, middle, high)),
        }
    }

    /// The same, and restores to a transaction while the files are judged: each is read once.
    pub fn open_at(
        alloc: Global,
        low: D,
        middle: D,
        high: D,
        txid: u64,
    ) -> Result<(Backup<D>, Result<Image, BackupFault>), (BackupFault, D, D, D)>
        requires low_settled { IsTrue (D.honest low) → IsSettledBut name.Staged (D.history low) }
        requires middle_settled { IsTrue (D.honest middle) → IsSettledBut name.Staged (D.history middle) }
        requires high_settled { IsTrue (D.honest high) → IsSettledBut name.Staged (D.history high) }
        ensures opened { AreHonest (D.honest low) (D.honest middle) (D.honest high) → IfOk result (λ opened. IsOpened opened.0.index
            (D.history low) (D.history middle) (D.history high) (D.history opened.0.low) (D.history opened.0.middle) (D.history opened.0.high)) }
        ensures restores { AreHonest (D.honest low) (D.honest middle) (D.honest high) → (levels : Levels)
            → Holds levels (now (D.history low)) (now (D.history middle)) (now (D.history high)) → IfOk result (λ opened. Restores levels txid opened.1) }
        ensures why { AreHonest (D.honest low) (D.honest middle) (D.honest high)
            → IfErr result (λ gone. WhyClosed (now (D.history low)) (now (D.history middle)) (now (D.history high)) gone.0) }

        // Whatever call stops, the disks hold what they held.
        ensures stops { AreHonest (D.honest low) (D.honest middle) (D.honest high) → (levels : Levels)
            → Holds levels (now (D.history low)) (now (D.history middle)) (now (D.history high))
            → IfOk result (λ opened. Stops (D.history low) (D.history middle) (D.history high) (D.history opened.0.low) (D.history opened.0.middle) (D.history opened.0.high) (Holds levels)) }
        ensures gone { AreHonest (D.honest low) (D.honest middle) (D.honest high) → (levels : Levels)
            → Holds levels (now (D.history low)) (now (D.history middle)) (now (D.history high))
            → IfErr result (λ gone. Stops (D.history low) (D.history middle) (D.history high) (D.history gone.1) (D.history gone.2) (D.history gone.3) (Holds levels)) }
        ensures whole { IfOk result (λ opened. opened.0.broken ≡ false) }
        ensures honest { (IfOk result (λ opened. (D.honest opened.0.low ≡ D.honest low) × (D.honest opened.0.middle ≡ D.honest middle) × (D.honest opened.0.high ≡ D.honest high)))
            × (IfErr result (λ gone. (D.honest gone.1 ≡ D.honest low) × (D.honest gone.2 ≡ D.honest middle) × (D.honest gone.3 ≡ D.honest high))) }
        ensures cause { (IfOk result (λ opened. AllStay (record { low = D.faults low; middle = D.faults middle; high = D.faults high })
            (record { low = D.faults opened.0.low; middle = D.faults opened.0.middle; high = D.faults opened.0.high })))
            × (IfErr result (λ gone. IsCause (record { low = D.faults low; middle = D.faults middle; high = D.faults high })
            (record { low = D.faults gone.1; middle = D.faults gone.2; high = D.faults gone.3 }) gone.0)) }
        ensures disk { IfOk result (λ opened. IfErr opened.1 (λ why. why ≢ BackupFault.Disk)) }
    {
        let mut low = low;
        let mut middle = middle;
        let mut high = high;
        let target = Target::new(alloc, txid);
        match reopen(alloc, &mut low, &mut middle, &mut high, target) {
            Ok(opened) => {
                let restored = opened.target.finish(&opened.index);
                let backup = Backup {
                    low,
                    middle,
                    high,
                    index: opened.index,
                    broken: false,
                };
                Ok((backup, restored))
            }
            Err(why) => Err((why, low, middle, high)),
        }
    }

    /// Where the backup ends; (0, 0) where it is empty.
    pub fn end(&self) -> Pos
        ensures { result ≡ self.now.index.end }
    {
        self.index.end
    }

    /// The three disks, the lowest level's first.
    pub fn into_disks(self) -> (D, D, D)
        ensures { (result.0 ≡ self.low) × (result.1 ≡ self.middle) × (result.2 ≡ self.high) }
    {
        let Backup {
            low,
            middle,
            high,
            ..
        } = self;
        (low, middle, high)
    }
}
