use lf_disk::Disk;

/// The disks of a backup's three levels.
#[derive(Drop)]
pub struct Disks<D: Disk> {
    pub low: D,
    pub middle: D,
    pub high: D,
}
