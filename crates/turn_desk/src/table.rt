//! What a desk is made of.
ghost use Rattle.std.specs.Prelude.{◌≡◌};

use crate::news::News;
use atomic_table::{Table, TableRule};
use std::alloc::Global;
use std::sync::atomic::AtomicU64;

/// A desk whose slot holds an `S`: a table with a turn word, a number word and one slot, how many threads sleep or
/// are about to, and the machine's news.
///
/// Its parameters are plain, and `Desk<M>` is an alias of it, since a struct over a machine's associated types could not
/// cross threads.
#[derive(Drop)]
pub struct DeskOver<S, V, K, P: TableRule<S, V, K>> {
    pub(crate) table: Table<S, V, K, P, Global>,
    pub(crate) sleepers: AtomicU64,
    pub(crate) news: News,
    ghost sized: { (table.shared.table_id.words ≡ 2) × (table.shared.table_id.slots ≡ 1) },
}
