//! A database without figures.
ghost use Rattle.std.specs.Prelude.{◌≡◌, IfOk, codes};

use lf_base::NoMemory;
use node_figures::{Counts, Figures, Gauge, Histogram};
use std::alloc::Global;
use stream_primary::About;
use test_base::database;

/// A gauge whose figures are all 0.
#[derive(Drop)]
pub struct NoFigures;

impl Gauge for NoFigures {
    fn read(&self, alloc: Global) -> Result<Figures, NoMemory> {
        let never = Histogram {
            buckets: [0; 10],
            count: 0,
            sum_ms: 0,
        };
        let counts = Counts {
            followers: 0,
            watchers: 0,
            commits: 0,
            log_bytes: 0,
            sent_bytes: 0,
            held_frames: 0,
            snapshots: 0,
            refusals: Vec::new(alloc),
            commit_time: never,
            lag: never,
        };
        Ok(Figures {
            node: 0,
            uptime_ms: 0,
            primary_url: None,
            counts,
        })
    }
}

/// What a session of a node of the database `app` serves.
pub fn about(alloc: Global) -> Result<About<NoFigures>, NoMemory>
    ensures { IfOk result (λ about. about.name ≡ codes "app") }
{
    Ok(About {
        name: database(alloc)?,
        gauge: NoFigures,
    })
}
