//! News of leases, as what a node is asked.
ghost use Rattle.node_core.specs.declared.ask.Ask.TheVariants as asks;
ghost use Rattle.node_core.specs.declared.news.LeaseNews.TheVariants as news;

use lease_link::Bringing;
use lf_base::Text;
use node_core::{Ask, LeaseNews};

/// Brings them to a node.
#[derive(Clone, Copy)]
pub struct ToNode;

impl Bringing for ToNode {
    type Ask = Ask;

    ghost asking_at = { λ now. asks.Lease now news.Asked };

    ghost granted_at = { λ now term ttl. asks.Lease now (news.Granted term ttl) };

    ghost lost_at = { λ now. asks.Lease now news.Lost };

    ghost primary_at = { λ now host. asks.Lease now (news.Primary host) };

    fn asking(&self, now: u64) -> Ask {
        let news = LeaseNews::Asked;
        Ask::Lease { now, news }
    }

    fn granted(&self, now: u64, term: u64, ttl: u64) -> Ask {
        let news = LeaseNews::Granted { term, ttl };
        Ask::Lease { now, news }
    }

    fn lost(&self, now: u64) -> Ask {
        let news = LeaseNews::Lost;
        Ask::Lease { now, news }
    }

    fn primary(&self, now: u64, host: Text) -> Ask {
        let news = LeaseNews::Primary { host };
        Ask::Lease { now, news }
    }
}
