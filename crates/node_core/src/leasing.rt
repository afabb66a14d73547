//! News of leases.
ghost use Rattle.std.specs.Prelude.{◌≡◌, ℕ, IsTrue};
ghost use Rattle.node_core.specs.Leasing.{AnswersLease, Believes, NamesPrimary, StepsAs, believes};
ghost use Rattle.node_core.specs.Nodes.{history, parts_of, said_to, seen};
ghost use Rattle.node_core.specs.Safely.{law_answer};
ghost use Rattle.node_core.specs.Steps.{IsStep};
ghost use Rattle.world_laws.specs.Node as laws;

use crate::answer::Answer;
use crate::ask::Ask;
use crate::news::LeaseNews;
use crate::node::Node;
use crate::opening::host_in;
use crate::refusal::Refusal;
use crate::standing::Standing;
use lease_core::Belief;
use lf_base::Text;
use lf_disk::Disk;
use world_laws::moment_is_of_step;

/// What a node believes after news at this moment.
fn believed(before: &Belief, now: u64, news: &LeaseNews) -> Belief
    ensures { result ≡ believes now news.now before.now }
{
    let mut belief = *before;
    match news {
        LeaseNews::Asked => belief.asked(now),
        LeaseNews::Granted { term, ttl } => {
            if belief.is_asked() {
                belief.granted(*term, *ttl);
            }
        }
        LeaseNews::Lost => belief.lost(),
        LeaseNews::Primary { .. } => {}
    }
    belief
}

impl<D: Disk> Node<D> {
    /// From now on it believes this.
    fn believe(&mut self, belief: Belief) -> Answer
        ensures does { Believes (history self.old) (parts_of self.old) belief result (history self.new) (parts_of self.new) }
        ensures safe { IsTrue (D.honest self.old.store.disk) → StepsAs (seen (history self.old) (parts_of self.old)) laws.Lease
            (law_answer result) (seen (history self.new) (parts_of self.new)) (history self.old) (history self.new) }
        ensures belief { self.new.standing.belief ≡ belief }
        ensures moment { self.new.standing.moment ≡ self.old.standing.moment }
        ensures honest { D.honest self.new.store.disk ≡ D.honest self.old.store.disk }
    {
        let standing = Standing {
            belief,
            ..self.standing
        };
        self.stand(standing);
        Answer::Quiet
    }

    /// From now on `.primary` names this host.
    fn name_primary(&mut self, host: &Text) -> Answer
        ensures does { NamesPrimary (history self.old) (parts_of self.old) host.now result (history self.new) (parts_of self.new) }
        ensures safe { IsTrue (D.honest self.old.store.disk) → StepsAs (seen (history self.old) (parts_of self.old)) laws.Lease
            (law_answer result) (seen (history self.new) (parts_of self.new)) (history self.old) (history self.new) }
        ensures standing { self.new.standing ≡ self.old.standing }
        ensures honest { D.honest self.new.store.disk ≡ D.honest self.old.store.disk }
    {
        match host_in(host) {
            Ok(name) => {
                self.view.sound();
                self.view.told(self.store.pos(), name);
                Answer::Quiet
            }
            Err(_) => Answer::Refused(Refusal::NoMemory),
        }
    }

    /// Answers news.
    fn news(&mut self, now: u64, news: &LeaseNews) -> Answer
        ensures does { AnswersLease (history self.old) (parts_of self.old) now news.now result (history self.new) (parts_of self.new) }
        ensures safe { IsTrue (D.honest self.old.store.disk) → StepsAs (seen (history self.old) (parts_of self.old)) laws.Lease
            (law_answer result) (seen (history self.new) (parts_of self.new)) (history self.old) (history self.new) }
        ensures belief { self.new.standing.belief ≡ believes now news.now self.old.standing.belief }
        ensures moment { self.new.standing.moment ≡ self.old.standing.moment }
        ensures honest { D.honest self.new.store.disk ≡ D.honest self.old.store.disk }
    {
        let belief = believed(&self.standing.belief, now, news);
        match news {
            LeaseNews::Asked => self.believe(belief),
            LeaseNews::Granted { .. } => {
                self.held = None;
                self.believe(belief)
            }
            LeaseNews::Lost => self.believe(belief),
            LeaseNews::Primary { host } => self.name_primary(host),
        }
    }

    /// Answers news, at a moment.
    pub(crate) fn answer_lease(&mut self, now: u64, news: &LeaseNews) -> Answer
        ensures step { (caller : ℕ) → IsStep (history self.old) (parts_of self.old) caller (Ask.Lease now news.now) result (history self.new) (parts_of self.new) (said_to self.new) }
    {
        moment_is_of_step();
        self.at_moment(now);
        self.news(now, news)
    }
}
