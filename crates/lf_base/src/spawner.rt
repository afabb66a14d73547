ghost use Rattle.std.specs.Prelude.{◌≡◌, ◌↔◌, ℕ, Bool, true, IsErr};
ghost use Rattle.lf_base.specs.Faults.{CountsFaults, Rose};
ghost use Rattle.lf_base.specs.Starts.{CountsRefusal, IsAsSaid};

use crate::gate::Gate;
use crate::handles::Handles;
use crate::source::Failed;
use std::thread;

/// What a thread is started for.
pub trait Job<R> {
    fn go(self, rt: R);
}

/// Where a job is to run.
#[derive(Drop)]
pub enum Place {
    /// Nowhere.
    Refused,
    /// In the caller's own thread, before `start` returns.
    Here,
    /// In a thread of its own, which is counted by the gate while it runs.
    Thread(Gate),
}

/// What starts jobs, by `start`.
pub trait Spawner {
    /// How often it has failed.
    ghost faults: { Self → ℕ };

    /// Whether it says which jobs it refuses.
    ghost says: { Self → Bool };

    /// Whether it refuses the next job, where it says so.
    ghost refuses: { Self → Type 0 };

    /// Where the next job is to run.
    fn place(&mut self) -> Place
        ensures said { says self.old ≡ true → IsAsSaid (refuses self.old) result }
        ensures cause { CountsRefusal (faults self.old) (faults self.new) result };

    /// Counts that no thread could be made.
    fn fail(&mut self)
        ensures { Rose (faults self.old) (faults self.new) };

    /// Waits for all jobs that it started.
    fn finish<R: Handles>(&mut self, rt: &R)
        ensures { faults self.new ≡ faults self.old };
}

/// Starts a job where its spawner places it. After `Failed` the job was dropped without having begun.
pub fn start<R: Handles + Copy + Send + 'static, S: Spawner, J: Job<R> + Send + Drop + 'static>(
    rt: R,
    spawner: &mut S,
    job: J,
) -> Result<(), Failed>
    ensures said { S.says spawner.old ≡ true → IsErr result ↔ S.refuses spawner.old }
    ensures cause { CountsFaults (S.faults spawner.old) (S.faults spawner.new) result }
{
    start_call(rt, spawner, move || job.go(rt))
}

/// The same of a call. A call that starts others is one of these: in a method of an `impl` over type
/// parameters no thread can be started.
pub fn start_call<
    R: Handles + Copy + Send + 'static,
    S: Spawner,
    F: FnOnce() + Send + Drop + 'static,
>(rt: R, spawner: &mut S, call: F) -> Result<(), Failed>
    requires { F.IsAlwaysCallable call }
    ensures said { S.says spawner.old ≡ true → IsErr result ↔ S.refuses spawner.old }
    ensures cause { CountsFaults (S.faults spawner.old) (S.faults spawner.new) result }
{
    match spawner.place() {
        Place::Refused => Err(Failed),
        Place::Here => {
            call();
            Ok(())
        }
        Place::Thread(gate) => match start_thread(rt, gate, call) {
            Ok(()) => Ok(()),
            Err(failed) => {
                spawner.fail();
                Err(failed)
            }
        },
    }
}

fn start_thread<R: Handles + Copy + Send + 'static, F: FnOnce() + Send + Drop + 'static>(
    rt: R,
    gate: Gate,
    call: F,
) -> Result<(), Failed>
    requires { F.IsAlwaysCallable call }
{
    let Ok(theirs) = gate.another() else {
        return Err(Failed);
    };
    gate.enter(&rt);
    let started = thread::spawn(
        &rt,
        move ||
            requires { F.IsAlwaysCallable call }
        {
            call();
            theirs.leave(&rt);
        },
    );
    if started.is_err() {
        gate.leave(&rt);
        return Err(Failed);
    }
    Ok(())
}
