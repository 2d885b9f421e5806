// The boot list by value: all its records are created in order, or none.
#![tactic(auto)]

ghost use Rattle.std.specs.Prelude.{Ok, Err, MatchResult};
ghost use Rattle.boot.specs.Load.{Loads};
ghost use Rattle.boot.specs.Loading.{Comes};

use dispatcher::{Dispatcher, Refusal, Report, Task, TaskRecord};

// The report of a load: the index of the first refused record, or 0.
#[derive(Clone, Copy, Debug, PartialEq, Eq)]
pub struct LoadReport {
    pub report: Report,
    pub index: usize,
}

#[derive(Clone, Copy, Debug, PartialEq, Eq)]
pub struct Loaded {
    pub report: LoadReport,
    pub dispatcher: Dispatcher,
}

// Why a list is refused, and the index of the record that is; 0 where the dispatcher is not sound.
#[derive(Clone, Copy, Debug, PartialEq, Eq)]
struct Refused {
    refusal: Refusal,
    index: usize,
}

// All the records in order, up to the first that is refused. A create keeps a sound dispatcher sound, so soundness is asked once.
fn create_all(d: &mut Dispatcher, list: &[TaskRecord]) -> Result<(), Refused>
    ensures { MatchResult result (λ done. Comes d.old list.now (Ok done) 0 d.new) (λ r. Comes d.old list.now (Err r.refusal) r.index d.new) }
{
    soundness::check(*d).map_err(|refusal| Refused { refusal, index: 0 })?;
    for (index, t) in list.iter().enumerate() {
        tasks::entry(*d, t.slot, t.priority, t.mask).map_err(|refusal| Refused { refusal, index })?;
        d.tasks[usize::from(t.slot)] = Task {
            priority: t.priority,
            mask: t.mask,
        };
    }
    Ok(())
}

// Creates every record of the list, or none.
pub fn load(d: Dispatcher, list: &[TaskRecord]) -> Loaded
    ensures { Loads d list.now result }
{
    let mut next = d;
    match create_all(&mut next, list) {
        Ok(()) => Loaded {
            report: LoadReport {
                report: Report::still(Ok(())),
                index: 0,
            },
            dispatcher: next,
        },
        Err(refused) => Loaded {
            report: LoadReport {
                report: Report::still(Err(refused.refusal)),
                index: refused.index,
            },
            dispatcher: d,
        },
    }
}
