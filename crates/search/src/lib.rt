// The search for a chain of cores: where a task may go, where the task that it pushes off may go, and so on. A task is known by its mask.
#![tactic(auto)]

ghost use Rattle.std.specs.Prelude.{◌≡◌, ℕ, ◌-◌, ◌<◌, ◌≤◌, ◌%◌, ◌^◌, List, length, get_or};
ghost use Rattle.masks.specs.Masks.{width, has};
ghost use Rattle.seating.proofs.Near.{lowest, walk};
ghost use Rattle.search.specs.Sitters.{leads};
ghost use Rattle.search.specs.Route.{route_of, Searched};
ghost use Rattle.search.specs.ReachedCores.{ReachedCores};
ghost use Rattle.search.specs.Leading.{Leading};
ghost use Rattle.search.specs.Taken.{take_list, Cores, ChainCores};
ghost use Rattle.search.specs.Marks.{far, mark, within};
ghost use Rattle.search.specs.Rounds.{Gathered, LowestWithin, first_mark_of, next_mark_of, Filled};
ghost use Rattle.search.specs.Distances.{Distances};
ghost use Rattle.search.specs.Ready.{Ready};
ghost use Rattle.search.specs.Spread.{Spread};

use std::marker::Model;
use std::mem;

// The mark of a core from which no way to the target is found yet.
const FAR: u8 = 255;

/// A chain of cores: the newcomer's, and then for each task that is pushed off the core that it goes to.
#[derive(Clone, Copy)]
pub struct Route {
    cores: [u8; masks::WIDTH],
    len: usize,
}

impl Model for Route {
    ghost use Rattle.std.specs.Prelude.{ℕ, List, length, take};
    ghost use Rattle.std.proofs.Common.{sym};
    ghost use Rattle.search.specs.Taken.{ChainCores, spelt, Spelled};

    ghost Value = { List ℕ };

    ghost view = { λ r. take r.len r.cores };

    ghost invariant = { λ r. ChainCores (take r.len r.cores) × Spelled r.cores r.len };

    // A copy needs the fields back from the list: so the places after the cores are 0.
    ghost inverse = { λ cores. record { cores = spelt cores; len = length cores } };

    ghost inverse_ok = { λ r h i. record { cores = sym h.1.spare i; len = h.1.size i } };
}

impl Route {
    /// How many tasks change their core.
    pub fn moves(&self) -> u8
        ensures { result ≡ length self.now - 1 }
    {
        (self.len - 1) as u8
    }

    /// Its cores, the newcomer's first.
    pub fn cores(&self) -> &[u8]
        ensures is { result.now ≡ self.now }
        ensures chain { ChainCores result.now }
    {
        &self.cores[..self.len]
    }
}

/// The newcomer takes the cores of a chain: it gets the first, each task on the chain the next one, and the last one's task drops out.
pub fn take_chain(
    mut seats: [u16; masks::WIDTH],
    cores: &[u8],
    newcomer: u16,
) -> [u16; masks::WIDTH]
    requires { Cores cores.now }
    ensures { result ≡ take_list seats newcomer cores.now }
{
    let mut pushed = newcomer;
    for core in cores {
        pushed = mem::replace(&mut seats[usize::from(*core)], pushed);
    }
    seats
}

// The marks after `limit` rounds, and the cores that have one.
#[derive(Clone, Copy)]
struct Marks {
    marks: [u8; masks::WIDTH],
    near: u32,
    limit: u8,
}

fn next_mark(mark: u8, mask: u32, near: u32, limit: u8) -> u8
    requires { limit < far }
    ensures { result ≡ next_mark_of mark mask near limit }
{
    if mark <= limit || mask & near == 0 {
        mark
    } else {
        limit + 1
    }
}

/// Who sits where: the mask of the task on each core, and 0 for an idle core. The machine has the first `count` of the cores.
#[derive(Clone, Copy)]
pub struct Sitters {
    pub masks: [u32; masks::WIDTH],
    pub count: usize,
    pub ghost few: { count ≤ width },
}

impl Sitters {
    /// The shortest chain from a task with the mask `start` to a core of `target`, and of the shortest the one with the smaller core where they first differ.
    pub fn search(&self, start: u32, target: u32) -> Option<Route>
        ensures { Searched self.now.count self.now.masks start target result }
    {
        let m = self.distances(start, target);
        if start & m.near == 0 {
            return None;
        }
        Some(self.follow(&m, start))
    }

    /// The cores from which a core of `target` is reached.
    pub fn leading(&self, target: u32) -> u32
        ensures { Leading self.now.count self.now.masks target result }
    {
        // With no core to start from the rounds go on until one adds no core.
        self.distances(0, target).near
    }

    /// The cores that a task with the mask `start` reaches.
    pub fn reached(&self, start: u32) -> u32
        ensures { ReachedCores self.now.count self.now.masks start result }
    {
        let mut seen = self.cut(start);
        // No index counts these sweeps: they end with the one that adds no core.
        loop {
            let next = self.spread(seen);
            if next == seen {
                return next;
            }
            seen = next;
        }
    }

    // The marks before the first round.
    fn begin(&self, target: u32) -> [u8; masks::WIDTH]
        ensures { Filled (first_mark_of target) self.now.count result }
    {
        let mut marks = [FAR; masks::WIDTH];
        for core in 0..self.count {
            if masks::has(u64::from(target), core) {
                marks[core] = 0;
            }
        }
        marks
    }

    // The cores whose mark is at most `limit`, as a mask.
    fn gathered(&self, marks: &[u8; masks::WIDTH], limit: u8) -> u32
        ensures { Gathered marks.now limit self.now.count result }
    {
        let mut near = 0;
        for core in 0..self.count {
            if marks[core] <= limit {
                near = masks::add(near, core);
            }
        }
        near
    }

    // One round more. `near` has the cores whose mark is at most `limit`.
    fn round(&self, marks: &mut [u8; masks::WIDTH], near: u32, limit: u8)
        requires { limit < far }
        ensures { Filled (λ c. next_mark_of (mark marks.old c) (get_or self.now.masks c 0) near limit) self.now.count marks.new }
    {
        for core in 0..self.count {
            marks[core] = next_mark(marks[core], self.masks[core], near, limit);
        }
    }

    // How many steps lead from each core to a core of `target`. The rounds end when a core of `start` has a mark, or when one adds no core.
    fn distances(&self, start: u32, target: u32) -> Marks
        ensures { Distances self.now.count self.now.masks start target result }
    {
        let rounds = self.count as u8;
        let mut marks = self.begin(target);
        let mut near = self.gathered(&marks, 0);
        for limit in 0..rounds {
            if start & near != 0 {
                return Marks { marks, near, limit };
            }
            self.round(&mut marks, near, limit);
            let next = self.gathered(&marks, limit + 1);
            if next == near {
                return Marks {
                    marks,
                    near,
                    limit: limit + 1,
                };
            }
            near = next;
        }
        Marks {
            marks,
            near,
            limit: rounds,
        }
    }

    // The smallest core of the mask whose mark is at most `limit`.
    fn lowest_within(&self, marks: &[u8; masks::WIDTH], mask: u32, limit: u8) -> Option<usize>
        ensures { LowestWithin marks.now mask limit self.now.count result }
    {
        (0..self.count).find(|core| marks[*core] <= limit && masks::has(u64::from(mask), *core))
    }

    // The chain to the target for a task with the mask `start`: to its smallest core with a mark, and on from there always to the smallest core with a lower mark.
    fn follow(&self, m: &Marks, start: u32) -> Route
        requires { let from = lowest self.now.count (has start) (within m.now.marks m.now.limit) in
            Ready self.now.count self.now.masks (within m.now.marks) from m.now.limit }
        ensures { let from = lowest self.now.count (has start) (within m.now.marks m.now.limit) in
            result ≡ route_of from (walk self.now.count (leads self.now.masks) (within m.now.marks) m.now.limit from) }
    {
        let mut cores = [0; masks::WIDTH];
        let mut len = 0;
        let mut mask = start;
        for limit in (0..m.limit + 1).rev() {
            let core = self.lowest_within(&m.marks, mask, limit).unwrap();
            cores[len] = core as u8;
            len += 1;
            mask = self.masks[core];
        }
        Route { cores, len }
    }

    // The mask without the cores that the machine does not have.
    fn cut(&self, mask: u32) -> u32
        ensures { result ≡ mask % 2 ^ self.now.count }
    {
        (u64::from(mask) % (1u64 << self.count)) as u32
    }

    // `seen`, and the cores that the tasks on it may use.
    fn spread(&self, seen: u32) -> u32
        ensures { Spread self.now.count self.now.masks seen self.now.count result }
    {
        let mut wider = seen;
        for core in 0..self.count {
            if masks::has(u64::from(seen), core) {
                let allowed = self.cut(self.masks[core]);
                wider |= allowed;
            }
        }
        wider
    }
}
