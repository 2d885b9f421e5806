// The search for a place beside those already seated: seating a task and freeing a core call each other, and each call has fewer cores left to ask.
ghost use Rattle.std.specs.Prelude.{◌≡◌, ◌≤◌, ◌<◌};
ghost use Rattle.dispatcher.specs.Limits.{core_limit, slot_limit, LegalCount};
ghost use Rattle.dispatcher.specs.Slots.{Shaped};
ghost use Rattle.engine.specs.Seats.{Seats};

use dispatcher::Dispatcher;

// How many cores there are, and the mask of the task of each slot.
#[derive(Drop)]
pub struct Board {
    pub cores: usize,
    pub masks: [u32; Dispatcher::SLOTS],
    ghost few: { cores ≤ core_limit },
}

// A search for a place: the cores that have been asked, and the slot on each core, or NONE.
#[derive(Drop)]
pub struct Seeking {
    pub asked: u32,
    pub seats: [u16; Dispatcher::CORES],
    ghost slots: { Seats seats },
}

impl Board {
    ghost use Rattle.engine.specs.Search.{MasksOf, Asks, Sought, Asked};

    pub fn of(d: &Dispatcher) -> Board
        requires shaped { Shaped d.now }
        requires count { LegalCount d.now.cores }
        ensures cores { result.cores ≡ d.now.cores }
        ensures masks { MasksOf d.now result.masks }
    {
        Board {
            cores: usize::from(d.cores),
            masks: d.tasks.map(|task| task.mask),
        }
    }

    // The task in the slot finds a place if some core of its mask is free or can be freed. Where it finds none, the seats stay, and the cores that were
    // asked are not asked again.
    #[cycle(free_seat)]
    pub fn seat(&self, s: &mut Seeking, slot: u16) -> bool
        requires { slot < slot_limit }
        ensures { Sought self.now s.old slot result s.new }
    {
        let core = masks::next_core(self.masks[slot as usize], s.asked);
        if self.cores <= core {
            return false;
        }
        if self.free(s, core) {
            s.seats[core] = slot;
            return true;
        }
        self.seat(s, slot)
    }

    // The core is free, or can be freed if its occupant finds another place. From now on it has been asked.
    #[cycle(free_seat)]
    fn free(&self, s: &mut Seeking, core: usize) -> bool
        requires { Asks self.now s.old core }
        ensures { Asked self.now s.old core result s.new }
    {
        s.asked = masks::add(s.asked, core);
        let occupant = s.seats[core];
        occupant == Dispatcher::NONE || self.seat(s, occupant)
    }
}
