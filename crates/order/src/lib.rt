// The wake order: the first place of each slot in it, and a slot that joins it or leaves it.
#![tactic(auto)]

ghost use Rattle.std.specs.Prelude.{◌≡◌, ◌==◌, position};
ghost use Rattle.order.specs.Places.{FirstPlaces};
ghost use Rattle.order.specs.Changes.{join_order, leave_order};

use dispatcher::Dispatcher;

// For each slot the first place of the list at which it stands, or NONE: what was seen is marked, and no two places are compared.
// Places from SLOTS on are not looked at.
pub fn first_places(list: &[u16]) -> [u16; Dispatcher::SLOTS]
    ensures { FirstPlaces list.now result }
{
    let mut places = [Dispatcher::NONE; Dispatcher::SLOTS];
    let seen = &list[..list.len().min(Dispatcher::SLOTS)];
    for (i, slot) in seen.iter().enumerate().rev() {
        let slot = usize::from(*slot);
        if slot < Dispatcher::SLOTS {
            places[slot] = i as u16;
        }
    }
    places
}

// The first place that holds the slot.
fn place_in(order: &[u16; Dispatcher::SLOTS], slot: u16) -> Option<usize>
    ensures { result ≡ position (λ held. held == slot) order.now }
{
    order.iter().position(|held| *held == slot)
}

// The slot stands at the first unused place; where there is none, the order stays.
pub fn join(order: [u16; Dispatcher::SLOTS], slot: u16) -> [u16; Dispatcher::SLOTS]
    ensures { result ≡ join_order order slot }
{
    let mut next = order;
    if let Some(place) = place_in(&order, Dispatcher::NONE) {
        next[place] = slot;
    }
    next
}

// What stands after the slot moves up by one place; where the slot does not stand, the order stays.
pub fn leave(order: [u16; Dispatcher::SLOTS], slot: u16) -> [u16; Dispatcher::SLOTS]
    ensures { result ≡ leave_order order slot }
{
    let mut next = order;
    if let Some(place) = place_in(&order, slot) {
        next[place..Dispatcher::SLOTS - 1].copy_from_slice(&order[place + 1..]);
        next[Dispatcher::SLOTS - 1] = Dispatcher::NONE;
    }
    next
}
