// Sets of cores as masks: bit k for core k.
#![tactic(auto)]

ghost use Rattle.std.specs.Prelude.{◌≡◌};
ghost use Rattle.laws.specs.Decides.{Decides};
ghost use Rattle.masks.specs.Masks.{has, NamesMissing, Added, NextCore};

// The bits of a mask, and so the most cores that a mask can name.
pub const WIDTH: usize = 32;

// The bits of the widest set; a mask is widened to it.
pub const SET_WIDTH: usize = 64;

// Whether the set has the core.
pub fn has(set: u64, core: usize) -> bool
    ensures { result ≡ has set core }
{
    core < SET_WIDTH && (set >> core) % 2 == 1
}

// Whether the set names a core at or above the count.
pub fn names_missing(set: u64, count: u8) -> bool
    ensures { Decides (NamesMissing count set) result }
{
    usize::from(count) < SET_WIDTH && (set >> count) != 0
}

// The mask with the core in it; a core that no mask has is left out.
pub fn add(mask: u32, core: usize) -> u32
    ensures { Added mask core result }
{
    if core < WIDTH {
        mask | (1 << core)
    } else {
        mask
    }
}

// The lowest core that the mask has and `marked` has not, or WIDTH.
pub fn next_core(mask: u32, marked: u32) -> usize
    ensures { NextCore mask marked result }
{
    (mask & !marked).trailing_zeros() as usize
}
