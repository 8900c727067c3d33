// Where the states of a table have their actions, looked up once: a run asks for a place at every action.
ghost use Rattle.std.specs.Prelude.{◌≡◌, ℕ, ◌+◌, ◌-◌, ◌*◌, ◌<◌, length, get_or};
ghost use Rattle.lookups.specs.Places.{state_place};
ghost use Rattle.run.specs.Working.Index.{Indexed};

use crate::course::Course;

// Room for 8 states of 8 processes.
pub const PLACES: usize = 64;

// The places of all states.
pub fn places_of(table: &[u16]) -> [usize; PLACES]
    ensures { Indexed table.now result }
{
    let mut places = [0usize; PLACES];
    for (at, place) in places.iter_mut().enumerate() {
        let process = (at / 8) as u16 + 1;
        let state = (at % 8) as u16 + 1;
        *place = lookups::state_at(table, process, state);
    }
    places
}

impl Course<'_> {
    // Where state s of process p has its count of actions.
    pub fn place_of(&self, p: u16, s: u16) -> usize
        ensures { result ≡ state_place self.now.table.now p s }
    {
        if (1..=8).contains(&p) && (1..=8).contains(&s) {
            let row = usize::from(p) - 1;
            let column = usize::from(s) - 1;
            self.places[row * 8 + column]
        } else {
            lookups::state_at(self.table, p, s)
        }
    }
}
