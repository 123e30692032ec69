// For each local or label, the place where it was last seen.
ghost use Rattle.std.specs.Prelude.{◌≡◌, replicate, None, slice_index_or};
ghost use Rattle.admission.specs.Seen.{noted};

use script::{MOST_LOCALS, Pos};

// There can be more locals than labels. An array, since there is no heap for a map.
#[derive(Clone, Copy, PartialEq, Eq, Debug)]
pub(crate) struct Latest {
    places: [Option<Pos>; MOST_LOCALS],
}

impl Latest {
    // Nothing was seen yet.
    pub fn new() -> Latest
        ensures { result.places ≡ replicate 64 None }
    {
        Latest {
            places: [None; MOST_LOCALS],
        }
    }

    pub fn of(&self, name: u8) -> Option<Pos>
        ensures { result ≡ slice_index_or self.now.places name None }
    {
        self.places.get(usize::from(name)).copied().flatten()
    }

    // A name, if there is one, is seen at a place. No script has a name past the end of the table. By index, since `get_mut`
    // says nothing of what the slice ends as.
    pub fn see(&mut self, name: Option<u8>, place: Pos)
        ensures { self.new.places ≡ noted self.old.places name place }
    {
        let Some(name) = name.map(usize::from) else {
            return;
        };
        if name < MOST_LOCALS {
            self.places[name] = Some(place);
        }
    }
}
