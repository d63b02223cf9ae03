// What becomes of a reservation.
ghost use Rattle.std.specs.Prelude.{◌≡◌};
ghost use Rattle.meaning.specs.Fates.{next};

#[derive(Clone, Copy, Debug, PartialEq, Eq)]
pub enum Fate {
    Live,
    Posted,
    Voided,
    Lapsed,
}

// What can happen to a reservation.
#[derive(Clone, Copy, Debug, PartialEq, Eq)]
pub enum Event {
    Post,
    Void,
    Lapse,
}

impl Fate {
    // Only a live reservation changes; every resolved fate stays.
    pub fn meet(&mut self, event: Event)
        ensures { self.new ≡ next self.old event }
    {
        *self = match (*self, event) {
            (Fate::Live, Event::Post) => Fate::Posted,
            (Fate::Live, Event::Void) => Fate::Voided,
            (Fate::Live, Event::Lapse) => Fate::Lapsed,
            (resolved, _) => resolved,
        };
    }
}
