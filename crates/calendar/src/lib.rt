// Days and moments (document 01, "Units").
#![tactic(auto)]

ghost use Rattle.std.specs.Prelude.{◌≡◌};
ghost use Rattle.calendar.specs.Time.{is_day, is_received_day, is_moment, day_of};

const SECONDS_PER_DAY: u64 = 86_400;

// A day, counted from day 0. Never taken for a moment.
#[derive(Clone, Copy, PartialEq, Eq, PartialOrd, Ord)]
pub struct Day(pub u64);

impl Day {
    pub const LAST: Day = Day(65_000);
    // The last day on which a notice can be received.
    pub const LAST_RECEIVED: Day = Day(60_000);

    pub fn in_range(self) -> bool
        ensures { result ≡ is_day self }
    {
        self <= Day::LAST
    }

    // One comparison, as plain as a call with the last day would be.
    pub fn can_be_received(self) -> bool
        ensures { result ≡ is_received_day self }
    {
        self <= Day::LAST_RECEIVED
    }
}

// A moment in seconds, day 0 beginning at moment 0. Never taken for a day.
#[derive(Clone, Copy, PartialEq, Eq, PartialOrd, Ord)]
pub struct Moment(pub u64);

impl Moment {
    // The first moment past the last day.
    pub const END: Moment = Moment(5_616_086_400);

    pub fn in_range(self) -> bool
        ensures { result ≡ is_moment self }
    {
        self < Moment::END
    }

    pub fn day(self) -> Day
        ensures { result ≡ day_of self }
    {
        Day(self.0 / SECONDS_PER_DAY)
    }
}
