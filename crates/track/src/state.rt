// A track's state.
ghost use Rattle.std.specs.Prelude.{◌≡◌};
ghost use Rattle.track.specs.State.{flag_of, partner_of, is_bad, is_moved, is_taken, is_taken_by_other};

use geometry::params::Track;

// The state that a format gives a track.
#[derive(Clone, Copy)]
pub enum State {
    Sound,
    Bad,
    Moved(Track),
    Taken(Track),
}

#[tactic(auto, unfolding(crate::specs::State::flag_of, crate::specs::State::partner_of, crate::specs::State::is_bad, crate::specs::State::is_moved, crate::specs::State::is_taken, crate::specs::State::is_taken_by_other))]
impl State {
    pub fn flag(self) -> u8
        ensures { result ≡ flag_of self }
    {
        match self {
            State::Sound => 0,
            State::Bad => 1,
            State::Moved(_) => 2,
            State::Taken(_) => 3,
        }
    }

    pub fn partner(self) -> Track
        ensures { result ≡ partner_of self }
    {
        match self {
            State::Sound | State::Bad => Track::first(),
            State::Moved(partner) | State::Taken(partner) => partner,
        }
    }

    pub fn is_bad(self) -> bool
        ensures { result ≡ is_bad self }
    {
        matches!(self, State::Bad)
    }

    pub fn is_moved(self) -> bool
        ensures { result ≡ is_moved self }
    {
        matches!(self, State::Moved(_))
    }

    pub fn is_taken(self) -> bool
        ensures { result ≡ is_taken self }
    {
        matches!(self, State::Taken(_))
    }

    // Taken by another track than t.
    pub fn is_taken_by_other(self, t: Track) -> bool
        ensures { result ≡ is_taken_by_other t self }
    {
        matches!(self, State::Taken(partner) if partner != t)
    }
}
