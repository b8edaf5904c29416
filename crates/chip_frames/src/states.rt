// The six states of a frame and the three fates, as enums made from the bytes of an image.
ghost use Rattle.std.specs.Prelude.{◌≡◌};
ghost use Rattle.chip_frames.specs.Frames.{settled_state, erased_state, cut_state, by_fate, unsettled_state};
ghost use Rattle.chip_frames.specs.Codes.{state_number, state_of, fate_number, fate_of};

// What the state byte of a frame says, in the order of its numbers.
#[derive(Clone, Copy, PartialEq, Eq, Debug)]
pub enum State {
    // settled
    Blank = 0,
    Held = 1,
    Torn = 2,
    // unsettled: held, was blank
    Programmed = 3,
    // unsettled: blank, was held
    HeldErased = 4,
    // unsettled: blank, was torn
    TornErased = 5,
}

// What a power cut makes of an unsettled page.
#[derive(Clone, Copy, PartialEq, Eq, Debug)]
pub enum Fate {
    // as it was before
    Old = 0,
    // as the call left it
    New = 1,
    // unreadable
    Torn = 2,
}

impl From<u8> for State {
    ghost from_gives = { λ b s. s ≡ state_of b };

    // A byte past the list counts as torn.
    fn from(byte: u8) -> State {
        match byte {
            0 => State::Blank,
            1 => State::Held,
            3 => State::Programmed,
            4 => State::HeldErased,
            5 => State::TornErased,
            _ => State::Torn,
        }
    }
}

impl From<u8> for Fate {
    ghost from_gives = { λ b f. f ≡ fate_of b };

    // Any other byte than 0 and 1 is torn.
    fn from(byte: u8) -> Fate {
        match byte {
            0 => Fate::Old,
            1 => Fate::New,
            _ => Fate::Torn,
        }
    }
}

impl State {
    // The state byte.
    pub fn number(self) -> u8
        ensures { result ≡ state_number self }
    {
        self as u8
    }

    // The state once the page is settled as it now reads.
    pub fn settled(self) -> State
        ensures { state_number result ≡ settled_state (state_number self) }
    {
        match self {
            State::Blank | State::HeldErased | State::TornErased => State::Blank,
            State::Held | State::Programmed => State::Held,
            State::Torn => State::Torn,
        }
    }

    // The state once the page is erased.
    pub fn erased(self) -> State
        ensures { state_number result ≡ erased_state (state_number self) }
    {
        match self {
            State::Blank => State::Blank,
            State::Held | State::HeldErased => State::HeldErased,
            State::Programmed => State::Programmed,
            State::Torn | State::TornErased => State::TornErased,
        }
    }

    // The state after a power cut.
    pub fn cut(self, fate: Fate) -> State
        ensures { state_number result ≡ cut_state (state_number self) (fate_number fate) }
    {
        match self {
            State::Blank | State::Held | State::Torn => self,
            State::Programmed => fate.of(State::Blank, State::Held),
            State::HeldErased => fate.of(State::Held, State::Blank),
            State::TornErased => fate.of(State::Torn, State::Blank),
        }
    }

    // Whether the page is unsettled.
    pub fn is_unsettled(self) -> bool
        ensures { result ≡ unsettled_state (state_number self) }
    {
        matches!(
            self,
            State::Programmed | State::HeldErased | State::TornErased
        )
    }
}

impl Fate {
    // The state from before, the new one, or torn.
    fn of(self, old: State, new: State) -> State
        ensures { state_number result ≡ by_fate (fate_number self) (state_number old) (state_number new) }
    {
        match self {
            Fate::Old => old,
            Fate::New => new,
            Fate::Torn => State::Torn,
        }
    }
}
