// The alarms that are recorded.

// An alarm: its number, which goes into a page's note, and its text.
pub(super) struct Alarm {
    pub number: u32,
    pub text: &'static str,
}

pub(super) const ONE: Alarm = Alarm {
    number: 1,
    text: "21:40 front door",
};

pub(super) const TWO: Alarm = Alarm {
    number: 2,
    text: "22:15 yard gate",
};

pub(super) const THREE: Alarm = Alarm {
    number: 3,
    text: "23:02 front door",
};

pub(super) const FOUR: Alarm = Alarm {
    number: 4,
    text: "01:12 back door",
};

pub(super) const FIVE: Alarm = Alarm {
    number: 5,
    text: "02:47 skylight",
};

pub(super) const SIX: Alarm = Alarm {
    number: 6,
    text: "04:31 back door",
};
