// Why a call is refused, the registry as it was.
ghost use Rattle.std.specs.Prelude.{◌≡◌};
ghost use Rattle.registry.specs.Answers.{number_of};

#[derive(Clone, Copy)]
pub enum Refusal {
    InvalidRecord = 89, // the record is not valid
    BadSize = 90, // a text is empty or too long
    NotOpen = 91, // the run is not open
    OtherSession = 92, // another session holds the destination
    NoPlace = 93, // the destination is new, and the run's places are all taken
    AlreadyOpen = 94, // the run is open
    FourOpen = 95, // four runs are open
}

impl Refusal {
    // Its number.
    pub fn number(self) -> u32
        ensures { result ≡ number_of self }
    {
        self as u32
    }
}
