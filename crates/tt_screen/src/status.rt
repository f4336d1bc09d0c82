// How a run ended.
ghost use Rattle.std.specs.Prelude.{◌≡◌};
ghost use Rattle.tt_screen.specs.End.{message_of, number_of};

/// How a run of the program ended.
#[derive(Clone, Copy, Debug, PartialEq, Eq)]
pub enum Status {
    /// The bytes were read to their end, and the screen is shown.
    Done,
    /// The bytes could not be read on.
    ReadFault,
    /// The screen could not be shown.
    WriteFault,
    /// As many bytes were taken as a run takes.
    KeyLimit,
}

impl Status {
    /// The number that the process ends with.
    pub fn number(self) -> u8
        ensures { result ≡ number_of self }
    {
        match self {
            Status::Done => 0,
            Status::ReadFault => 4,
            Status::WriteFault => 5,
            Status::KeyLimit => 7,
        }
    }

    /// The message of the status, without the end of its line. It is empty where there is none.
    #[tactic(auto, unfolding(crate::specs::End::message_of))]
    pub fn message(self) -> &'static str
        ensures { result.now ≡ message_of self }
    {
        match self {
            Status::Done | Status::WriteFault => "",
            Status::ReadFault => "?Read fault",
            Status::KeyLimit => "?Too many keys",
        }
    }
}
