ghost use Rattle.std.specs.Prelude.{◌≡◌};
ghost use Rattle.gs_respond.specs.Rests.{is_at_rest};

/// Why a responder stopped.
#[derive(Clone, Copy, Debug, PartialEq, Eq)]
pub enum Rest {
    /// It has not stopped.
    Open,
    /// The door had ended.
    Ended,
    /// The board was closed, and the last item was a quiet mark.
    Quiet,
    /// The board was closed, and 64 datagrams had come since it was last looked at.
    Many,
    /// The view clock failed, and a request is owed its reply.
    Clock,
    /// The door failed.
    Door,
    /// It was run again while it owed a reply.
    Owing,
}

impl Rest {
    /// Whether a run that was done may end so: the door gave no more, and nothing failed.
    pub fn is_at_rest(self) -> bool
        ensures { result ≡ is_at_rest self }
    {
        match self {
            Rest::Ended | Rest::Quiet | Rest::Many => true,
            Rest::Open | Rest::Clock | Rest::Door | Rest::Owing => false,
        }
    }
}
