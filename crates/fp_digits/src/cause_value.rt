//! Cause values (ITU-T Q.850).

ghost use Rattle.std.specs.Prelude.{◌≡◌, ◌<◌};
ghost use Rattle.fp_digits.specs.Cause.{cause_value};

/// The causes of ITU-T Q.850 in use here, by their names and cause values (Q.850, 2.2.7).
#[derive(Clone, Copy, Debug, PartialEq, Eq)]
pub enum Cause {
    /// No. 3, no route to destination: the network does not serve the destination.
    NoRouteToDestination = 3,
    /// No. 17, user busy.
    UserBusy = 17,
    /// No. 19, no answer from user: the user was alerted and did not answer.
    NoAnswerFromUser = 19,
    /// No. 21, call rejected.
    CallRejected = 21,
}

impl Cause {
    /// The cause value of Q.850, below 128.
    pub fn code(self) -> u8
        ensures value { result ≡ cause_value self }
        ensures range { result < 128 }
    {
        self as u8
    }
}
