//! Why a line of a history is no call.

ghost use Rattle.std.specs.Prelude.{◌≡◌};
ghost use Rattle.judge_text.specs.Faults.{fault_name};

/// Why a line of a history is no call.
#[derive(Clone, Copy, Debug, PartialEq, Eq)]
pub enum CallFault {
    /// There are fewer than six words, or the last but one is no `->`.
    BadCall,
    /// CLIENT, BEGIN or END is no number in its range.
    BadNumber,
    /// OPERATION is none of the object.
    BadOperation,
    /// REPLY is none of the object.
    BadReply,
    /// The call is completed, and REPLY is `?`.
    HalfCall,
}

impl CallFault {
    /// The name of the fault.
    pub fn name(self) -> &'static str
        ensures { result.now ≡ fault_name self }
    {
        match self {
            CallFault::BadCall => "bad-call",
            CallFault::BadNumber => "bad-number",
            CallFault::BadOperation => "bad-operation",
            CallFault::BadReply => "bad-reply",
            CallFault::HalfCall => "half-call",
        }
    }
}
