//! A sequential object.

/// What stands under a lock: a state, which the value is, and calls that change it.
pub trait Object {
    type Call;

    type Reply;

    /// A call at a state may give this reply and leave this state.
    ghost step: { Self → Self.Call → Self.Reply → Self → Type 0 };

    /// At which states a call may be made.
    ghost allowed: { Self → Self.Call → Type 0 };

    fn apply(&mut self, call: Self::Call) -> Self::Reply
        requires { allowed self.old call }
        ensures { step self.old call result self.new };

    // what is allowed stays allowed
    ghost stays: { (x : Self) (c : Self.Call) (other : Self.Call) (r : Self.Reply) (y : Self)
        → allowed x c → step x other r y → allowed y c };
}
