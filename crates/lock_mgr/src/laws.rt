// What the definitions of victims say.
ghost use Rattle.lock_mgr.specs.Deadlock.{VictimsAreSettled};

/// The waits and the asking transaction settle the victims: no two lists are both right.
pub fn victims_are_settled()
    ensures { VictimsAreSettled }
{}
