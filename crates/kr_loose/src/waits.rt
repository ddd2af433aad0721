//! Laws of calls that can wait, each carried by a function that does nothing.
ghost use Rattle.kr_loose.specs.WaitingCalls.{WaitingCallsHaveNoPath, WaitsLeaveAll};

/// A call that can wait has no path, and is read off its caller's registers alone.
pub fn waiting_calls_have_no_path()
    ensures { WaitingCallsHaveNoPath }
{}

/// Where no byte is marked, a call that comes to wait leaves all but that its caller stays at it.
pub fn waits_leave_all()
    ensures { WaitsLeaveAll }
{}
