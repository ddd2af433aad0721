//! Laws of what is open and of places, each carried by a function that does nothing.
ghost use Rattle.law_beside.specs.Opened.{NodesStay, OthersStayOpen};

/// What a process has open stays open while others call.
pub fn others_stay_open()
    ensures { OthersStayOpen }
{}

/// Places stay inodes behind calls whose walks look up no name in the process directory.
pub fn nodes_stay()
    ensures { NodesStay }
{}
