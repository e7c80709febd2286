//! Laws of sessions. The functions do nothing; what their contracts say is proved.
ghost use Rattle.fix_session.specs.Again.{LinesAgainAreLines};
ghost use Rattle.fix_session.specs.SessionOut.{OutGoesOn, SessionsGoOn};

/// A report line again is the report line but for 43=Y after 34 and the time in 52, and so but for its length (9) and checksum (10):
/// all else is the same, byte for byte.
pub fn lines_again_are_lines()
    ensures { LinesAgainAreLines }
{}

/// Some messages and then some more are answered as the first, and then the others from the sessions after the first.
pub fn sessions_go_on()
    ensures out { OutGoesOn }
    ensures sessions { SessionsGoOn }
{}
