//! The law of lines again. Its function does nothing: what is proved is what its contract says.
ghost use Rattle.order_kinds.specs.Histories.{History, AreOfTexts};
ghost use Rattle.stream_laws.specs.Repeats.{RepeatsReports};

/// Whatever range of lines is sent again out of a history, the bytes are some of its reports, in their order, each as it was but for
/// 43=Y after 34 and the time in 52, and so but for its length (9) and checksum (10).
pub fn resends_repeat_reports()
    ensures { (kept : History) → AreOfTexts kept → RepeatsReports kept }
{}
