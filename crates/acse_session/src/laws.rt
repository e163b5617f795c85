//! What holds of all sessions of a plan.
ghost use Rattle.acse_session.specs.Laws.{EqualAnswers};

/// The answers of a session are determined by its plan, by the APDUs that came and the wPorts that these came from, and by the steps that
/// were asked of the meter with their replies.
pub fn equal_answers()
    ensures { EqualAnswers }
{}
