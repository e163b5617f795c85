//! What holds of all lists of verdicts.
ghost use Rattle.fleet_audit.specs.Laws.{EqualAudits, JoinedAudits, SplitAudits};

/// The verdicts on joined lists of texts are the joined verdicts on each list, and can be cut where the texts are. So texts may
/// be judged part by part, anywhere, and the lists of verdicts joined in the order of the parts.
pub fn audits_are_joined()
    ensures joined { JoinedAudits }
    ensures cut { SplitAudits }
{
    // The proof is the function's contract.
}

/// Two lists of verdicts on equal texts have the same lines, where neither says that memory was refused. So what is printed
/// depends on neither the number of workers nor their schedule.
pub fn equal_texts_have_equal_verdicts()
    ensures { EqualAudits }
{
    // The proof is the function's contract.
}
