//! What holds of the answers of this server.
ghost use Rattle.std.specs.Prelude.{◌≡◌, ◌^◌, ◌<◌, ℕ, Ok, Err};
ghost use Rattle.acse_association.specs.Answers.{aare_bytes, rlre_bytes, number_of};
ghost use Rattle.acse_association.specs.declared.association.Association.{Association};
ghost use Rattle.acse_association.specs.declared.diagnostic.Diagnostic.{Diagnostic};
ghost use Rattle.tcp_wrapper.specs.Stream.{framed};
ghost use Rattle.peer_watch.specs.Frames.{answer_in};
ghost use Rattle.peer_watch.specs.declared.answers.Answer.TheVariants.{Associated, Refused, Released};

/// What an answer of this server says of the association is found in its frame.
pub fn answers_are_understood()
    ensures associated { (client : ℕ) (association : Association) → client < 2 ^ 16 →
        answer_in (framed 1 client (aare_bytes (Ok association))) ≡ Associated client }
    ensures refused { (client : ℕ) (diagnostic : Diagnostic) → client < 2 ^ 16 →
        answer_in (framed 1 client (aare_bytes (Err diagnostic))) ≡ Refused client (number_of diagnostic) }
    ensures released { (client : ℕ) → answer_in (framed 1 client rlre_bytes) ≡ Released }
{}
