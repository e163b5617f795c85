//! What holds of all streams of frames.
ghost use Rattle.std.specs.Prelude.{◌≡◌, List, ℕ};
ghost use Rattle.tcp_wrapper.specs.Stream.{Splits, Ends};
ghost use Rattle.tcp_wrapper.specs.declared.message.Message.{Message};

/// The frames of a stream are determined by its bytes, and so is what stands behind them: so it doesn't matter how the stream was cut.
pub fn one_reading()
    ensures { (stream : List ℕ) (frames others : List Message) (rest more : List ℕ) →
        Splits stream frames rest → Splits stream others more → Ends rest → Ends more →
        (frames ≡ others) × (rest ≡ more) }
{}
