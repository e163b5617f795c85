//! A caller of what reads values.
ghost use Rattle.std.specs.Prelude.{◌≡◌, ◌≢◌, ◌≤◌, ◌++◌, List, ℕ, drop, length, take, IfErr, IfOk, MatchResult};
ghost use Rattle.cosem_axdr.specs.Grammar.{BeginsWith, BeginsWithNone, IsEncoding};
ghost use Rattle.cosem_axdr.specs.Laws.{IsFirstFault};
ghost use Rattle.cosem_data.specs.Tree.{Tree, depth};
ghost use Rattle.cosem_data.specs.View.{tree};

use cosem_axdr::fault::ReadFault;
use cosem_axdr::reading::read_data;
use cosem_data::data::Data;
use std::alloc::Global;

/// The value whose encoding stands in front of bytes, and how many bytes that has; where none is there the fault is the first from
/// the left.
pub fn value_in_front(alloc: Global, bytes: &[u8]) -> Result<(Data, usize), ReadFault>
    ensures found { IfOk result (λ x. BeginsWith bytes.now (tree x.0) (drop x.1 bytes.now)
        × IsEncoding (tree x.0) (take x.1 bytes.now)) }
    ensures only { (t : Tree) (front rest : List ℕ) → IsEncoding t front → depth t ≤ 16 →
        bytes.now ≡ front ++ rest → MatchResult result (λ x. (tree x.0 ≡ t) × (x.1 ≡ length front))
        (λ e. e ≡ ReadFault.Memory) }
    ensures none { IfErr result (λ e. e ≢ ReadFault.Memory → BeginsWithNone bytes.now) }
    ensures first { IfErr result (IsFirstFault bytes.now) }
{
    read_data(alloc, bytes)
}
