//! Arrows by their sources.
ghost use Rattle.std.specs.Prelude.{◌≡◌, ◌<◌, length, IfOk};
ghost use Rattle.label_certificate.specs.Chains.{AreChained, before};
ghost use Rattle.label_certificate.specs.Closing.{AreArrows};

use crate::arrows::Arrows;
use cosem_data::memory::Memory;
use std::alloc::Global;

/// Leads from each source to the last of its arrows in a list, and from each arrow to the one before it that has the same
/// source, all by their places in the list, counted from 0.
#[derive(Drop)]
pub(crate) struct Chains {
    /// The last arrow of each source.
    pub(crate) lasts: Vec<Option<usize>>,
    /// The arrow of the same source before each arrow; the first of a source leads to itself, which takes half the memory of an
    /// option.
    pub(crate) earlier: Vec<usize>,
}

impl Chains {
    /// The chains of arrows between this many sets. The only error is want of memory.
    pub(crate) fn new(alloc: Global, arrows: &Arrows<'_>, sets: usize) -> Result<Chains, Memory>
        requires { AreArrows sets arrows.now }
        ensures chained { IfOk result
            (λ chains. AreChained arrows.now chains.lasts.items chains.earlier.items) }
        ensures lasts { IfOk result (λ chains. length chains.lasts.items ≡ sets) }
        ensures earlier { IfOk result (λ chains. length chains.earlier.items ≡ length arrows.now) }
    {
        let mut lasts = vec![in alloc; None; sets]?;
        let mut earlier = Vec::with_capacity(alloc, arrows.len())?;
        for number in 0..arrows.len() {
            let arrow = arrows.at(number);
            earlier.push(lasts[arrow.from].unwrap_or(number))?;
            lasts[arrow.from] = Some(number);
        }
        Ok(Chains { lasts, earlier })
    }

    /// The arrow of the same source before this one, if one is.
    pub(crate) fn before(&self, number: usize) -> Option<usize>
        requires { number < length self.now.earlier.items }
        ensures { result ≡ before self.now.earlier.items number }
    {
        let earlier = self.earlier[number];
        if earlier == number {
            None
        } else {
            Some(earlier)
        }
    }
}
