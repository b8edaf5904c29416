// What a sweep counts.
use crate::judge::{CutCall, Verdict};
use std::io;

#[derive(Clone, Copy, Default)]
pub(super) struct Totals {
    // where the fuse was spent, from 0 chip calls on
    positions: u32,
    // those of them in the form
    in_form: u32,
    cuts: u32,
    reads: u32,
    // answers that broke the law
    broken: u32,
    // cuts by what became of the call in which power failed
    counted: u32,
    not_counted: u32,
    untold: u32,
}

impl Totals {
    pub(super) fn add_position(&mut self) {
        self.positions = self.positions.saturating_add(1);
    }

    pub(super) fn add_in_form(&mut self) {
        self.in_form = self.in_form.saturating_add(1);
    }

    pub(super) fn add_cut(&mut self, verdict: Verdict) {
        self.cuts = self.cuts.saturating_add(1);
        self.reads = self.reads.saturating_add(verdict.reads);
        self.broken = self.broken.saturating_add(verdict.broken);
        match verdict.cut_call {
            CutCall::Counted => self.counted = self.counted.saturating_add(1),
            CutCall::NotCounted => self.not_counted = self.not_counted.saturating_add(1),
            CutCall::Untold => self.untold = self.untold.saturating_add(1),
        }
    }

    pub(super) fn say(&self, rt: &impl Print) -> io::Result<()> {
        let Totals {
            positions,
            in_form,
            cuts,
            reads,
            broken,
            counted,
            not_counted,
            untold,
        } = *self;
        println!(rt;
            "The call in which power failed: it counted after {counted} cuts and did not after {not_counted}; the reads fit both after {untold}."
        )?;
        println!(rt;
            "{positions} positions ({in_form} in the form), {cuts} cuts, {reads} reads checked, {broken} answers that broke the law"
        )
    }
}
