//! What a walk over a document reports to, where it comes to a place that does not fit.
ghost use Rattle.std.specs.Prelude.{◌≡◌, false, [], IfOk};
ghost use Rattle.std.specs.Fmt.{decimal};
ghost use Rattle.toml_edit_fits.specs.MisfitViews.{TrailTells, misfit_view};
ghost use Rattle.toml_edit_fits.specs.Misfits.{MisfitView, below_key, below_step};

use crate::misfit::{FitRule, Misfit};
use std::alloc::{AllocError, Global};
use toml_edit_key::Key;
use toml_edit_repr::Mem;

/// A report of the first place that does not fit.
///
/// The walk that comes to the place reports the rule, and then each walk around it one step of the
/// path, the last step first. No call has an error, so that one walk serves for reports that take
/// memory and for those that take none: a report that runs out of memory remembers that.
pub(crate) trait Report {
    // The place that is reported, below the item that was walked over last.
    ghost tells: { Self → MisfitView → Type 0 };

    /// Reports that the rule is broken by the item itself.
    fn report_rule(&mut self, rule: FitRule)
        ensures { tells self.new (record { path = []; rule = rule }) };

    /// Reports that the item with the place is under the key.
    fn report_key(&mut self, key: &Key)
        ensures { (place : MisfitView) → tells self.old place
            → tells self.new (below_step key.now.name place) };

    /// Reports that the item with the place has this number in its array.
    fn report_element(&mut self, number: usize)
        ensures { (place : MisfitView) → tells self.old place
            → tells self.new (below_step (decimal number) place) };

    /// Returns `fits`, and reports that the rule is broken by the item itself if that is `false`.
    final fn check(&mut self, fits: bool, rule: FitRule) -> bool
    where
        Self: Sized,
        ensures passes { result ≡ fits }
        ensures reports { fits ≡ false → tells self.new (record { path = []; rule = rule }) }
    {
        if !fits {
            self.report_rule(rule);
        }
        fits
    }
}

/// A report that keeps nothing and takes no memory: the walk itself says whether all fits.
#[derive(Drop)]
pub(crate) struct Silent;

impl Report for Silent {
    ghost tells = { λ _ _. Unit {0} };

    fn report_rule(&mut self, _rule: FitRule) {}

    fn report_key(&mut self, _key: &Key) {}

    fn report_element(&mut self, _number: usize) {}
}

/// A report that keeps the rule and the path.
#[derive(Drop)]
pub(crate) struct Trail {
    alloc: Global,
    // The steps of the path, the last one first.
    steps: Vec<Key>,
    rule: FitRule,
    // Memory ran out, so a step is missing.
    refused: bool,
}

impl Trail {
    /// Returns a report of nothing yet.
    pub(crate) fn new(alloc: Global) -> Trail {
        Trail {
            alloc,
            steps: Vec::new(alloc),
            rule: FitRule::Decor,
            refused: false,
        }
    }

    /// Adds a step before the path.
    fn add(&mut self, step: Key)
        ensures { (place : MisfitView) → TrailTells self.old place
            → TrailTells self.new (below_key step place) }
    {
        if self.steps.push(step).is_err() {
            self.refused = true;
        }
    }

    /// Returns the place that was reported, with its path in order.
    pub(crate) fn into_misfit(self) -> Mem<Misfit>
        ensures { IfOk result
            (λ misfit. (place : MisfitView) → TrailTells self place → misfit_view misfit ≡ place) }
    {
        let Trail {
            alloc: _,
            steps,
            rule,
            refused,
        } = self;
        if refused {
            drop(steps);
            return Err(AllocError);
        }
        let mut path = steps;
        path.reverse();
        Ok(Misfit { path, rule })
    }
}

impl Report for Trail {
    ghost tells = { TrailTells };

    fn report_rule(&mut self, rule: FitRule) {
        self.steps.clear();
        self.rule = rule;
    }

    // Not a part of the frames of the walk, which recur.
    #[inline(never)]
    fn report_key(&mut self, key: &Key) {
        match Key::from_text(self.alloc, key.get()) {
            Ok(step) => self.add(step),
            Err(_) => self.refused = true,
        }
    }

    #[inline(never)]
    fn report_element(&mut self, number: usize) {
        match number.to_string(self.alloc) {
            Ok(digits) => self.add(Key::new(digits)),
            Err(_) => self.refused = true,
        }
    }
}
