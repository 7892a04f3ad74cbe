//! Hints: the modules at which something may have changed.
ghost use Rattle.std.specs.Prelude.{◌≡◌, ◌<◌, [], length, slice_index_or};

use flow_word::List;
use module_sets::{Mask, ModuleSet};
use std::marker::Model;

/// For each module those beside it, and the hinted modules: those at which something may have changed.
///
/// Contracts see the masks of the modules beside each. Hints only say where to look first.
pub struct Hints {
    beside: List<List<Mask>>,
    hinted: ModuleSet,
}

impl Drop for Hints {
    fn drop(self) {
        let Hints {
            beside: _beside,
            hinted: _hinted,
        } = self;
    }
}

impl Model for Hints {
    ghost use Rattle.std.specs.Prelude.{List};
    ghost use Rattle.module_sets.specs.{Mask};

    ghost Value = { List (List Mask) };

    ghost view = { λ hints. hints.beside };
}

impl Hints {
    /// Hints with the masks of the modules beside each module, and the modules that are hinted at the beginning.
    pub fn new(beside: List<List<Mask>>, hinted: ModuleSet) -> Hints
        ensures { result ≡ beside }
    {
        Hints { beside, hinted }
    }

    /// The masks of the modules beside the given one.
    #[inline(always)]
    pub fn beside(&self, owner: u32) -> &[Mask]
        requires { owner < length self.now }
        ensures { result.now ≡ slice_index_or self.now owner [] }
    {
        self.beside.as_slice()[owner as usize].as_slice()
    }

    /// Takes all hints away.
    pub fn clear(&mut self)
        ensures { self.new ≡ self.old }
    {
        self.hinted.clear();
    }

    /// Hints a module.
    #[inline(always)]
    pub fn hint(&mut self, owner: u32)
        ensures { self.new ≡ self.old }
    {
        self.hinted.add(owner);
    }

    /// Hints the modules beside the given one.
    #[inline(always)]
    pub fn hint_beside(&mut self, owner: u32)
        ensures { self.new ≡ self.old }
    {
        if let Some(masks) = self.beside.as_slice().get(owner as usize) {
            self.hinted.add_masks(masks.as_slice());
        }
    }

    /// Takes the hint of the first hinted module from this number on, or else from 0 on, and answers the module. `None` where no
    /// module is hinted.
    #[inline(always)]
    pub(crate) fn take_from(&mut self, from: u32) -> Option<u32>
        ensures { self.new ≡ self.old }
    {
        let next = match self.hinted.first_from(from) {
            Some(next) => next,
            None => self.hinted.first_from(0)?,
        };
        self.hinted.remove(next);
        Some(next)
    }
}
