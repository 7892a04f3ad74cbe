//! Going round the modules.
ghost use Rattle.std.specs.Prelude.{◌≡◌, ℕ, ◌<◌, ◌≤◌, ◌⊎◌, IfSome, IsNone, false, true};
ghost use Rattle.engine_view.specs.{IsNext, IsPassed, GoesRound, turns_left};

use crate::hints::Hints;
use std::marker::Model;

/// Goes round the modules until it has passed them all without anything being done.
///
/// Contracts see the module at which it stands, and which modules count as idle: those that it has passed since something was last
/// done. It may go to a hinted module first, and then takes the hint away. Between two actions it does so at most once for each
/// module.
#[derive(Drop)]
pub struct Cursor {
    count: u32,
    at: u32,
    idle: u32,
    jumps: u32,
}

impl Model for Cursor {
    ghost use Rattle.std.specs.Prelude.{◌<◌, ◌≤◌};
    ghost use Rattle.engine_view.specs.Cursors.{CursorView};

    ghost Value = { CursorView };

    ghost view = { λ c. record { count = c.count; at = c.at; idle = c.idle; jumps = c.jumps } };

    ghost invariant = { λ c. (c.idle ≤ c.count) × (0 < c.count → c.at < c.count) };
}

impl Cursor {
    /// A cursor at the first of `count` modules. No module counts as idle.
    #[inline(always)]
    pub fn new(count: u32) -> Cursor
        ensures count { result.count ≡ count }
        ensures at { result.at ≡ 0 }
        ensures idle { (m : ℕ) → IsPassed result m → ⊥ }
    {
        Cursor {
            count,
            at: 0,
            idle: 0,
            jumps: count,
        }
    }

    /// The module at which the cursor stands. `None` where all modules count as idle.
    #[inline(always)]
    pub fn at(&self) -> Option<u32>
        ensures next { IfSome result (λ m. IsNext self.now m) }
        ensures all { IsNone result → (m : ℕ) → m < self.now.count → IsPassed self.now m }
    {
        if self.idle < self.count {
            Some(self.at)
        } else {
            None
        }
    }

    /// Tells the cursor that something was done: no module counts as idle any more. It stays at its module.
    #[inline(always)]
    pub fn acted(&mut self)
        ensures count { self.new.count ≡ self.old.count }
        ensures idle { (m : ℕ) → IsPassed self.new m → ⊥ }
        ensures stays { self.new.at ≡ self.old.at }
        ensures less { (before after : ℕ) → after < before → turns_left after self.new < turns_left before self.old }
    {
        self.idle = 0;
        self.jumps = self.count;
    }

    /// Tells the cursor that nothing can be done at its module. It goes to the next module.
    #[inline(always)]
    pub fn passed(&mut self)
        requires { self.old.idle < self.old.count }
        ensures count { self.new.count ≡ self.old.count }
        ensures idle { (m : ℕ) → IsPassed self.new m → (m ≡ self.old.at) ⊎ IsPassed self.old m }
        ensures round { GoesRound self.old self.new }
        ensures less { (actions : ℕ) → turns_left actions self.new < turns_left actions self.old }
    {
        self.idle += 1;
        self.at = if self.at + 1 < self.count {
            self.at + 1
        } else {
            0
        };
    }

    /// Tells the cursor that nothing can be done at its module. It goes to the next hinted module, or, where there is none, to the
    /// next module.
    #[inline(always)]
    pub fn passed_by(&mut self, hints: &mut Hints)
        requires { self.old.idle < self.old.count }
        ensures count { self.new.count ≡ self.old.count }
        ensures idle { (m : ℕ) → IsPassed self.new m → (m ≡ self.old.at) ⊎ IsPassed self.old m }
        ensures less { (actions : ℕ) → turns_left actions self.new < turns_left actions self.old }
        ensures hints { hints.new ≡ hints.old }
    {
        if !self.jump(hints) {
            self.passed();
        }
    }

    /// Goes to the next hinted module. Returns whether there was one. No module counts as idle by this.
    #[inline(always)]
    pub fn jump(&mut self, hints: &mut Hints) -> bool
        requires { 0 < self.old.count }
        ensures count { self.new.count ≡ self.old.count }
        ensures idle { (m : ℕ) → IsPassed self.new m → IsPassed self.old m }
        ensures stays { result ≡ false → self.new ≡ self.old }
        ensures no_more { (actions : ℕ) → turns_left actions self.new ≤ turns_left actions self.old }
        ensures less { result ≡ true → (actions : ℕ) → turns_left actions self.new < turns_left actions self.old }
        ensures hints { hints.new ≡ hints.old }
    {
        if self.jumps == 0 {
            return false;
        }
        match hints.take_from(self.at + 1) {
            Some(next) if next < self.count => {
                self.idle = 0;
                self.at = next;
                self.jumps -= 1;
                true
            }
            Some(_) | None => false,
        }
    }
}
