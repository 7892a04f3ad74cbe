//! A set of modules.
ghost use Rattle.std.specs.Prelude.{◌≡◌, ◌↔◌, ℕ, ◌*◌, ◌<◌, ◌≤◌, [], ◌∷◌, false, true, length, IfOk, IfSome, IsNone};
ghost use Rattle.module_sets.specs.{Has, HasMask, IsAdded, IsRemoved, IsJoined, IsFirstFrom, capacity};

use crate::mask::Mask;
use crate::word::first_bit;
use flow_word::{List, OutOfMemory};
use std::alloc::Global;
use std::marker::Model;

/// A set of modules, with room for numbers below its capacity. Contracts see its words, of 64 modules each.
#[derive(Drop)]
pub struct ModuleSet {
    words: Vec<u64>,
}

impl Model for ModuleSet {
    ghost use Rattle.std.specs.Prelude.{ℕ, List, ◌^◌, ◌≤◌, length};

    ghost Value = { List ℕ };

    ghost view = { λ set. set.words.items };

    ghost invariant = { λ set. length set.words.items ≤ 2 ^ 26 };
}

impl ModuleSet {
    /// An empty set with room for `count` modules or more. `OutOfMemory` where memory ran out.
    pub fn new(alloc: Global, count: u32) -> Result<ModuleSet, OutOfMemory>
        ensures room { IfOk result (λ set. count ≤ capacity set) }
        ensures empty { IfOk result (λ set. (n : ℕ) → Has set n → ⊥) }
    {
        let words = vec![in alloc; 0u64; (count / 64 + 1) as usize]?;
        Ok(ModuleSet { words })
    }

    /// Whether the module is in the set.
    #[inline(always)]
    pub fn has(&self, member: u32) -> bool
        ensures some { result ≡ true → Has self.now member }
        ensures none { result ≡ false → Has self.now member → ⊥ }
    {
        let word = (member / 64) as usize;
        word < self.words.len() && (self.words[word] >> (member % 64)) % 2 == 1
    }

    /// Adds a module. Nothing changes where there is no room for it.
    #[inline(always)]
    pub fn add(&mut self, member: u32)
        ensures { IsAdded self.old member self.new }
    {
        self.add_mask(Mask {
            word: member / 64,
            bits: 1 << (member % 64),
        });
    }

    /// Adds the modules of these masks, as far as there is room for them.
    #[inline(always)]
    pub fn add_masks(&mut self, masks: &[Mask])
        ensures { IsJoined self.old masks.now self.new }
    {
        for mask in masks {
            self.add_mask(*mask);
        }
    }

    /// Adds the modules of a mask, as far as there is room for them.
    #[inline(always)]
    fn add_mask(&mut self, mask: Mask)
        ensures { IsJoined self.old (mask ∷ []) self.new }
    {
        let word = mask.word as usize;
        if word < self.words.len() {
            self.words[word] |= mask.bits;
        }
    }

    /// Removes a module. Nothing changes where it is not in the set.
    #[inline(always)]
    pub fn remove(&mut self, member: u32)
        ensures { IsRemoved self.old member self.new }
    {
        let word = (member / 64) as usize;
        if word < self.words.len() {
            self.words[word] &= !(1 << (member % 64));
        }
    }

    /// Removes all modules.
    pub fn clear(&mut self)
        ensures room { length self.new ≡ length self.old }
        ensures empty { (n : ℕ) → Has self.new n → ⊥ }
    {
        self.words.fill(0);
    }

    /// Adds all modules for which there is room.
    pub fn fill(&mut self)
        ensures room { length self.new ≡ length self.old }
        ensures full { (n : ℕ) → n < capacity self.new → Has self.new n }
    {
        self.words.fill(u64::MAX);
    }

    /// The first module of the set from number `from` on. `None` where there is none.
    pub fn first_from(&self, from: u32) -> Option<u32>
        ensures first { IfSome result (λ m. IsFirstFrom self.now from m) }
        ensures none { IsNone result → (n : ℕ) → from ≤ n → Has self.now n → ⊥ }
    {
        let word = from / 64;
        if word as usize >= self.words.len() {
            return None;
        }
        match first_bit(self.words[word as usize], from % 64) {
            Some(bit) => Some(64 * word + bit),
            None => self.first_after(word + 1),
        }
    }

    /// The first module of the set from number `64 * first` on. `None` where there is none.
    fn first_after(&self, first: u32) -> Option<u32>
        ensures first { IfSome result (λ m. IsFirstFrom self.now (64 * first) m) }
        ensures none { IsNone result → (n : ℕ) → 64 * first ≤ n → Has self.now n → ⊥ }
    {
        for word in first..self.words.len() as u32 {
            if let Some(bit) = first_bit(self.words[word as usize], 0) {
                return Some(64 * word + bit);
            }
        }
        None
    }

    /// The modules of the set as masks, one for each word that is not empty, in order. `OutOfMemory` where memory ran out.
    pub fn masks(&self, alloc: Global) -> Result<List<Mask>, OutOfMemory>
        ensures { IfOk result (λ masks. (n : ℕ) → HasMask masks n ↔ Has self.now n) }
    {
        let mut masks = List::new(alloc);
        for word in 0..self.words.len() {
            let bits = self.words[word];
            if bits != 0 {
                masks.push(Mask {
                    word: word as u32,
                    bits,
                })?;
            }
        }
        Ok(masks)
    }
}
