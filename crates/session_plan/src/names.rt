//! Names and their numbers.
ghost use Rattle.std.specs.Prelude.{◌≡◌, ◌≤◌, ◌^◌, ℕ, List as Items, [], ◌∷◌, ◌++◌, length, if◌then◌else◌, OnOk, OnErr};
ghost use Rattle.std.specs.{Option.option_or, Str.bytes_eq};
ghost use Rattle.session_plan.specs.{name_number, number_at};

use flow_word::{List, OutOfMemory};
use indexmap::IndexMap;
use std::alloc::Global;
use std::marker::Model;

/// Names in order of declaration, at most 2^30 of them. Contracts see them as that list.
#[derive(Drop)]
pub(crate) struct DeclaredNames<'a> {
    all: List<&'a [u8]>,
    numbers: IndexMap<&'a [u8], u32>,
}

impl<'a> Model for DeclaredNames<'a> {
    ghost use Rattle.std.specs.Prelude.{◌≡◌, ◌≤◌, ◌^◌, List as Items, ℕ, map, length};
    ghost use Rattle.session_plan.specs.{Names.place_among, NameTables.number_at};

    ghost Value = { Items (Items ℕ) };

    ghost view = { λ names. map (λ name. name.now) names.all };

    ghost invariant = { λ names.
        (length names.all ≤ 2 ^ 30)
        × ((n : Items ℕ) → number_at names.numbers n ≡ place_among (map (λ name. name.now) names.all) n) };
}

/// Notes the number of a name, unless it has one already. After `OutOfMemory` the table is as it was.
fn note<'a>(
    numbers: &mut IndexMap<&'a [u8], u32>,
    name: &'a [u8],
    number: u32,
) -> Result<(), OutOfMemory>
    ensures ok { OnOk result ((n : Items ℕ)
        → number_at numbers.new n ≡ option_or (number_at numbers.old n) (if bytes_eq n name.now then Some number else None)) }
    ensures err { OnErr result ((n : Items ℕ) → number_at numbers.new n ≡ number_at numbers.old n) }
{
    if !numbers.contains_key(name) {
        numbers.insert(name, number)?;
    }
    Ok(())
}

impl<'a> DeclaredNames<'a> {
    /// No names.
    pub(crate) fn new(alloc: Global) -> DeclaredNames<'a>
        ensures { result ≡ [] }
    {
        DeclaredNames {
            all: List::new(alloc),
            numbers: IndexMap::new(alloc),
        }
    }

    /// Adds a name at the end. Where there are 2^30 already, the answer is `OutOfMemory`.
    pub(crate) fn add(&mut self, name: &'a [u8]) -> Result<(), OutOfMemory>
        ensures { OnOk result (self.new ≡ self.old ++ name.now ∷ []) }
    {
        let number = self.all.len();
        if number >= 1 << 30 {
            return Err(OutOfMemory);
        }
        self.all.push(name)?;
        if note(&mut self.numbers, name, number as u32).is_err() {
            self.all.truncate(number);
            return Err(OutOfMemory);
        }
        Ok(())
    }

    /// How many names there are.
    pub(crate) fn len(&self) -> u32
        ensures len { result ≡ length self.now }
        ensures most { result ≤ 2 ^ 30 }
    {
        self.all.len() as u32
    }

    /// The number of a name: its place in the list, or the number of names where it is not there.
    pub(crate) fn number(&self, name: &[u8]) -> u32
        ensures number { result ≡ name_number self.now name.now }
        ensures most { result ≤ 2 ^ 30 }
    {
        match self.numbers.get(name) {
            Some(number) => *number,
            None => self.all.len() as u32,
        }
    }
}
