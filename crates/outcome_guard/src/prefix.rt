//! Two lists of outcomes compared.
ghost use Rattle.std.specs.Prelude.{◌↔◌, ◌⊎◌, IsTrue};
ghost use Rattle.outcome_guard.specs.{IsPrefix};

/// Whether one of the lists is a prefix of the other. It takes no memory.
pub fn one_is_prefix(a: &[bool], b: &[bool]) -> bool
    ensures { IsTrue result ↔ (IsPrefix a.now b.now ⊎ IsPrefix b.now a.now) }
{
    a.starts_with(b) || b.starts_with(a)
}
