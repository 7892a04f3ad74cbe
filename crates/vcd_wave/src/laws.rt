//! The laws of waves, and of reading them.
ghost use Rattle.std.specs.Prelude.{◌≡◌, ℕ, ◌<◌, ◌≤◌, ◌^◌, ◌↔◌, List, length, slice_index};
ghost use Rattle.vcd_wave.specs.{Plan, FitsEngine, fifos, fills, last_clock, HasFill, wave_of, wave_text, IsWave, TellsFill, told_fill};
ghost use Rattle.vcd_wave.specs.{last_told, Wave.Wave};

/// The wave of a plan is a wave of its FIFOs. It ends in the verdict's clock, and tells what each FIFO holds in each clock up to
/// that one.
pub fn waves_tell_fills()
    ensures wave { (p : Plan) → FitsEngine p → IsWave (wave_of p) }
    ensures count { (p : Plan) → length (wave_of p).names ≡ length (fifos p) }
    ensures last { (p : Plan) → last_told (wave_of p) ≡ last_clock p }
    ensures fills { (p : Plan) → FitsEngine p → (i c : ℕ) → i < length (fifos p) → c ≤ last_clock p
        → told_fill (wave_of p) i c ≡ slice_index (fills p c) i }
    ensures tells { (p : Plan) → FitsEngine p → (i c : ℕ) → i < length (fifos p) → c ≤ last_clock p
        → TellsFill (wave_text (wave_of p)) i c (slice_index (fills p c) i) }
{}

/// A text is the text of at most one wave, so it tells at most one number for each FIFO in each clock. The text of a plan's wave
/// tells exactly what the plan's FIFOs hold in the clocks up to the verdict's: nothing about later clocks, and nothing about other
/// FIFOs.
///
/// `one_wave` speaks of waves with fewer than 2^64 names, as each wave in memory has. `decimal` writes the last 64 digits of a
/// number, so it gives different numbers of FIFOs the same text from 10^64 on.
pub fn waves_read_back()
    ensures one_wave { (v w : Wave) → IsWave v → IsWave w → length v.names < 2 ^ 64 → wave_text v ≡ wave_text w → v ≡ w }
    ensures one_fill { (text : List ℕ) → length text < 2 ^ 64 → (i c a b : ℕ) → TellsFill text i c a → TellsFill text i c b → a ≡ b }
    ensures tells { (p : Plan) → FitsEngine p → (i c v : ℕ) → TellsFill (wave_text (wave_of p)) i c v ↔ HasFill p i c v }
{}
