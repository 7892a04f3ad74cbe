//! Accesses as slots and words.
//!
//! The lowest three bits of a slot are the code of the access's kind. The next bit tells whether words say its value, and then
//! comes the channel. The words are the ordinal and, where they say it, the value, its low half first.
ghost use Rattle.std.specs.Prelude.{◌≡◌, ℕ, ◌+◌, ◌*◌, ◌<◌, ◌≤◌, ◌++◌, true, length, map, drop, All};
ghost use Rattle.event_graph.specs.{Fits, kind_with_code, code_of as code_by, is_valued as is_valued_by, is_write};
ghost use Rattle.event_graph.specs.{has_value as has_value_by, access_slot, slot_size, slot_sizes, words_of, packed, unpacked_access};

use flow_word::{Access, Kind, RoomyList};

/// One more than the greatest half of a value.
const UPPER: u64 = 0x1_0000_0000;

/// One more than the greatest channel number that fits a slot.
const CHANNELS: u64 = 0x800_0000;

/// The most accesses of a step whose words and shape take one place of the room.
pub(crate) const MOST_ACCESSES: usize = 8;

/// The most accesses of a step that is kept as words.
pub(crate) const WIDE_ACCESSES: usize = 64;

/// The kind with this code.
#[inline(always)]
fn kind_of(code: u32) -> Kind
    ensures { result ≡ kind_with_code code }
{
    match code {
        0 => Kind::Read,
        1 => Kind::Write,
        2 => Kind::TryRead,
        3 => Kind::TryWrite,
        4 => Kind::Empty,
        _ => Kind::Full,
    }
}

/// The code of a kind.
#[inline(always)]
fn code_of(kind: Kind) -> u32
    ensures code { result ≡ code_by kind }
    ensures small { result < 6 }
{
    kind as u32
}

/// Whether words say the value of an access with this slot.
#[inline(always)]
fn is_valued(slot: u32) -> bool
    ensures { result ≡ is_valued_by slot }
{
    slot / 8 % 2 == 1
}

/// Whether an access of this kind writes.
#[inline(always)]
fn writes(kind: Kind) -> bool
    ensures { result ≡ is_write kind }
{
    match kind {
        Kind::Write | Kind::TryWrite => true,
        Kind::Read | Kind::TryRead | Kind::Empty | Kind::Full => false,
    }
}

/// Whether words say the value of an access: that of a write also where it is 0, so that all writes of a channel have one slot.
#[inline(always)]
fn has_value(kind: Kind, value: u64) -> bool
    ensures { result ≡ has_value_by kind value }
{
    writes(kind) | (value != 0)
}

/// The slot of an access.
#[inline(always)]
pub(crate) fn slot_of(access: Access) -> u32
    requires { Fits access }
    ensures { result ≡ access_slot access }
{
    code_of(access.kind) + 8 * has_value(access.kind, access.value) as u32 + 16 * access.channel
}

/// Whether these are the slots of these accesses.
#[inline(always)]
pub(crate) fn are_slots_of(slots: &[u32], accesses: &[Access]) -> bool
    requires { All Fits accesses.now }
    ensures { result ≡ true → slots.now ≡ map access_slot accesses.now }
{
    if slots.len() != accesses.len() {
        return false;
    }
    match accesses.len() {
        1 => slots[0] == slot_of(accesses[0]),
        2 => slots[0] == slot_of(accesses[0]) && slots[1] == slot_of(accesses[1]),
        _ => are_all_slots_of(slots, accesses),
    }
}

/// As `are_slots_of`, for any number of accesses.
fn are_all_slots_of(slots: &[u32], accesses: &[Access]) -> bool
    requires count { length slots.now ≡ length accesses.now }
    requires fit { All Fits accesses.now }
    ensures { result ≡ true → slots.now ≡ map access_slot accesses.now }
{
    for (at, access) in accesses.iter().enumerate() {
        if slots[at] != slot_of(*access) {
            return false;
        }
    }
    true
}

/// Adds the slots of these accesses. There must be room for them.
pub(crate) fn push_slots(slots: &mut RoomyList<u32>, accesses: &[Access])
    requires fit { All Fits accesses.now }
    requires room { length accesses.now ≤ slots.old.room }
    ensures items { slots.new.items ≡ slots.old.items ++ map access_slot accesses.now }
    ensures room { slots.old.room ≤ slots.new.room + length accesses.now }
{
    for access in accesses {
        slots.push_reserved(slot_of(*access));
    }
}

/// How many words an access with this slot takes.
#[inline(always)]
fn size_of(slot: u32) -> usize
    ensures { result ≡ slot_size slot }
{
    1 + 2 * is_valued(slot) as usize
}

/// The words after those of an access with this slot.
#[inline(always)]
pub(crate) fn after_access(slot: u32, words: &[u32]) -> &[u32]
    requires { slot_size slot ≤ length words.now }
    ensures { result.now ≡ drop (slot_size slot) words.now }
{
    &words[size_of(slot)..]
}

/// The access with this slot, where the words begin with its own.
#[inline(always)]
pub(crate) fn read_access(slot: u32, words: &[u32]) -> Access
    requires { slot_size slot ≤ length words.now }
    ensures { result ≡ unpacked_access slot words.now }
{
    Access {
        kind: kind_of(slot % 8),
        channel: slot / 16,
        ordinal: words[0] as u64,
        value: if is_valued(slot) {
            words[1] as u64 + UPPER * words[2] as u64
        } else {
            0
        },
    }
}

/// Adds the words of an access. There must be room for them.
#[inline(always)]
fn push_access(words: &mut RoomyList<u32>, access: Access)
    requires fits { Fits access }
    requires room { 3 ≤ words.old.room }
    ensures items { words.new.items ≡ words.old.items ++ words_of access }
    ensures room { words.old.room ≤ words.new.room + 3 }
{
    words.push_reserved(access.ordinal as u32);
    if has_value(access.kind, access.value) {
        words.push_reserved((access.value % UPPER) as u32);
        words.push_reserved((access.value / UPPER) as u32);
    }
}

/// Adds the words of these accesses. There must be room for them.
#[inline(always)]
pub(crate) fn push_accesses(words: &mut RoomyList<u32>, accesses: &[Access])
    requires fit { All Fits accesses.now }
    requires room { 3 * length accesses.now ≤ words.old.room }
    ensures items { words.new.items ≡ words.old.items ++ packed accesses.now }
    ensures room { words.old.room ≤ words.new.room + 3 * length accesses.now }
{
    if accesses.len() == 1 {
        push_access(words, accesses[0]);
    } else if accesses.len() == 2 {
        push_access(words, accesses[0]);
        push_access(words, accesses[1]);
    } else {
        push_all(words, accesses);
    }
}

/// As `push_accesses`, for any number of accesses.
fn push_all(words: &mut RoomyList<u32>, accesses: &[Access])
    requires fit { All Fits accesses.now }
    requires room { 3 * length accesses.now ≤ words.old.room }
    ensures items { words.new.items ≡ words.old.items ++ packed accesses.now }
    ensures room { words.old.room ≤ words.new.room + 3 * length accesses.now }
{
    for access in accesses {
        push_access(words, *access);
    }
}

/// Whether each access fits a slot and words.
pub(crate) fn all_fit(accesses: &[Access]) -> bool
    ensures { result ≡ true → All Fits accesses.now }
{
    accesses.iter().all(|access| access.ordinal < UPPER && (access.channel as u64) < CHANNELS)
}
