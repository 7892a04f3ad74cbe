//! Running an action: first what it takes from the state before the clock, then its writes on the reply.
ghost use Rattle.std.specs.Prelude.{◌≡◌, ◌<◌, ◌≤◌, length, slice_index};
ghost use Rattle.module_code.specs.{temps_of, memory_of, address_in, IsOperandSound, operand_room, places_in, live_value, action_value};
ghost use Rattle.module_code.specs.{action_address, action_request, action_room, IsActionReady, carried_out, written_value};
ghost use Rattle.module_code.specs.{written_address, request_in, declared.running.Prepared.TheVariants.Asks};

use crate::action::OpCode;
use crate::noted::Noted;
use crate::operand::{Operand, evaluate};
use crate::replies::{is_yes, value_in};
use crate::target::{put, put_word};
use flow_design::{ModuleState, Reply, Request};
use flow_word::Kind;

/// What an action takes from the state before the clock.
#[derive(Clone, Copy, Debug)]
pub enum Prepared {
    /// The value that the action writes, and the address of a `store`, for an action whose writes depend on no reply.
    Writes(u64, u64),
    /// The request of an action that takes a reply.
    Asks(Request),
}

/// What an action of a live iteration with these temps takes from the state before the clock. It takes no memory: results of long
/// expressions go to `scratch`.
#[inline(always)]
pub fn prepare(
    action: &OpCode,
    state: &ModuleState,
    iteration: u32,
    temps: &[u64],
    scratch: &mut [u64],
) -> Prepared
    requires temps { temps.now ≡ temps_of state.now iteration }
    requires ready { IsActionReady state.now iteration action.now }
    requires room { action_room action.now ≤ length scratch.old }
    ensures value { written_value result ≡ action_value state.now iteration action.now }
    ensures address { written_address result ≡ action_address state.now iteration action.now }
    ensures request { request_in result ≡ action_request state.now iteration action.now }
    ensures room { length scratch.new ≡ length scratch.old }
{
    match action {
        OpCode::Set(_, value) => Prepared::Writes(
            value_of(value, state, iteration, temps, scratch),
            0,
        ),
        OpCode::Load(_, memory, address) => {
            let address = value_of(address, state, iteration, temps, scratch);
            Prepared::Writes(word_at(state, *memory, address), 0)
        }
        OpCode::Store(memory, _, address, value) => {
            let address = value_of(address, state, iteration, temps, scratch);
            let address = address_in(state, *memory, address);
            Prepared::Writes(value_of(value, state, iteration, temps, scratch), address)
        }
        OpCode::Read(channel, _) => asks(Kind::Read, *channel, 0),
        OpCode::Write(channel, mask, value) => {
            let value = value_of(value, state, iteration, temps, scratch);
            asks(Kind::Write, *channel, value & *mask)
        }
        OpCode::TryRead(channel, _, _) => asks(Kind::TryRead, *channel, 0),
        OpCode::TryWrite(channel, mask, _, value) => {
            let value = value_of(value, state, iteration, temps, scratch);
            asks(Kind::TryWrite, *channel, value & *mask)
        }
        OpCode::Empty(channel, _) => asks(Kind::Empty, *channel, 0),
        OpCode::Full(channel, _) => asks(Kind::Full, *channel, 0),
    }
}

/// The preparation of an action that makes this request and writes by its reply alone.
#[inline(always)]
fn asks(kind: Kind, channel: u32, value: u64) -> Prepared
    ensures { result ≡ Asks (record { kind = kind; channel = channel; value = value }) }
{
    Prepared::Asks(Request {
        kind,
        channel,
        value,
    })
}

/// The value of an operand in a live iteration with these temps.
#[inline(always)]
fn value_of(
    operand: &Operand,
    state: &ModuleState,
    iteration: u32,
    temps: &[u64],
    scratch: &mut [u64],
) -> u64
    requires temps { temps.now ≡ temps_of state.now iteration }
    requires sound { IsOperandSound (places_in state.now iteration) operand.now }
    requires room { operand_room operand.now ≤ length scratch.old }
    ensures value { result ≡ live_value state.now iteration operand.now }
    ensures room { length scratch.new ≡ length scratch.old }
{
    evaluate(operand, state.registers.as_slice(), temps, scratch)
}

/// The temps of a live iteration. The slice is empty where there is no such iteration.
#[inline(always)]
pub fn temps_of(state: &ModuleState, iteration: u32) -> &[u64]
    ensures { result.now ≡ temps_of state.now iteration }
{
    state.temps.get(iteration)
}

/// The words of a memory.
#[inline(always)]
fn memory_of(state: &ModuleState, number: u32) -> &[u64]
    ensures { result.now ≡ memory_of state.now number }
{
    match state.memories.as_slice().get(number as usize) {
        Some(words) => words.as_slice(),
        None => &[],
    }
}

/// An address, modulo the memory's length.
#[inline(always)]
fn address_in(state: &ModuleState, number: u32, address: u64) -> u64
    requires { 0 < length (memory_of state.now number) }
    ensures { result ≡ address_in state.now number address }
{
    address % memory_of(state, number).len() as u64
}

/// The word at an address, modulo the memory's length.
#[inline(always)]
fn word_at(state: &ModuleState, number: u32, address: u64) -> u64
    requires { 0 < length (memory_of state.now number) }
    ensures { result ≡ slice_index (memory_of state.now number) (address_in state.now number address) }
{
    memory_of(state, number)[address_in(state, number, address) as usize]
}

/// Writes what an action writes, from its note and its reply. It takes no memory.
#[inline(always)]
pub fn carry_out(action: &OpCode, noted: &Noted, reply: Reply, state: &mut ModuleState)
    ensures { state.new ≡ carried_out state.old noted.now reply action.now }
{
    let iteration = noted.iteration;
    match action {
        OpCode::Set(target, _) | OpCode::Load(target, _, _) => {
            put(state, iteration, *target, noted.value);
        }
        OpCode::Store(memory, mask, _, _) => {
            put_word(state, *memory, noted.address, noted.value & *mask);
        }
        OpCode::Read(_, target) => put(state, iteration, *target, value_in(reply)),
        OpCode::Write(_, _, _) => {}
        OpCode::TryRead(_, target, ok) => {
            let yes = is_yes(reply);
            if yes {
                put(state, iteration, *target, value_in(reply));
            }
            put(state, iteration, *ok, yes as u64);
        }
        OpCode::TryWrite(_, _, target, _) | OpCode::Empty(_, target) | OpCode::Full(_, target) => {
            put(state, iteration, *target, is_yes(reply) as u64);
        }
    }
}
