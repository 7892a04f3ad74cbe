//! Sums over the links of a chain, and over the polls that it follows.
ghost use Rattle.std.specs.Prelude.{◌≡◌, ◌==◌, ℕ, ◌<◌, ◌≤◌, ◌^◌, ◌+◌, All, IfOk, IfSome, if◌then◌else◌, length, slice_index, sum_by};
ghost use Rattle.path_text.specs.{is_port, link_clocks, clocks_at, clocks_spent, clocks_waited, crossings, times_polled, clocks_waiting};
ghost use Rattle.path_text.specs.{waiting_at};

use crate::link::Polled;
use depth_order::Link;
use flow_word::{List, OutOfMemory, Port, Side};
use std::alloc::Global;

/// One entry per module: how many clocks a chain spends in it. `OutOfMemory` where memory ran out.
pub(crate) fn clocks_by_module(
    alloc: Global,
    modules: u64,
    links: &[Link],
) -> Result<List<u64>, OutOfMemory>
    requires order { All (λ l. l.first ≤ l.last) links.now }
    requires inside { All (λ l. l.module < modules) links.now }
    requires few { sum_by link_clocks links.now < 2 ^ 64 }
    ensures count { IfOk result (λ clocks. length clocks ≡ modules) }
    ensures each { IfOk result (λ clocks. (m : ℕ) → m < modules → slice_index clocks m ≡ clocks_spent links.now m) }
{
    let mut clocks = List::zeros(alloc, modules)?;
    for link in links {
        add_clocks(clocks.as_mut_slice(), link);
    }
    Ok(clocks)
}

/// Adds the clocks of a link to those of its module.
fn add_clocks(clocks: &mut [u64], link: &Link)
    requires order { link.now.first ≤ link.now.last }
    requires inside { link.now.module < length clocks.old }
    requires few { (m : ℕ) → m < length clocks.old → slice_index clocks.old m + link_clocks link.now < 2 ^ 64 }
    ensures count { length clocks.new ≡ length clocks.old }
    ensures each { (m : ℕ) → m < length clocks.old → slice_index clocks.new m
        ≡ slice_index clocks.old m + clocks_at m link.now }
{
    clocks[link.module as usize] += link.last - link.first + 1;
}

/// One entry per channel: how often a chain crosses it at this side, that is, where a module could not pop, or not push.
/// `OutOfMemory` where memory ran out.
pub(crate) fn crossings_by_channel(
    alloc: Global,
    channels: u64,
    side: Side,
    links: &[Link],
) -> Result<List<u64>, OutOfMemory>
    requires { All (λ l. IfSome l.crossed (λ a. a.channel < channels)) links.now }
    ensures count { IfOk result (λ times. length times ≡ channels) }
    ensures each { IfOk result (λ times. (f : ℕ) → f < channels → slice_index times f ≡ crossings links.now side f) }
{
    let mut times = List::zeros(alloc, channels)?;
    for link in links {
        count_crossing(times.as_mut_slice(), side, link.crossed);
    }
    Ok(times)
}

/// Counts a crossing, if it is at this side of its channel.
fn count_crossing(times: &mut [u64], side: Side, crossed: Option<Port>)
    requires inside { IfSome crossed (λ a. a.channel < length times.old) }
    requires few { (f : ℕ) → f < length times.old → slice_index times.old f + 1 < 2 ^ 64 }
    ensures count { length times.new ≡ length times.old }
    ensures each { (f : ℕ) → f < length times.old → slice_index times.new f
        ≡ slice_index times.old f + (if is_port (record { side = side; channel = f }) crossed then 1 else 0) }
{
    if let Some(port) = crossed {
        if port.side == side {
            times[port.channel as usize] += 1;
        }
    }
}

/// One entry per channel: how often a chain goes back to a push there that was polled for. `OutOfMemory` where memory ran out.
pub(crate) fn polls_by_channel(
    alloc: Global,
    channels: u64,
    polls: &[Polled],
) -> Result<List<u64>, OutOfMemory>
    requires { All (λ q. q.channel < channels) polls.now }
    ensures count { IfOk result (λ times. length times ≡ channels) }
    ensures each { IfOk result (λ times. (f : ℕ) → f < channels → slice_index times f ≡ times_polled polls.now f) }
{
    let mut times = List::zeros(alloc, channels)?;
    for poll in polls {
        count_poll(times.as_mut_slice(), poll.channel);
    }
    Ok(times)
}

/// Counts a poll on a channel.
fn count_poll(times: &mut [u64], channel: u32)
    requires inside { channel < length times.old }
    requires few { slice_index times.old channel + 1 < 2 ^ 64 }
    ensures count { length times.new ≡ length times.old }
    ensures each { (f : ℕ) → f < length times.old → slice_index times.new f
        ≡ slice_index times.old f + (if f == channel then 1 else 0) }
{
    times[channel as usize] += 1;
}

/// One entry per channel: how many clocks the elements that were polled for there waited in all. `OutOfMemory` where memory ran
/// out.
pub(crate) fn waiting_by_channel(
    alloc: Global,
    channels: u64,
    polls: &[Polled],
) -> Result<List<u64>, OutOfMemory>
    requires later { All (λ q. q.pushed < q.found) polls.now }
    requires inside { All (λ q. q.channel < channels) polls.now }
    requires few { sum_by clocks_waiting polls.now < 2 ^ 64 }
    ensures count { IfOk result (λ clocks. length clocks ≡ channels) }
    ensures each { IfOk result (λ clocks. (f : ℕ) → f < channels → slice_index clocks f ≡ clocks_waited polls.now f) }
{
    let mut clocks = List::zeros(alloc, channels)?;
    for poll in polls {
        add_waiting(clocks.as_mut_slice(), poll);
    }
    Ok(clocks)
}

/// Adds the clocks that an element polled for waited to those of its channel.
fn add_waiting(clocks: &mut [u64], poll: &Polled)
    requires later { poll.now.pushed < poll.now.found }
    requires inside { poll.now.channel < length clocks.old }
    requires few { (f : ℕ) → f < length clocks.old → slice_index clocks.old f + clocks_waiting poll.now < 2 ^ 64 }
    ensures count { length clocks.new ≡ length clocks.old }
    ensures each { (f : ℕ) → f < length clocks.old → slice_index clocks.new f
        ≡ slice_index clocks.old f + waiting_at f poll.now }
{
    clocks[poll.channel as usize] += poll.found - poll.pushed - 1;
}
