ghost use Rattle.std.specs.Prelude.{◌≡◌, ◌+◌, ◌<◌, ◌≤◌, ◌^◌, All, false, length, map};
ghost use Rattle.gs_skew.specs.Ranges.{AreEnds};
ghost use Rattle.gs_run.specs.Fast.{is_fast};
ghost use Rattle.gs_world.specs.inside.Members.{AreSlowClocks, IsReadable, clock_at, fast_one, sums};

use crate::member::Member;
use gs_skew::ClockRange;

/// Adds to each number its increment.
pub(crate) fn add(numbers: &mut [u64], incs: &[u32])
    requires count { length incs.now ≡ length numbers.old }
    requires room { All (λ x. x < 2 ^ 62) numbers.old }
    ensures { numbers.new ≡ sums numbers.old incs.now }
{
    for i in 0..numbers.len() {
        numbers[i] += u64::from(incs[i]);
    }
}

/// The clock of a node, where `clock` is right in the slow mode.
fn renewed(member: &Member, clock: u64) -> u64
    requires readable { IsReadable member.now }
    requires slow { is_fast member.now.core.node.mode ≡ false → clock ≡ clock_at member.now }
    ensures { result ≡ clock_at member.now }
{
    if member.is_fast() {
        member.clock()
    } else {
        clock
    }
}

/// Makes the clocks of fast nodes anew.
fn renew(members: &[Member], clocks: &mut [u64])
    requires readable { All IsReadable members.now }
    requires slow { AreSlowClocks members.now clocks.old }
    ensures { clocks.new ≡ map clock_at members.now }
{
    for (v, member) in members.iter().enumerate() {
        clocks[v] = renewed(member, clocks[v]);
    }
}

/// One quantum of all clocks, where the members have had theirs and `fast` nodes are fast. In the slow
/// mode a clock grows as its hardware reading.
pub(crate) fn advance_clocks(members: &[Member], fast: u32, incs: &[u32], clocks: &mut [u64])
    requires count { length incs.now ≡ length clocks.old }
    requires room { All (λ clock. clock < 2 ^ 62) clocks.old }
    requires readable { All IsReadable members.now }
    requires slow { AreSlowClocks members.now (sums clocks.old incs.now) }
    requires none_fast { fast ≡ 0 → All (λ s. is_fast s.core.node.mode ≡ false) members.now }
    ensures { clocks.new ≡ map clock_at members.now }
{
    add(clocks, incs);
    if fast == 0 {
        return;
    }
    renew(members, clocks);
}

/// The least and the greatest clock.
pub(crate) fn range(clocks: &[u64]) -> ClockRange
    requires some { 0 < length clocks.now }
    ensures { AreEnds clocks.now result.least result.greatest }
{
    let mut range = ClockRange::of(clocks[0]);
    for v in 1..clocks.len() {
        range.add(clocks[v]);
    }
    range
}

/// How many nodes are fast, of which `fast` were before one that `was` fast, or not, came to be so, or not.
pub(crate) fn counted(fast: u32, was: bool, is: bool) -> u32
    requires counts { fast_one was ≤ fast }
    requires room { fast < 2 ^ 31 }
    ensures { result + fast_one was ≡ fast + fast_one is }
{
    fast - u32::from(was) + u32::from(is)
}
