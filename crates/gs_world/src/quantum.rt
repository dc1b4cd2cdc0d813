ghost use Rattle.std.specs.Prelude.{◌≡◌, ◌+◌, ◌<◌, ◌≤◌, ◌^◌, ◌||◌, All, IsTrue, is_some, length, nat_le, nat_lt};
ghost use Rattle.std.specs.List.{position};
ghost use Rattle.gs_world.specs.inside.Members.{advance_members};

use crate::member::Member;

/// The first node whose increment is out of its bounds.
pub(crate) fn first_drift(lo: u32, hi: u32, incs: &[u32]) -> Option<usize>
    ensures { result ≡ position (λ h. nat_lt h lo || nat_lt hi h) incs.now }
{
    if are_within(lo, hi, incs) {
        return None;
    }
    incs.iter().position(|h| *h < lo || *h > hi)
}

/// Whether all increments are in their bounds: in a pass without a branch, which goes several at a time.
fn are_within(lo: u32, hi: u32, incs: &[u32]) -> bool
    ensures { IsTrue result → All (λ h. (lo ≤ h) × (h ≤ hi)) incs.now }
{
    let mut least = u32::MAX;
    let mut greatest = 0;
    for h in incs {
        least = least.min(*h);
        greatest = greatest.max(*h);
    }
    lo <= least && greatest <= hi
}

/// The first node whose last tick is as old as it may get.
pub(crate) fn first_due(gap: u32, quanta: u32, members: &[Member]) -> Option<usize>
    ensures { result ≡ position (λ s. nat_le (s.ticked_at + gap) quanta) members.now }
{
    members.iter().position(|member| u64::from(member.ticked_at) + u64::from(gap)
        <= u64::from(quanta))
}

/// The first place at which what was heard last is as old as it may get.
pub(crate) fn first_old(age: u32, quanta: u32, heard: &[u32]) -> Option<usize>
    ensures { result ≡ position (λ sent. nat_le (sent + age) quanta) heard.now }
{
    heard.iter().position(|sent| u64::from(*sent) + u64::from(age) <= u64::from(quanta))
}

/// The first node that heard some neighbour too long ago.
pub(crate) fn first_stale(age: u32, quanta: u32, members: &[Member]) -> Option<usize>
    ensures { result
        ≡ position (λ s. is_some (position (λ sent. nat_le (sent + age) quanta) s.heard.items)) members.now }
{
    members
        .iter()
        .position(|member| first_old(age, quanta, &member.heard).is_some())
}

/// One quantum of all nodes.
pub(crate) fn advance_members(members: &mut [Member], incs: &[u32])
    requires count { length incs.now ≡ length members.old }
    requires room { All (λ s. s.reading < 2 ^ 62) members.old }
    ensures { members.new ≡ advance_members members.old incs.now }
{
    for i in 0..members.len() {
        members[i].reading += u64::from(incs[i]);
    }
}
