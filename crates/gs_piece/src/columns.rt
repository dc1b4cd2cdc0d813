ghost use Rattle.std.specs.Prelude.{◌≡◌, suc, ◌+◌, ◌<◌, ◌≤◌, ◌^◌, ℕ, true, false, length, slice_index, slice_index_or, IfSome, IfNone};
ghost use Rattle.std.specs.List.{count_by};
ghost use Rattle.gs_calendar.specs.Course.{course_of};
ghost use Rattle.gs_run.specs.Nets.{net_of};
ghost use Rattle.gs_plan.specs.declared.plan.Plan.{Plan};
ghost use Rattle.gs_script.specs.Script.{Said};
ghost use Rattle.gs_piece.specs.Columns.{AreSeats, clock_at};

use gs_seat::Seat;

/// One quantum of all clocks, each of which adds its step.
fn add_steps(clocks: &mut [u64], steps: &[u64])
    requires steps { length steps.now ≡ length clocks.old }
    requires room { (i : ℕ) → i < length clocks.old → slice_index clocks.old i + slice_index steps.now i < 2 ^ 64 }
    ensures count { length clocks.new ≡ length clocks.old }
    ensures clocks { (i : ℕ) → i < length clocks.old
        → slice_index clocks.new i ≡ slice_index clocks.old i + slice_index steps.now i }
{
    for i in 0..clocks.len() {
        clocks[i] += steps[i];
    }
}

/// The clock of the node at a place at the end of quantum `t + 1`.
fn next_clock(seats: &[Seat], t: u32, i: usize) -> u64
    requires inside { i < length seats.now }
    requires read { (p : Plan) × (s : Said) × (by : ℕ → ℕ → ℕ) × (a : ℕ) × (m : ℕ) × AreSeats p s by a m t seats.now }
    ensures { (p : Plan) (s : Said) (by : ℕ → ℕ → ℕ) (a m : ℕ) → AreSeats p s by a m t seats.now
        → result ≡ clock_at (net_of p) (course_of s) (suc t) (a + i) }
{
    seats[i].next_clock(t)
}

/// Sets the clocks of the fast nodes as they are at the end of quantum `t + 1`, and counts these nodes.
fn set_fast(seats: &[Seat], fast: &[bool], t: u32, clocks: &mut [u64]) -> u32
    requires seats { length seats.now ≡ length fast.now }
    requires clocks { length clocks.old ≡ length fast.now }
    requires few { length fast.now < 2 ^ 32 }
    requires read { (p : Plan) × (s : Said) × (by : ℕ → ℕ → ℕ) × (a : ℕ) × (m : ℕ) × AreSeats p s by a m t seats.now }
    ensures count { length clocks.new ≡ length clocks.old }
    ensures slow { (i : ℕ) → i < length fast.now → slice_index_or fast.now i false ≡ false
        → slice_index clocks.new i ≡ slice_index clocks.old i }
    ensures fast { (p : Plan) (s : Said) (by : ℕ → ℕ → ℕ) (a m i : ℕ) → AreSeats p s by a m t seats.now
        → i < length fast.now → slice_index_or fast.now i false ≡ true
        → slice_index clocks.new i ≡ clock_at (net_of p) (course_of s) (suc t) (a + i) }
    ensures number { result ≡ count_by (λ b. b) fast.now }
{
    let mut number = 0;
    let mut from = 0;
    while let Some(i) = first_set(fast, from) {
        clocks[i] = next_clock(seats, t, i);
        number += 1;
        from = i + 1;
    }
    number
}

/// The clocks of the nodes with these columns at the end of quantum `t + 1`, from those at the end of
/// quantum `t`. Counts the nodes that are fast.
pub(crate) fn advance(
    seats: &[Seat],
    steps: &[u64],
    fast: &[bool],
    t: u32,
    clocks: &mut [u64],
) -> u32
    requires seats { length seats.now ≡ length fast.now }
    requires steps { length steps.now ≡ length fast.now }
    requires clocks { length clocks.old ≡ length fast.now }
    requires few { length fast.now < 2 ^ 32 }
    requires room { (i : ℕ) → i < length clocks.old → slice_index clocks.old i + slice_index steps.now i < 2 ^ 64 }
    requires read { (p : Plan) × (s : Said) × (by : ℕ → ℕ → ℕ) × (a : ℕ) × (m : ℕ) × AreSeats p s by a m t seats.now }
    ensures count { length clocks.new ≡ length clocks.old }
    ensures slow { (i : ℕ) → i < length fast.now → slice_index_or fast.now i false ≡ false
        → slice_index clocks.new i ≡ slice_index clocks.old i + slice_index steps.now i }
    ensures fast { (p : Plan) (s : Said) (by : ℕ → ℕ → ℕ) (a m i : ℕ) → AreSeats p s by a m t seats.now
        → i < length fast.now → slice_index_or fast.now i false ≡ true
        → slice_index clocks.new i ≡ clock_at (net_of p) (course_of s) (suc t) (a + i) }
    ensures number { result ≡ count_by (λ b. b) fast.now }
{
    add_steps(clocks, steps);
    set_fast(seats, fast, t, clocks)
}

/// How many places of a column are looked at at once.
const BLOCK: usize = 8;

/// Whether any of these nodes wakes up by quantum `t`.
fn is_any_awake(wake: &[u32], t: u32) -> bool
    ensures { result ≡ false → (k : ℕ) → k < length wake.now → t < slice_index wake.now k }
{
    let mut any = false;
    for i in 0..wake.len() {
        any |= wake[i] <= t;
    }
    any
}

/// Whether all nodes of the block from a place on, which is whole, sleep through quantum `t`.
fn is_block_asleep(wake: &[u32], from: usize, t: u32) -> bool
    requires { from ≤ length wake.now }
    ensures { result ≡ true → (from + 8 ≤ length wake.now)
        × ((k : ℕ) → from ≤ k → k < from + 8 → t < slice_index wake.now k) }
{
    if wake.len() - from < BLOCK {
        return false;
    }
    !is_any_awake(&wake[from..from + BLOCK], t)
}

/// The place behind the blocks from a place on that sleep through quantum `t`.
fn skip_asleep(wake: &[u32], from: usize, t: u32) -> usize
    requires { from ≤ length wake.now }
    ensures inside { (from ≤ result) × (result ≤ length wake.now) }
    ensures asleep { (k : ℕ) → from ≤ k → k < result → t < slice_index wake.now k }
{
    let mut at = from;
    while is_block_asleep(wake, at, t) {
        at += BLOCK;
    }
    at
}

/// The first node from a place on that wakes up by quantum `t`.
pub(crate) fn first_awake(wake: &[u32], from: usize, t: u32) -> Option<usize>
    requires { from ≤ length wake.now }
    ensures some { IfSome result (λ i. (from ≤ i) × (i < length wake.now)
        × ((k : ℕ) → from ≤ k → k < i → t < slice_index wake.now k)) }
    ensures none { IfNone result ((k : ℕ) → from ≤ k → k < length wake.now → t < slice_index wake.now k) }
{
    for i in skip_asleep(wake, from, t)..wake.len() {
        if wake[i] <= t {
            return Some(i);
        }
    }
    None
}

/// Whether any of these flags is set.
fn is_any_set(flags: &[bool]) -> bool
    ensures { result ≡ false → (k : ℕ) → k < length flags.now → slice_index_or flags.now k false ≡ false }
{
    let mut any = false;
    for i in 0..flags.len() {
        any |= flags[i];
    }
    any
}

/// Whether no flag of the two blocks from a place on, which are whole, is set.
fn is_block_clear(flags: &[bool], from: usize) -> bool
    requires { from ≤ length flags.now }
    ensures { result ≡ true → (from + 16 ≤ length flags.now)
        × ((k : ℕ) → from ≤ k → k < from + 16 → slice_index_or flags.now k false ≡ false) }
{
    if flags.len() - from < 2 * BLOCK {
        return false;
    }
    !is_any_set(&flags[from..from + 2 * BLOCK])
}

/// The place behind the blocks from a place on in which no flag is set.
fn skip_clear(flags: &[bool], from: usize) -> usize
    requires { from ≤ length flags.now }
    ensures inside { (from ≤ result) × (result ≤ length flags.now) }
    ensures clear { (k : ℕ) → from ≤ k → k < result → slice_index_or flags.now k false ≡ false }
{
    let mut at = from;
    while is_block_clear(flags, at) {
        at += 2 * BLOCK;
    }
    at
}

/// The first place from one on at which a flag is set.
pub(crate) fn first_set(flags: &[bool], from: usize) -> Option<usize>
    requires { from ≤ length flags.now }
    ensures some { IfSome result (λ i. (from ≤ i) × (i < length flags.now) × (slice_index_or flags.now i false ≡ true)
        × ((k : ℕ) → from ≤ k → k < i → slice_index_or flags.now k false ≡ false)) }
    ensures none { IfNone result ((k : ℕ) → from ≤ k → k < length flags.now
        → slice_index_or flags.now k false ≡ false) }
{
    for i in skip_clear(flags, from)..flags.len() {
        if flags[i] {
            return Some(i);
        }
    }
    None
}
