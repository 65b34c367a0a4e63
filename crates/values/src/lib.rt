#![tactic(auto)]

ghost use Rattle.std.specs.Prelude.{◌≡◌, ◌≤◌, ◌<◌, length};
ghost use Rattle.limits.specs.Limits.{most_atoms};
ghost use Rattle.paper.specs.Table1.{code};
ghost use Rattle.paper.specs.Marking.{settled_value};
ghost use Rattle.bits.specs.Sets.{member};
ghost use Rattle.values.specs.Values.{room_too_small, written};

use refusal::{Reason, Refusal};

// 3.
pub fn room_too_small(n: u64, room: u64) -> Result<(), Refusal>
    ensures { result ≡ room_too_small n room }
{
    if room < n {
        Reason::ValueRoomTooSmall.refused(0)
    } else {
        Ok(())
    }
}

// f 0, u 1, i 2, t 3: i if marked; otherwise t if the positive literal is held, f if the negative one is, u if neither.
pub fn value_code(marks: &[u64], held: &[u64], a: usize) -> u8
    requires { a < most_atoms }
    ensures { result ≡ code (settled_value (member marks.now) (member held.now) a) }
{
    if bits::has(marks, a) {
        return 2;
    }
    if bits::has(held, 2 * a) {
        return 3;
    }
    if bits::has(held, 2 * a + 1) {
        return 0;
    }
    1
}

// Writes the codes of the `n` atoms' values; bytes past them are untouched.
pub fn write_values(values: &mut [u8], marks: &[u64], held: &[u64], n: usize)
    requires { (n ≤ most_atoms) × (n ≤ length values.old) }
    ensures { values.new ≡ written (settled_value (member marks.now) (member held.now)) n values.old }
{
    for a in 0..n {
        values[a] = value_code(marks, held, a);
    }
}
