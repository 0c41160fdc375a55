// Writing lists: parts copied one after another into a list that is lent.
#![tactic(auto)]

ghost use Rattle.std.specs.Prelude.{◌≡◌, ◌++◌, reverse, ◌+◌, ◌≤◌, length, replicate};
ghost use Rattle.pasting.specs.Put.{put};

// Writes `from` into `to` from index `at` on, and returns where it ends.
pub fn paste(to: &mut [u32], at: usize, from: &[u32]) -> usize
    requires { at + length from.now ≤ length to.old }
    ensures value { result ≡ at + length from.now }
    ensures to_after { to.new ≡ put to.old at from.now }
{
    let end = at + from.len();
    to[at..end].copy_from_slice(from);
    end
}

// The same, last number first.
pub fn paste_reversed(to: &mut [u32], at: usize, from: &[u32]) -> usize
    requires { at + length from.now ≤ length to.old }
    ensures value { result ≡ at + length from.now }
    ensures to_after { to.new ≡ put to.old at (reverse from.now) }
{
    let end = at + from.len();
    let part = &mut to[at..end];
    part.copy_from_slice(from);
    part.reverse();
    end
}

// Writes head and then tail, and returns where they end.
pub fn join(to: &mut [u32], at: usize, head: &[u32], tail: &[u32]) -> usize
    requires { at + length head.now + length tail.now ≤ length to.old }
    ensures value { result ≡ at + length head.now + length tail.now }
    ensures to_after { to.new ≡ put to.old at (head.now ++ tail.now) }
{
    let end = paste(to, at, head);
    paste(to, end, tail)
}

// Copies a whole plan.
pub fn copy_plan(from: &[u32], to: &mut [u32])
    requires { length from.now ≡ length to.old }
    ensures { to.new ≡ from.now }
{
    to.copy_from_slice(from);
}

// Writes x into every place.
pub fn fill(to: &mut [u32], x: u32)
    ensures { to.new ≡ replicate (length to.old) x }
{
    to.fill(x);
}
