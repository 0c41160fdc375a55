// The two new forms of a route that two-opt tries for a pair of stops on it. They turn other parts of it, so they are two functions.
#![tactic(auto)]

ghost use Rattle.std.specs.Prelude.{◌≡◌, ◌≤◌, ◌<◌, length};
ghost use Rattle.model.specs.TwoOpt.{ends_exchanged, inverted};
ghost use Rattle.pasting.specs.Put.{put};

// Writes r[j..] reversed, r[i+1..j], r[..i+1] reversed to the front of `out`.
pub fn ends_exchanged(route: &[u32], i: usize, j: usize, out: &mut [u32])
    requires { (i < j) × (j < length route.now) × (length route.now ≤ length out.old) }
    ensures { out.new ≡ put out.old 0 (ends_exchanged i j route.now) }
{
    let a = pasting::paste_reversed(out, 0, &route[j..]);
    let b = pasting::paste(out, a, &route[i + 1..j]);
    pasting::paste_reversed(out, b, &route[..i + 1]);
}

// Writes the inversion of Croes 1958, r[..i+1], r[i+1..j] reversed, r[j..], to the front of `out`.
pub fn inverted(route: &[u32], i: usize, j: usize, out: &mut [u32])
    requires { (i < j) × (j < length route.now) × (length route.now ≤ length out.old) }
    ensures { out.new ≡ put out.old 0 (inverted i j route.now) }
{
    let a = pasting::paste(out, 0, &route[..i + 1]);
    let b = pasting::paste_reversed(out, a, &route[i + 1..j]);
    pasting::paste(out, b, &route[j..]);
}
