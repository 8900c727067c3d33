// Whether two arrays are the same, place by place.
ghost use Rattle.std.specs.Prelude.{◌≡◌};
ghost use Rattle.std.specs.Cmp.Lexicographic.{pointwise};

// All places are looked at, whether or not one is found to differ: that is quicker than to stop, as `==` does.
pub fn all_same<T: PartialEq, const N: usize>(v: &[T; N], w: &[T; N]) -> bool
    ensures { result ≡ pointwise T.eq v.now w.now }
{
    let mut same = true;
    for (x, y) in v.iter().zip(w) {
        if x != y {
            same = false;
        }
    }
    same
}
