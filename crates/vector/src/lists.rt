// Lists: what the library's `copy_from_slice` does, without asking whoever links a program without a C library for memmove.

ghost use Rattle.std.specs.Prelude.{◌≡◌, length};

// Copies a list over another of as many elements, one by one.
// Kept: not `copy_from_slice`, which is compiled to a call of memmove; the header promises that memcpy and memset are enough.
pub fn copy<T: Copy>(from: &[T], to: &mut [T])
    requires { length from.now ≡ length to.old }
    ensures { to.new ≡ from.now }
{
    for (i, x) in from.iter().enumerate() {
        to[i] = *x;
    }
}
