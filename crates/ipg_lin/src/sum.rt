//! Sums and products that fit 128 bits: what forms come to, and sums of multiples of them.

ghost use Rattle.std.specs.Prelude.{◌≡◌, ◌+◌, ◌^◌, ◌<◌, ◌≤◌, ◌+ℤ◌, ◌*ℤ◌};
ghost use Rattle.std.specs.Int.RustNames.{unsigned_abs};

/// The largest size of a multiple: of a coefficient in a form, and of a weight in a sum of forms.
pub const LARGEST: u64 = 1 << 40;

/// The product of a coefficient or a weight, and a value or a constant.
pub fn times(multiple: i64, value: i128) -> i128
    requires multiple { unsigned_abs multiple ≤ 2 ^ 40 }
    requires value { unsigned_abs value ≤ 2 ^ 63 }
    ensures value { result ≡ multiple *ℤ value }
    ensures size { unsigned_abs result ≤ 2 ^ 103 }
{
    i128::from(multiple) * value
}

pub fn plus(x: i128, y: i128) -> i128
    requires { unsigned_abs x + unsigned_abs y < 2 ^ 127 }
    ensures value { result ≡ x +ℤ y }
    ensures size { unsigned_abs result ≤ unsigned_abs x + unsigned_abs y }
{
    x + y
}
