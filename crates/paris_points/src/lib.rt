// The size of a last in Paris points: whole half points, and the signed rest. All functions are internal to this library's crates.
#![tactic(auto)]

ghost use Rattle.std.specs.Prelude.{◌≡◌, true, ◌≢◌, ◌*◌, ◌≤◌, pos};
ghost use Rattle.measure.specs.Measure.{lies_z};
ghost use Rattle.measure.specs.Tag.{length_in, measure_at, is_tag};
ghost use Rattle.paris_points.specs.Points.{corrected, greatest_corrected, per_hundredth, rounded, half_points, rest, least_rest, greatest_rest, IsMeasured};

use measure::STORED_ABOVE;

// Thousandths of a half point in a hundredth of a millimetre, and in a half point.
const PER_HUNDREDTH: u64 = 3;

const PER_HALF_POINT: u64 = 1000;

// A size with its rest.
#[derive(Clone, Copy)]
pub struct Size {
    pub half_points: u64,
    pub rest: i64,
}

// The corrected length of a measured last: the correction added to the length.
pub fn corrected(length: u64, correction: i32) -> u64
    requires { IsMeasured (record { length = length; correction = correction }) }
    ensures { (pos result ≡ corrected (record { length = length; correction = correction })) × (result ≤ greatest_corrected) }
{
    measure::plus(length, correction)
}

// The rule of rounding: so many thousandths as whole half points, a half going up.
fn rounded(thousandths: u64) -> u64
    requires { thousandths ≤ per_hundredth * greatest_corrected }
    ensures { result ≡ rounded thousandths }
{
    (thousandths + PER_HALF_POINT / 2) / PER_HALF_POINT
}

// The size for a corrected length.
pub fn half_points(t: u64) -> u64
    requires { t ≤ greatest_corrected }
    ensures { result ≡ half_points (pos t) }
{
    rounded(PER_HUNDREDTH * t)
}

// The size of the measured last that has a tag.
pub fn half_points_in(tag: u64) -> u64
    requires { (is_tag tag ≡ true) × (length_in tag ≢ 0) }
    ensures { result ≡ half_points (corrected (measure_at tag)) }
{
    let raised = measure::length_in(tag) + measure::stored_in(tag);
    half_points(raised - STORED_ABOVE)
}

// The rest for a corrected length and its size.
pub fn rest(t: u64, size: u64) -> i64
    requires { (t ≤ greatest_corrected) × (size ≡ half_points (pos t)) }
    ensures { (result ≡ rest (pos t)) × (lies_z least_rest greatest_rest result ≡ true) }
{
    measure::gap(PER_HUNDREDTH * t, PER_HALF_POINT * size)
}
