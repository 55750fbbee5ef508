// The size of a measure in Paris points, of any two numbers.
#![tactic(auto)]

ghost use Rattle.std.specs.Prelude.{◌≡◌, true};
ghost use Rattle.measure.specs.Measure.{lies_z};
ghost use Rattle.paris_points.specs.Points.{least_rest, greatest_rest};
ghost use Rattle.call_replies.specs.Replies.{pointed_of, rest_of};
ghost use Rattle.call_points.specs.Pointed.{points_reply, points_rest};

use call_replies::Refusal;
use paris_points::Size;

// The size of a length and a correction in half points, and the signed rest, from -500 to 499 thousandths of one; none for length 0
// and correction 0. No table is lent. Refusal: 12.
pub fn points(length: u64, correction: i32) -> Result<Option<Size>, Refusal>
    ensures reply_value { pointed_of result ≡ points_reply (record { length = length; correction = correction }) }
    ensures rest_value { rest_of result ≡ points_rest (record { length = length; correction = correction }) }
    ensures rest_within { lies_z least_rest greatest_rest (rest_of result) ≡ true }
{
    if !measure::is_measure(length, correction) {
        return Err(Refusal::WrongMeasure);
    }
    if length == 0 {
        return Ok(None);
    }
    let t = paris_points::corrected(length, correction);
    let half_points = paris_points::half_points(t);
    let rest = paris_points::rest(t, half_points);
    Ok(Some(Size { half_points, rest }))
}
