// The measure of a last: which lengths and corrections are one, how they are stored, and the tag, one number for both.
// All functions are internal to this library's crates.
#![tactic(auto)]

ghost use Rattle.std.specs.Prelude.{◌≡◌, true, map, ◌^◌, ◌≤◌, ◌<◌, length, pos, ◌+ℤ◌, ◌-ℤ◌};
ghost use Rattle.lists.specs.Lists.{every, overwrite};
ghost use Rattle.measure.specs.Measure.{greatest_length, greatest_correction, least_correction, lies_z, is_measure, measure_from, measures_beside};
ghost use Rattle.measure.specs.Tag.{stored_values, is_stored, tag_from, tag_of, length_in, stored_in};

const LEAST_LENGTH: u64 = 10000;

const GREATEST_LENGTH: u64 = 40000;

const LEAST_CORRECTION: i32 = -5000;

const GREATEST_CORRECTION: i32 = 5000;

const GREATEST_STORED: u64 = 10000;

// How much a stored correction is above the correction.
pub const STORED_ABOVE: u64 = 5000;

const STORED_VALUES: u64 = 65536;

// The tag of what is not measured.
pub const UNMEASURED: u64 = 0;

// Whether a length and a correction are a measure within the rules, "not measured" included.
pub fn is_measure(length: u64, correction: i32) -> bool
    ensures { result ≡ is_measure (record { length = length; correction = correction }) }
{
    if length == 0 {
        return correction == 0;
    }
    intervals::is_within(length, LEAST_LENGTH, GREATEST_LENGTH)
        && (LEAST_CORRECTION..=GREATEST_CORRECTION).contains(&correction)
}

// Whether a measure within the rules has this length and this stored correction.
pub fn is_stored(length: u64, stored: u64) -> bool
    ensures { result ≡ is_stored length stored }
{
    if length == 0 {
        return stored == 0;
    }
    intervals::is_within(length, LEAST_LENGTH, GREATEST_LENGTH) && stored <= GREATEST_STORED
}

// The tag of a length and a stored correction.
pub fn tag_from(length: u64, stored: u64) -> u64
    requires { is_stored length stored ≡ true }
    ensures { result ≡ tag_from length stored }
{
    length * STORED_VALUES + stored
}

// The length in a tag.
pub fn length_in(tag: u64) -> u64
    ensures { result ≡ length_in tag }
{
    tag / STORED_VALUES
}

// The stored correction in a tag.
pub fn stored_in(tag: u64) -> u64
    ensures { result ≡ stored_in tag }
{
    tag % STORED_VALUES
}

// A number and a correction together, which are not below zero.
pub fn plus(number: u64, correction: i32) -> u64
    requires number_bounds { (greatest_correction ≤ number) × (number ≤ greatest_length) }
    requires correction_bounds { lies_z least_correction (pos greatest_correction) correction ≡ true }
    ensures { pos result ≡ pos number +ℤ correction }
{
    (number as i32 + correction) as u64
}

// How much `a` is above `b`, below zero where it is less.
pub fn gap(a: u64, b: u64) -> i64
    requires { (a < 2 ^ 63) × (b < 2 ^ 63) }
    ensures { result ≡ pos a -ℤ pos b }
{
    a as i64 - b as i64
}

// The tag of a measure.
pub fn tag_of(length: u64, correction: i32) -> u64
    requires { is_measure (record { length = length; correction = correction }) ≡ true }
    ensures { result ≡ tag_of (record { length = length; correction = correction }) }
{
    if length == 0 {
        return UNMEASURED;
    }
    tag_from(length, plus(STORED_ABOVE, correction))
}

// The correction that a length and a stored correction show.
pub fn correction_from(length: u64, stored: u64) -> i64
    requires { stored < stored_values }
    ensures { result ≡ (measure_from length stored).correction }
{
    if length == 0 {
        return 0;
    }
    gap(stored, STORED_ABOVE)
}

// Whether lengths and corrections, one of each for a measure, are all measures within the rules.
// Corrections by index: of a zip with signed numbers the check finds no proof.
pub fn are_measures(lengths: &[u64], corrections: &[i32]) -> bool
    requires { length corrections.now ≡ length lengths.now }
    ensures { result ≡ every is_measure (measures_beside lengths.now corrections.now) }
{
    for (i, length) in lengths.iter().enumerate() {
        if !is_measure(*length, corrections[i]) {
            return false;
        }
    }
    true
}

// Write the tags of the measures at the start of `tags`. By index, as above.
pub fn put_tags(lengths: &[u64], corrections: &[i32], tags: &mut [u64])
    requires sizes_match { (length corrections.now ≡ length lengths.now) × (length lengths.now ≤ length tags.old) }
    requires all_measures { every is_measure (measures_beside lengths.now corrections.now) ≡ true }
    ensures { tags.new ≡ overwrite tags.old 0 (map tag_of (measures_beside lengths.now corrections.now)) }
{
    for (i, length) in lengths.iter().enumerate() {
        tags[i] = tag_of(*length, corrections[i]);
    }
}
