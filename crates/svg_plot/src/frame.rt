//! Where the marks stand.

ghost use Rattle.std.specs.Prelude.{◌≡◌, ◌≤◌, ◌<◌, ◌*◌, ◌/◌, ◌<ℤ◌, ◌≤ℤ◌, pos, length};
ghost use Rattle.rx_value.specs.declared.limits.TheConstants.{PLOT_SIDE_MIN, PLOT_SIDE_MAX};
ghost use Rattle.rx_value.specs.Plot.{least, greatest, upper_end};

use rx_value::{PLOT_SIDE_MAX, PLOT_SIDE_MIN};

/// What the marks are placed by. Pixels are counted from the left and from the top.
#[derive(Drop)]
pub struct Frame {
    /// The sides of the picture in pixels.
    pub width: u32,
    pub height: u32,
    /// How many numbers there are.
    pub count: usize,
    /// The ends of the scale: the least and the greatest of 0 and the numbers, or 0 and 1 where
    /// these are both 0.
    pub low: i64,
    pub high: i64,
    ghost least_width: { PLOT_SIDE_MIN ≤ width },
    ghost greatest_width: { width ≤ PLOT_SIDE_MAX },
    ghost least_height: { PLOT_SIDE_MIN ≤ height },
    ghost greatest_height: { height ≤ PLOT_SIDE_MAX },
    ghost ends: { low <ℤ high },
}

fn least(numbers: &[i64]) -> i64
    ensures value { result ≡ least numbers.now }
    ensures below { result ≤ℤ pos 0 }
{
    let mut low = 0;
    for number in numbers {
        low = (*number).min(low);
    }
    low
}

fn greatest(numbers: &[i64]) -> i64
    ensures value { result ≡ greatest numbers.now }
    ensures above { pos 0 ≤ℤ result }
{
    let mut high = 0;
    for number in numbers {
        high = (*number).max(high);
    }
    high
}

fn upper_end(low: i64, high: i64) -> i64
    requires below { low ≤ℤ pos 0 }
    requires above { pos 0 ≤ℤ high }
    ensures value { result ≡ upper_end low high }
    ensures apart { low <ℤ result }
{
    if low == 0 && high == 0 { 1 } else { high }
}

/// So many pixels of `length` as `part` has of `whole`, rounded down.
fn share(part: usize, whole: usize, length: u32) -> u32
    requires some { 0 < whole }
    requires within { part ≤ whole }
    ensures exact { result ≡ part * length / whole }
    ensures bound { result ≤ length }
{
    (part as u128 * length as u128 / whole as u128) as u32
}

impl Frame {
    ghost use Rattle.std.specs.Prelude.{◌+◌};
    ghost use Rattle.rx_value.specs.Plot.{frame_of, y_of, edge_of, x_of};
    ghost use Rattle.svg_plot.specs.inner.Seen.{seen_frame};

    pub fn new(width: u32, height: u32, numbers: &[i64]) -> Frame
        requires least_width { PLOT_SIDE_MIN ≤ width }
        requires greatest_width { width ≤ PLOT_SIDE_MAX }
        requires least_height { PLOT_SIDE_MIN ≤ height }
        requires greatest_height { height ≤ PLOT_SIDE_MAX }
        ensures { seen_frame result ≡ frame_of width height numbers.now }
    {
        let low = least(numbers);
        let high = upper_end(low, greatest(numbers));
        Frame {
            width,
            height,
            count: numbers.len(),
            low,
            high,
        }
    }

    /// The height at which a number stands. Products need 77 bits.
    #[tactic(auto, unfolding(rx_value::specs::Plot::y_of))]
    pub fn y(&self, number: i64) -> u32
        ensures { result ≡ y_of (seen_frame self.now) number }
    {
        let range = self.high.abs_diff(self.low) as u128;
        let rise = number.abs_diff(self.low) as u128 * (self.height - 40) as u128 / range;
        (self.height as u128 - 10).saturating_sub(rise) as u32
    }

    /// The left edge of the bar at `place`, which is the right edge of the bar before it.
    #[tactic(auto, unfolding(rx_value::specs::Plot::edge_of))]
    pub fn edge(&self, place: usize) -> u32
        requires some { 0 < self.now.count }
        requires within { place ≤ self.now.count }
        ensures { result ≡ edge_of (seen_frame self.now) place }
    {
        10 + share(place, self.count, self.width - 20)
    }

    /// The middle of the mark at `place`.
    #[tactic(auto, unfolding(rx_value::specs::Plot::x_of))]
    pub fn x(&self, place: usize) -> u32
        requires { place < self.now.count }
        ensures { result ≡ x_of (seen_frame self.now) place }
    {
        let room = self.width - 20;
        if self.count == 1 {
            10 + room / 2
        } else {
            10 + share(place, self.count - 1, room)
        }
    }
}
